// The numbers that a retry sheet holds.
ghost use Rattle.std.specs.Prelude.{◌≡◌};
ghost use Rattle.retry.specs.Numbers.{is_lawful};

// Of `denominator` sendings `request` lose the request and `receipt` the receipt.
#[derive(Clone, Copy)]
pub struct Numbers {
    pub events: u32,
    pub resends: u32,
    pub denominator: u32,
    pub request: u32,
    pub receipt: u32,
}

impl Numbers {
    pub(crate) fn is_lawful(&self) -> bool
        ensures { result ≡ is_lawful self.now }
    {
        (1..=255).contains(&self.events)
            && self.resends <= 255
            && (1..=65535).contains(&self.denominator)
            && self.request <= self.denominator
            && self.receipt <= self.denominator - self.request
            && 2 * self.events * (self.resends + 1) + 3 <= 256
    }
}
