// For whom the choices are made: the least chance, or the largest.
ghost use Rattle.std.specs.Prelude.{◌≡◌, ℕ};
ghost use Rattle.mdp.specs.Sums.{better, best};

// One definition and one function serve both: whoever chooses takes the least offer, or the largest.
#[derive(Clone, Copy, PartialEq, Eq, Debug)]
pub enum Extreme {
    Min,
    Max,
}

impl Extreme {
    fn better(self, x: u128, y: u128) -> u128
        ensures { result ≡ better self x y }
    {
        match self {
            Extreme::Min => x.min(y),
            Extreme::Max => x.max(y),
        }
    }

    // The best of the offers below `n`, where `offer` gives one for each number; 0 where there is none.
    pub(crate) fn best<F: Fn(u32) -> u128>(self, n: u32, offer: F) -> u128
        requires { (state : F) (c : _) → F.pre state c }
        ensures { (f : ℕ → ℕ) → ((c x : ℕ) → F.post offer c x → x ≡ f c) → result ≡ best self n f }
    {
        (0..n)
            .map(offer)
            .reduce(|x, y| self.better(x, y))
            .unwrap_or(0)
    }
}
