// Where a sender stands.
ghost use Rattle.std.specs.Prelude.{◌≡◌};

// Which event it sends, how often it has sent it again and whether the server has applied it; or one of the three ends.
#[derive(Clone, Copy)]
pub(crate) enum Stage {
    Sending {
        event: u32,
        resends: u32,
        applied: bool,
    },
    Done,
    GaveUp,
    CountedTwice,
}

impl Stage {
    ghost use Rattle.retry.specs.Sheet.{choices_at};

    pub(crate) fn choices(self) -> u32
        ensures { result ≡ choices_at self }
    {
        match self {
            Stage::Sending { applied: false, .. } => 1,
            Stage::Sending { applied: true, .. } => 2,
            _ => 0,
        }
    }
}
