// The exact chances of reaching a goal within a number of steps, for every state at once.
ghost use Rattle.std.specs.Prelude.{◌^◌, ◌≤◌};

// Steps or powers of the denominator beyond the range in which values are given.
#[derive(Clone, Copy, PartialEq, Eq, Debug)]
pub struct TooFar;

// The exact values of one state: its least and its largest value, both shares of the whole, which is the power of the denominator.
#[derive(Clone, Copy, PartialEq, Eq, Debug)]
pub struct Values {
    pub least: u64,
    pub largest: u64,
    pub whole: u64,
}

// The values of every state of a source for one number of steps: chances times the power of the denominator.
#[derive(Drop)]
pub struct Reach {
    pub(crate) steps: u32,
    pub(crate) power: u64,
    // Each extreme keeps its own list, no pairs: a step reads the values of one extreme as one list.
    pub(crate) least: [u64; 256],
    pub(crate) largest: [u64; 256],
    ghost near: { steps ≤ 1000 },
    ghost small: { power ≤ 2 ^ 62 },
}
