// The rows that a table rests on. Those of its third part, the branches of the choices, are the branches of the records.
ghost use Rattle.std.specs.Prelude.{◌≡◌, take, drop};

#[derive(Clone, Copy, Default)]
pub struct StateRow {
    pub goal: bool,
    // Where its choices begin among the choices.
    pub first: usize,
    pub choices: u16,
}

#[derive(Clone, Copy, Default)]
pub struct ChoiceRow {
    // Where its branches begin among the branches.
    pub first: usize,
    pub branches: usize,
}

// How many rows of each part are filled, and the model's denominator.
#[derive(Clone, Copy, Default)]
pub struct Filled {
    pub states: u16,
    pub denominator: u16,
    pub choices: usize,
    pub branches: usize,
}

// So many rows from the first on; fewer where there are no more.
pub(crate) fn part<R>(rows: &[R], first: usize, count: usize) -> &[R]
    ensures { result.now ≡ take count (drop first rows.now) }
{
    let rest = rows.get(first..).unwrap_or(&[]);
    &rest[..count.min(rest.len())]
}
