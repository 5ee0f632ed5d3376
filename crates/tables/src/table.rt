// A table answers for the model that its rows hold.
ghost use Rattle.std.specs.Prelude.{◌≡◌, ◌^◌, ◌<◌, length};

use crate::rows::{ChoiceRow, Filled, StateRow, part};
use crate::search::find;
use mdp::Source;
use records::Branch;

// A model that rests on rows that a caller lends. They may be any rows; the states are counted in 16 bits.
#[derive(Clone, Copy)]
pub struct Table<'a> {
    denominator: u16,
    states: &'a [StateRow],
    choices: &'a [ChoiceRow],
    branches: &'a [Branch],
    ghost few: { length states.now < 2 ^ 16 },
}

impl<'a> Table<'a> {
    ghost use Rattle.tables.specs.Alike.{TellsFile};
    ghost use Rattle.tables.specs.Held.{front, held_by};
    ghost use Rattle.tables.specs.Tabled.{branches_of, state_at};

    // The table over the filled rows of each slice.
    pub fn over(
        states: &'a [StateRow],
        choices: &'a [ChoiceRow],
        branches: &'a [Branch],
        filled: Filled,
    ) -> Table<'a>
        ensures rows { held_by result ≡ front filled states.now choices.now branches.now }
        ensures file { TellsFile (held_by result) }
    {
        Table {
            denominator: filled.denominator,
            states: part(states, 0, usize::from(filled.states)),
            choices: part(choices, 0, filled.choices),
            branches: part(branches, 0, filled.branches),
        }
    }

    // The row of a state; one with nothing past the last.
    fn state(&self, s: u32) -> StateRow
        ensures { result ≡ state_at self.now.states.now s }
    {
        self.states.get(s as usize).copied().unwrap_or_default()
    }

    // The branches of a choice; none where there is no such choice.
    fn branches_of(&self, s: u32, c: u32) -> &'a [Branch]
        ensures { result.now ≡ branches_of (held_by self.now) s c }
    {
        let state = self.state(s);
        let choices = part(self.choices, state.first, usize::from(state.choices));
        let choice = choices.get(c as usize).copied().unwrap_or_default();
        part(self.branches, choice.first, choice.branches)
    }
}

impl Source for Table<'_> {
    ghost use Rattle.tables.specs.Bounds;
    ghost use Rattle.tables.specs.Held.{held_by};
    ghost use Rattle.tables.specs.Tabled.{tabled};

    ghost meaning = { λ x. tabled (held_by x) };

    ghost letter = { 84 };

    ghost bounded = { λ x. Bounds.bounded (held_by x) };

    // The clause is written here: in an `impl` with a lifetime the check does not take it from the trait.
    fn letter() -> u8
        ensures { result ≡ 84 }
    {
        b'T'
    }

    fn states(&self) -> u32 {
        self.states.len() as u32
    }

    fn denominator(&self) -> u32 {
        u32::from(self.denominator)
    }

    fn is_goal(&self, s: u32) -> bool {
        self.state(s).goal
    }

    fn choices(&self, s: u32) -> u32 {
        u32::from(self.state(s).choices)
    }

    fn weight(&self, s: u32, c: u32, t: u32) -> u32 {
        if t >= self.states() {
            return 0;
        }
        find(self.branches_of(s, c), t).map_or(0, u32::from)
    }
}
