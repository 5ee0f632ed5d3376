// A file is read twice: first to count its rows, and then, where there is room for them, to write them.
ghost use Rattle.std.specs.Prelude.{◌≡◌, Decides};
ghost use Rattle.records.specs.Held.{content};
ghost use Rattle.filling.specs.Counted.{tally};
ghost use Rattle.filling.specs.Fills.{FileOf, rows_in, tables, held_in, AreSameLoans, RoomFor, Room, Filling, Fills};
ghost use Rattle.filling.specs.Giving.{given};
ghost use Rattle.filling.specs.Placed.{Placed};

use crate::counting::{count, tally};
use crate::fault::FillFault;
use crate::placing::put_branches;
use reader::Reader;
use records::{Branch, Record, branches};
use tables::{ChoiceRow, Filled, StateRow};

// The three tables that a caller lends.
#[derive(Drop)]
pub struct Tables<'a> {
    pub states: &'a mut [StateRow],
    pub choices: &'a mut [ChoiceRow],
    pub branches: &'a mut [Branch],
}

impl Tables<'_> {
    // The tables are filled from a model file. What stands behind the filled rows stays as it was, and on a refusal all does.
    pub fn fill(&mut self, bytes: &[u8]) -> Result<Filled, FillFault>
        ensures named { AreSameLoans self.old self.new }
        ensures value { Fills bytes.now (held_in self.old) (held_in self.new) result }
    {
        let counts = count(bytes)?;
        if !self.has_room(counts) {
            return Err(FillFault::NoRoom);
        }
        Ok(self.write_rows(bytes))
    }

    // Whether each table has room for its rows.
    fn has_room(&self, counts: Filled) -> bool
        ensures { Decides result (RoomFor counts (held_in self.now)) }
    {
        usize::from(counts.states) <= self.states.len()
            && counts.choices <= self.choices.len()
            && counts.branches <= self.branches.len()
    }

    // The rows of a file, into tables that have room for them, and how much is filled.
    fn write_rows(&mut self, bytes: &[u8]) -> Filled
        requires { (file : FileOf bytes.now) × Room (rows_in bytes.now file) (held_in self.old) }
        ensures named { AreSameLoans self.old self.new }
        ensures value { Filling bytes.now (held_in self.old) (held_in self.new) result }
    {
        let mut reader = Reader::model_file(bytes, 0);
        let mut filled = Filled::default();
        while let Some(item) = reader.next_record() {
            self.put(filled, item);
            filled = tally(filled, item);
        }
        filled
    }

    // The rows of a record, behind those that are filled.
    fn put(&mut self, filled: Filled, item: Record<'_>)
        requires { RoomFor (tally filled (given (content item))) (held_in self.old) }
        ensures named { AreSameLoans self.old self.new }
        ensures rows { Placed filled (given (content item.entry)) (held_in self.old) (held_in self.new) }
    {
        match item {
            Record::St { goal, choices } => {
                self.states[usize::from(filled.states)] = StateRow {
                    goal: goal == 1,
                    first: filled.choices,
                    choices,
                };
            }
            Record::Ch { entries } => {
                self.choices[filled.choices] = ChoiceRow {
                    first: filled.branches,
                    branches: branches(entries).len(),
                };
                put_branches(self.branches, filled.branches, entries);
            }
            _ => {}
        }
    }
}

// The three tables are filled from a model file, as `Tables::fill` does.
pub fn fill(
    bytes: &[u8],
    states: &mut [StateRow],
    choices: &mut [ChoiceRow],
    branches: &mut [Branch],
) -> Result<Filled, FillFault>
    ensures { Fills bytes.now (tables states.old choices.old branches.old) (tables states.new choices.new branches.new) result }
{
    let mut lent = Tables {
        states,
        choices,
        branches,
    };
    lent.fill(bytes)
}
