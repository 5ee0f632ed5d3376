// One record more: what may follow at a place, and what may not.
ghost use Rattle.std.specs.Prelude.{◌≡◌};
ghost use Rattle.records.specs.Held.{content, whole};
ghost use Rattle.grammar.specs.Step.{step};

use crate::place::Place;
use records::Record;

// Why a record cannot stand at a place.
#[derive(Clone, Copy)]
pub enum Misfit {
    // Its mark is not allowed there.
    BadMark,
    // A field is out of its range, or the order does not ascend.
    BadField,
}

impl Place {
    // The place behind a record that is to stand here.
    pub fn step(self, item: Record<'_>) -> Result<Place, Misfit>
        ensures { result ≡ step self (whole item.entry) (content item.entry) }
    {
        if !self.allows(item.mark()) {
            return Err(Misfit::BadMark);
        }
        if !item.is_whole() {
            return Err(Misfit::BadField);
        }
        self.behind(item).ok_or(Misfit::BadField)
    }
}
