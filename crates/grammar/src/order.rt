// The order of a hand-in's records.
ghost use Rattle.std.specs.Prelude.{◌≡◌};
ghost use Rattle.records.specs.Held.{content};
ghost use Rattle.grammar.specs.Kind.{key_of};

use crate::kind::Kind;
use records::Record;

// What a record is ordered by: its block in the hand-in, then its state, high state and choice, 0 for what it does not have: keys are only
// compared, and an Option would be no plainer there. The default comes before the key of every record.
#[derive(Clone, Copy, Default, PartialEq, Eq, PartialOrd, Ord)]
pub struct Key {
    // A number, for blocks are compared: the first is 1, the second 2, and the default's 0 comes before both.
    pub(crate) block: u8,
    state: u16,
    high: u8,
    choice: u16,
}

impl Key {
    // The key of a record in a hand-in of that kind, if it has such records.
    pub(crate) fn of(kind: Kind, item: Record<'_>) -> Option<Key>
        ensures { result ≡ key_of kind (content item.entry) }
    {
        let block = kind.block(item.mark())?;
        let (state, high, choice) = match item {
            Record::Ce { state, .. }
            | Record::Fl { state, .. }
            | Record::Pc { state, .. }
            | Record::Rw { state, .. } => (state, 0, 0),
            Record::Pm { state, choice, .. } => (state, 0, choice),
            Record::Wf {
                state,
                high,
                choice,
                ..
            } => (state, high, choice),
            _ => return None,
        };
        Some(Key {
            block,
            state,
            high,
            choice,
        })
    }
}
