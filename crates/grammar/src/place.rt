// How far a file has come.
ghost use Rattle.std.specs.Prelude.{◌≡◌};
ghost use Rattle.records.specs.Held.{content};
ghost use Rattle.grammar.specs.Place.{allowed, wanted, begun, ascended, behind, over};

use crate::kind::Kind;
use crate::order::Key;
use crate::ranges::{branches_ok, fields_ok};
use records::{Mark, Record};

#[derive(Clone, Copy)]
pub enum Place {
    // Nothing is there yet; a hand-in is due.
    HandInDue,
    // Nothing is there yet; a model file is due.
    ModelDue,
    // In a hand-in of that kind, behind a record of that key.
    Within { kind: Kind, last: Key },
    // In a model file of n states; so many states are to come, and so many choices of the present one.
    States { n: u16, states: u16, choices: u16 },
    // Behind ZZ.
    Done,
}

// The one mark that a model file has next.
fn wanted_mark(states: u16, choices: u16) -> Mark
    ensures { result ≡ wanted states choices }
{
    if choices > 0 {
        Mark::Ch
    } else if states > 0 {
        Mark::St
    } else {
        Mark::Zz
    }
}

// The place behind the head of a hand-in.
fn begun(number: u8, side: u8) -> Option<Place>
    ensures { result ≡ begun number side }
{
    let kind = Kind::try_from(number).ok()?;
    kind.may_be_for(side).then_some(Place::Within {
        kind,
        last: Key::default(),
    })
}

// The place behind a record of a hand-in's body.
fn ascended(kind: Kind, last: Key, item: Record<'_>) -> Option<Place>
    ensures { result ≡ ascended kind last (content item.entry) }
{
    let key = Key::of(kind, item)?;
    (last < key && fields_ok(item)).then_some(Place::Within { kind, last: key })
}

impl Place {
    // Whether a record of that mark is allowed here.
    pub fn allows(self, mark: Mark) -> bool
        ensures { result ≡ allowed self mark }
    {
        match self {
            Place::HandInDue => mark == Mark::Hd,
            Place::ModelDue => mark == Mark::Md,
            Place::Within { kind, last } => mark == Mark::Zz
                || kind.block(mark).is_some_and(|block| last.block <= block),
            Place::States {
                states,
                choices,
                ..
            } => mark == wanted_mark(states, choices),
            Place::Done => false,
        }
    }

    // Whether the file is complete here.
    pub fn is_over(self) -> bool
        ensures { result ≡ over self }
    {
        matches!(self, Place::Done)
    }

    // The place behind a record of an allowed mark; None where a field is out of its range, or the order does not ascend.
    pub fn behind(self, item: Record<'_>) -> Option<Place>
        ensures { result ≡ behind self (content item.entry) }
    {
        match (self, item) {
            (Place::HandInDue, Record::Hd { kind, side }) => begun(kind, side),
            (Place::ModelDue, Record::Md { states, .. }) => Some(Place::States {
                n: states,
                states,
                choices: 0,
            }),
            (Place::Within { .. } | Place::States { .. }, Record::Zz) => Some(Place::Done),
            (Place::Within { kind, last }, _) => ascended(kind, last, item),
            (Place::States { n, states, .. }, Record::St { goal, choices }) if goal <= 1 => {
                Some(Place::States {
                    n,
                    states: states.saturating_sub(1),
                    choices,
                })
            }
            (Place::States { n, states, choices }, Record::Ch { entries })
                if branches_ok(entries, n) => {
                Some(Place::States {
                    n,
                    states,
                    choices: choices.saturating_sub(1),
                })
            }
            _ => None,
        }
    }
}
