// The kinds of hand-ins.
ghost use Rattle.std.specs.Prelude.{◌≡◌};
ghost use Rattle.grammar.specs.HandIn.{head_ok};
ghost use Rattle.grammar.specs.Kind.{number_of, Decodes, block_of};

use records::Mark;

#[derive(Clone, Copy, PartialEq, Eq, Debug)]
pub enum Kind {
    Ceilings,
    Floors,
    Classes,
    Relation,
    Carry,
}

// A number that is no kind's.
#[derive(Clone, Copy, PartialEq, Eq, Debug)]
pub struct UnknownKind(pub u8);

impl TryFrom<u8> for Kind {
    type Error = UnknownKind;

    ghost try_from_gives = { Decodes };

    fn try_from(number: u8) -> Result<Self, UnknownKind> {
        match number {
            1 => Ok(Kind::Ceilings),
            2 => Ok(Kind::Floors),
            3 => Ok(Kind::Classes),
            4 => Ok(Kind::Relation),
            5 => Ok(Kind::Carry),
            _ => Err(UnknownKind(number)),
        }
    }
}

// The number of a kind in a head.
impl From<Kind> for u8 {
    ghost from_gives = { λ kind number. number ≡ number_of kind };

    fn from(kind: Kind) -> u8 {
        match kind {
            Kind::Ceilings => 1,
            Kind::Floors => 2,
            Kind::Classes => 3,
            Kind::Relation => 4,
            Kind::Carry => 5,
        }
    }
}

impl Kind {
    // Whether a hand-in of this kind may be for that side: 0 the low or 1 the high book. It is the byte of the record, which may be any.
    pub(crate) fn may_be_for(self, side: u8) -> bool
        ensures { result ≡ head_ok (number_of self) side }
    {
        side == 0 || (side == 1 && matches!(self, Kind::Ceilings | Kind::Floors))
    }

    // The block that a hand-in of this kind has such records in, if it has any.
    pub(crate) fn block(self, mark: Mark) -> Option<u8>
        ensures { result ≡ block_of self mark }
    {
        match (self, mark) {
            (Kind::Ceilings, Mark::Ce)
            | (Kind::Floors, Mark::Fl)
            | (Kind::Classes, Mark::Pc)
            | (Kind::Relation, Mark::Rw) => Some(1),
            (Kind::Classes, Mark::Pm) | (Kind::Relation, Mark::Wf) => Some(2),
            _ => None,
        }
    }
}
