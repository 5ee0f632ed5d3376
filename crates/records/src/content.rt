// What a record of a file says. Entries stay in the caller's bytes; entries.rt reads them.
ghost use Rattle.std.specs.Prelude.{◌≡◌, ◌/◌, ◌%◌, ◌<◌, ◌&&◌, [], ◌∷◌, length, ◌==◌, nat_lt};
ghost use Rattle.records.specs.Content.{mark_of};
ghost use Rattle.records.specs.Decode.{fixed_size};
ghost use Rattle.records.specs.Encode.{first_letter, second_letter};
ghost use Rattle.records.specs.Held.{content, whole};

// The two letters before a record, which say what it is.
#[derive(Clone, Copy, PartialEq, Eq)]
pub enum Mark {
    Md,
    St,
    Ch,
    Hd,
    Ce,
    Fl,
    Pc,
    Pm,
    Rw,
    Wf,
    Zz,
}

// `goal`, `kind` and `side` are numbers: a caller may hand in any byte, and whoever reads the record refuses those that mean nothing.
#[derive(Clone, Copy)]
pub enum Record<'a> {
    // A model: how many states it has, and its denominator.
    Md {
        states: u16,
        denominator: u16,
    },
    // The next state of a model: 1 if it is a goal, and how many choices it has.
    St {
        goal: u8,
        choices: u16,
    },
    // The next choice of a state: the bytes of its branches.
    Ch {
        entries: &'a [u8],
    },
    // The head of a hand-in: its kind, and the book it is for, 0 the low and 1 the high one.
    Hd {
        kind: u8,
        side: u8,
    },
    // A ceiling is claimed for a state.
    Ce {
        state: u16,
        claim: u32,
    },
    // A floor is claimed for a state.
    Fl {
        state: u16,
        claim: u32,
    },
    // A low state's class, which is a high state.
    Pc {
        state: u16,
        class: u8,
    },
    // The choice of the high state that a choice of the low state is matched to.
    Pm {
        state: u16,
        choice: u16,
        matched: u16,
    },
    // A low state's row: bit t, from the lowest, relates it to high state t.
    Rw {
        state: u16,
        row: u64,
    },
    // A weight function for a choice of a low state and its match: the bytes of its portions.
    Wf {
        state: u16,
        high: u8,
        choice: u16,
        matched: u16,
        entries: &'a [u8],
    },
    // The end.
    Zz,
}

// How many bytes a branch and a portion take.
pub const BRANCH_SIZE: usize = 4;

pub const PORTION_SIZE: usize = 5;

// An entry of a CH: what the choice gives to a target.
#[derive(Clone, Copy)]
pub struct Branch {
    pub target: u16,
    pub weight: u16,
}

// An entry of a WF: the part of the weight of `target` that goes to the high state `high`.
#[derive(Clone, Copy)]
pub struct Portion {
    pub target: u16,
    pub high: u8,
    pub amount: u16,
}

impl Mark {
    // The letters that it is spelled with. `TryFrom` reads them: it has a table of its own, since a match runs on patterns.
    pub fn letters(self) -> [u8; 2]
        ensures { result ≡ first_letter self ∷ second_letter self ∷ [] }
    {
        match self {
            Mark::Md => *b"MD",
            Mark::St => *b"ST",
            Mark::Ch => *b"CH",
            Mark::Hd => *b"HD",
            Mark::Ce => *b"CE",
            Mark::Fl => *b"FL",
            Mark::Pc => *b"PC",
            Mark::Pm => *b"PM",
            Mark::Rw => *b"RW",
            Mark::Wf => *b"WF",
            Mark::Zz => *b"ZZ",
        }
    }

    // How many bytes a record of this mark takes without its entries.
    pub fn fixed_size(self) -> usize
        ensures { result ≡ fixed_size self }
    {
        match self {
            Mark::Md => 6,
            Mark::St => 5,
            Mark::Ch => 4,
            Mark::Hd => 4,
            Mark::Ce => 8,
            Mark::Fl => 8,
            Mark::Pc => 5,
            Mark::Pm => 8,
            Mark::Rw => 12,
            Mark::Wf => 11,
            Mark::Zz => 2,
        }
    }
}

impl Record<'_> {
    pub fn mark(self) -> Mark
        ensures { result ≡ mark_of (content self.entry) }
    {
        match self {
            Record::Md { .. } => Mark::Md,
            Record::St { .. } => Mark::St,
            Record::Ch { .. } => Mark::Ch,
            Record::Hd { .. } => Mark::Hd,
            Record::Ce { .. } => Mark::Ce,
            Record::Fl { .. } => Mark::Fl,
            Record::Pc { .. } => Mark::Pc,
            Record::Pm { .. } => Mark::Pm,
            Record::Rw { .. } => Mark::Rw,
            Record::Wf { .. } => Mark::Wf,
            Record::Zz => Mark::Zz,
        }
    }
}

// Whether entries of `size` bytes each are whole, and few enough to be counted in two bytes.
fn entries_whole(entries: &[u8], size: usize) -> bool
    requires { 0 < size }
    ensures { result ≡ (length entries.now % size == 0 && nat_lt (length entries.now / size) 65536) }
{
    entries.len() % size == 0 && entries.len() / size < 65536
}

impl Record<'_> {
    // Whether the entries are whole, with no byte left over, and few enough for their count. Those of a record that was read are.
    pub fn is_whole(self) -> bool
        ensures { result ≡ whole self.entry }
    {
        match self {
            Record::Ch { entries } => entries_whole(entries, BRANCH_SIZE),
            Record::Wf { entries, .. } => entries_whole(entries, PORTION_SIZE),
            _ => true,
        }
    }
}
