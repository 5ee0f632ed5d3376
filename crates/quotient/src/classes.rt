// Lists that name a class for each state, and how many classes they make.
ghost use Rattle.std.specs.Prelude.{◌≡◌, ◌↔◌, ℕ, ◌<◌, ◌≤◌, length, Decides, IsSome, IfSome};
ghost use Rattle.mdp.specs.Values.{entry};
ghost use Rattle.quotient.specs.Classes.{Counts};
ghost use Rattle.quotient.specs.Quotient.{class_of, Divided};
ghost use Rattle.quotient.specs.Working.{Fits, OneAbove, IsNamed, IsAgreed};

use mdp::Source;

// The class of each state, by a lawful list.
#[derive(Drop)]
pub(crate) struct Classes {
    // A copy, since callers of `new` may let the list go; of the largest size, since the library allocates nothing; 0 past the end.
    of_state: [u8; 256],
    pub(crate) count: u32,
}

impl Classes {
    pub(crate) fn of_list<S: Source>(below: &S, list: &[u8]) -> Option<Self>
        ensures { Divided (S.Source.meaning below.now) list.now result }
    {
        Listed::new(below, list)?.classes()
    }

    pub(crate) fn class_of(&self, s: u32) -> u32
        ensures { result ≡ class_of self.now s }
    {
        class_at(&self.of_state, s)
    }
}

// Past the end of the list the class is 0.
fn class_at(list: &[u8], s: u32) -> u32
    ensures { result ≡ entry list.now s }
{
    list.get(s as usize).map_or(0, |class| u32::from(*class))
}

// A list that names a class for each state below, of which there are 1 to 256.
#[derive(Drop)]
struct Listed<'a, S: Source> {
    below: &'a S,
    list: &'a [u8],
    ghost fits: { Fits (S.Source.meaning below.now) list.now },
}

impl<'a, S: Source> Listed<'a, S> {
    fn new(below: &'a S, list: &'a [u8]) -> Option<Self>
        ensures fits { IsSome result ↔ Fits (S.Source.meaning below.now) list.now }
        ensures same { IfSome result (λ x. (x.below.now ≡ below.now) × (x.list.now ≡ list.now)) }
    {
        let n = below.states();
        if (1..=256).contains(&n) && list.len() == n as usize {
            Some(Listed { below, list })
        } else {
            None
        }
    }

    fn classes(&self) -> Option<Classes>
        ensures { Divided (S.Source.meaning self.now.below.now) self.now.list.now result }
    {
        let count = self.count()?;
        let of_state = self.copied();
        Some(Classes { of_state, count })
    }

    // The list, and zeros up to the 256th place.
    fn copied(&self) -> [u8; 256]
        ensures { (k : ℕ) → entry result k ≡ entry self.now.list.now k }
    {
        let mut copy = [0; 256];
        copy[..self.list.len()].copy_from_slice(self.list);
        copy
    }

    // The number of classes of a lawful list.
    fn count(&self) -> Option<u32>
        ensures { Counts (S.Source.meaning self.now.below.now) self.now.list.now result }
    {
        let count = self.one_above();
        (self.all_occur(count) && self.all_agree()).then_some(count)
    }

    // One above the largest class.
    fn one_above(&self) -> u32
        ensures { OneAbove self.now.list.now result }
    {
        self.list
            .iter()
            .max()
            .map_or(0, |largest| u32::from(*largest) + 1)
    }

    // Whether every class below `count` occurs.
    fn all_occur(&self, count: u32) -> bool
        ensures { Decides result ((a : ℕ) → a < count → IsNamed self.now.list.now a) }
    {
        (0..count).all(|class| self.occurs(class))
    }

    fn occurs(&self, class: u32) -> bool
        ensures { Decides result (IsNamed self.now.list.now class) }
    {
        self.list.iter().any(|named| u32::from(*named) == class)
    }

    fn all_agree(&self) -> bool
        ensures { Decides result
            ((s : ℕ) → s < length self.now.list.now → IsAgreed (S.Source.meaning self.now.below.now) self.now.list.now s) }
    {
        (0..self.below.states()).all(|s| self.agrees(s))
    }

    // Whether state `s` and its classmates agree on the goal mark.
    fn agrees(&self, s: u32) -> bool
        ensures { Decides result (IsAgreed (S.Source.meaning self.now.below.now) self.now.list.now s) }
    {
        let class = class_at(self.list, s);
        let goal = self.below.is_goal(s);
        (0..self.below.states()).zip(self.list).all(|(t, named)| {
            u32::from(*named) != class || self.below.is_goal(t) == goal
        })
    }
}
