// The search for a target among the branches of a choice.
ghost use Rattle.std.specs.Prelude.{◌≡◌};
ghost use Rattle.tables.specs.Halves.{found};

use records::Branch;
use std::cmp::Ordering;

// The weight of a target, by halves. In a file the targets of a choice ascend, so that nothing is missed.
// Not `binary_search_by`: rows may be in any order, a source has one meaning, and std leaves open what it finds out of order.
pub(crate) fn find(branches: &[Branch], target: u32) -> Option<u16>
    ensures { result ≡ found branches.now target }
{
    let mut rest = branches;
    while let Some(middle) = rest.get(rest.len() / 2) {
        let half = rest.len() / 2;
        match u32::from(middle.target).cmp(&target) {
            Ordering::Equal => return Some(middle.weight),
            Ordering::Less => rest = &rest[half + 1..],
            Ordering::Greater => rest = &rest[..half],
        }
    }
    None
}
