// Whether the fields of a record are in their ranges.
ghost use Rattle.std.specs.Prelude.{◌≡◌};
ghost use Rattle.records.specs.Held.{content, branches, portions};
ghost use Rattle.grammar.specs.HandIn.{fields_ok, portions_ok, portion_precedes};
ghost use Rattle.grammar.specs.ModelFile.{branches_ok};

use crate::kind::Kind;
use records::{Portion, Record, branches, portions};

// The largest claim: it stands for 1.
const UNIT: u32 = 1048576;

// Whether the targets ascend strictly and are below n, and the weights are at least 1.
pub(crate) fn branches_ok(entries: &[u8], n: u16) -> bool
    ensures { result ≡ branches_ok n 0 (branches entries.now) }
{
    // It goes by the least target that may be next, as the definition does, so the first entry needs no case of its own.
    let mut least: u32 = 0;
    for branch in branches(entries) {
        if (branch.target as u32) < least || branch.target >= n || branch.weight == 0 {
            return false;
        }
        least = branch.target as u32 + 1;
    }
    true
}

fn portion_precedes(first: Portion, second: Portion) -> bool
    ensures { result ≡ portion_precedes first second }
{
    (first.target, first.high) < (second.target, second.high)
}

// Whether the entries ascend strictly by target, then high target, and the amounts are at least 1.
fn portions_ok(entries: &[u8]) -> bool
    ensures { result ≡ portions_ok (portions entries.now) }
{
    // It goes by the last entry, as the definition does: a pair of targets has no plain next one to be the least.
    let mut last: Option<Portion> = None;
    for portion in portions(entries) {
        if portion.amount == 0 || last.is_some_and(|last| !portion_precedes(last, portion)) {
            return false;
        }
        last = Some(portion);
    }
    true
}

// Whether the fields of a record of a hand-in are in their ranges.
pub(crate) fn fields_ok(item: Record<'_>) -> bool
    ensures { result ≡ fields_ok (content item.entry) }
{
    match item {
        Record::Hd { kind, side } => Kind::try_from(kind).is_ok_and(|kind| kind.may_be_for(side)),
        Record::Ce { claim, .. } | Record::Fl { claim, .. } => claim <= UNIT,
        Record::Wf { entries, .. } => portions_ok(entries),
        _ => true,
    }
}
