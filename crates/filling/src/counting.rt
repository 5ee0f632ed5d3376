// How many rows the records of a file give.
ghost use Rattle.std.specs.Prelude.{◌≡◌};
ghost use Rattle.records.specs.Held.{content};
ghost use Rattle.filling.specs.Giving.{given};
ghost use Rattle.filling.specs.Counted.{tally, CountsFit, Counted};

use reader::{ReadFault, Reader};
use records::{Record, branches};
use tables::Filled;

// The counts with a record more.
pub(crate) fn tally(counts: Filled, item: Record<'_>) -> Filled
    requires { CountsFit (tally counts (given (content item))) }
    ensures { result ≡ tally counts (given (content item.entry)) }
{
    match item {
        Record::Md { denominator, .. } => Filled {
            denominator,
            ..counts
        },
        Record::St { .. } => Filled {
            states: counts.states + 1,
            ..counts
        },
        Record::Ch { entries } => Filled {
            choices: counts.choices + 1,
            branches: counts.branches + branches(entries).len(),
            ..counts
        },
        _ => counts,
    }
}

// The rows of a file, counted before anything is written; a file that is refused is refused here.
pub(crate) fn count(bytes: &[u8]) -> Result<Filled, ReadFault>
    ensures { Counted bytes.now result }
{
    let mut reader = Reader::model_file(bytes, 0);
    let mut counts = Filled::default();
    while let Some((_, item)) = reader.next()? {
        counts = tally(counts, item);
    }
    // `finish_all` is no plainer here: the loop would have to carry that the reader's bytes stay the same.
    let behind = reader.offset();
    if behind < bytes.len() {
        return Err(ReadFault::Surplus(behind));
    }
    Ok(counts)
}
