// What the tests of readers and of tables share: a model file, and a reading of each front of a file.
use reader::ReadFault;
use std::process::Abort;

// Two states: the first has two choices, the second is a goal and has none. As rows: two states, two choices, three branches.
pub(crate) const MODEL: &[u8] =
    b"MD\x00\x02\x00\x04ST\x00\x00\x02CH\x00\x02\x00\x00\x00\x03\x00\x01\x00\x01CH\x00\x01\x00\x01\x00\x04ST\x01\x00\x00ZZ";

// The last of the offsets that is not above n.
fn last_start(starts: &[usize], n: usize) -> usize {
    starts
        .iter()
        .copied()
        .filter(|start| *start <= n)
        .max()
        .unwrap_or(0)
}

// Each front of a file is refused by 1 at the record that it cuts, or that is missing; the whole file reads.
pub(crate) fn cut_anywhere<F: Fn(&[u8]) -> Result<(), ReadFault>>(
    rt: &impl Abort,
    read: F,
    bytes: &[u8],
    starts: &[usize],
)
    requires { F.IsAlwaysCallable read }
{
    for n in 0..bytes.len() {
        assert_eq!(rt;
            read(&bytes[0..n]),
            Err(ReadFault::Ends(last_start(starts, n)))
        );
    }
    assert_eq!(rt; read(bytes), Ok(()));
}
