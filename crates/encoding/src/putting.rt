// One record into a caller's buffer. Bytes before it and behind it stay as they are.
ghost use Rattle.std.specs.Prelude.{◌≡◌, ◌/◌, ◌<◌, true, length};
ghost use Rattle.records.specs.Encode.{encode as written, Fits, two, four, eight};
ghost use Rattle.records.specs.Held.{content, whole};
ghost use Rattle.encoding.specs.Placed.{joined, Encodes};

use records::{BRANCH_SIZE, PORTION_SIZE, Record};

// Fills the room with the parts, one behind the other.
fn put_parts(room: &mut [u8], parts: &[&[u8]])
    requires { length room.old ≡ length (joined parts.now) }
    ensures { room.new ≡ joined parts.now }
{
    // An offset that grows: a rest that shrinks (`split_at_mut`) was tried, and what the room holds behind the loop stayed open.
    let mut at = 0;
    for part in parts {
        room[at..at + part.len()].copy_from_slice(part);
        at += part.len();
    }
}

// A number in its bytes, the highest first.
fn two(number: u16) -> [u8; 2]
    ensures { result ≡ two number }
{
    number.to_be_bytes()
}

fn four(number: u32) -> [u8; 4]
    ensures { result ≡ four number }
{
    number.to_be_bytes()
}

fn eight(number: u64) -> [u8; 8]
    ensures { result ≡ eight number }
{
    number.to_be_bytes()
}

// How many entries of `width` bytes each there are, in two bytes.
fn entry_count(entries: &[u8], width: usize) -> [u8; 2]
    requires some { 0 < width }
    requires few { length entries.now / width < 65536 }
    ensures { result ≡ two (length entries.now / width) }
{
    two((entries.len() / width) as u16)
}

// How many bytes a record takes.
#[tactic(auto, using(crate::proofs::WholeEntries::length_ch, crate::proofs::WholeEntries::length_wf))]
fn size(item: Record<'_>) -> usize
    requires { whole item ≡ true }
    ensures { result ≡ length (written (content item.entry)) }
{
    let fixed = item.mark().fixed_size();
    match item {
        Record::Ch { entries } | Record::Wf { entries, .. } => fixed + entries.len(),
        _ => fixed,
    }
}

// Fills the room with a record.
fn put_record(room: &mut [u8], item: Record<'_>)
    requires whole { whole item ≡ true }
    requires room { length room.old ≡ length (written (content item)) }
    ensures value { room.new ≡ written (content item.entry) }
    ensures fit { Fits (content item.entry) }
{
    let mark = item.mark().letters();
    match item {
        Record::Md {
            states,
            denominator,
        } => put_parts(room, &[&mark, &two(states), &two(denominator)]),
        Record::St { goal, choices } => put_parts(room, &[&mark, &[goal], &two(choices)]),
        Record::Ch { entries } => put_parts(
            room,
            &[&mark, &entry_count(entries, BRANCH_SIZE), entries],
        ),
        Record::Hd { kind, side } => put_parts(room, &[&mark, &[kind, side]]),
        Record::Ce { state, claim } | Record::Fl { state, claim } => {
            put_parts(room, &[&mark, &two(state), &four(claim)])
        }
        Record::Pc { state, class } => put_parts(room, &[&mark, &two(state), &[class]]),
        Record::Pm {
            state,
            choice,
            matched,
        } => put_parts(room, &[&mark, &two(state), &two(choice), &two(matched)]),
        Record::Rw { state, row } => put_parts(room, &[&mark, &two(state), &eight(row)]),
        Record::Wf {
            state,
            high,
            choice,
            matched,
            entries,
        } => put_parts(
            room,
            &[
                &mark,
                &two(state),
                &[high],
                &two(choice),
                &two(matched),
                &entry_count(entries, PORTION_SIZE),
                entries,
            ],
        ),
        Record::Zz => put_parts(room, &[&mark]),
    }
}

// Writes a record at `at`, and answers where it ends. None, and nothing is written, where the buffer ends before it would, or its entries
// are not whole.
pub fn encode(buffer: &mut [u8], at: usize, item: Record<'_>) -> Option<usize>
    ensures { Encodes buffer.old at item.entry buffer.new result }
{
    if !item.is_whole() {
        return None;
    }
    let size = size(item);
    let (_, rest) = buffer.split_at_mut_checked(at)?;
    let (room, _) = rest.split_at_mut_checked(size)?;
    put_record(room, item);
    Some(at + size)
}
