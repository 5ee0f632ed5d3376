// Prints a model file or a hand-in record by record, in words, and then whether it was read whole: why was my file refused?
#![tactic(auto)]

use grammar::Kind;
use reader::{ReadFault, Reader};
use records::{Branch, Mark, Portion, Record, branches, mark_at, portions};
use std::io;
use std::io::Read;

// The numbers of the state and of the choice that come next in a model file.
#[derive(Clone, Copy, Default)]
struct Count {
    state: usize,
    choice: usize,
}

impl Count {
    fn after(self, item: Record<'_>) -> Count {
        match item {
            Record::St { .. } => Count {
                state: self.state.saturating_add(1),
                choice: 0,
            },
            Record::Ch { .. } => Count {
                state: self.state,
                choice: self.choice.saturating_add(1),
            },
            _ => self,
        }
    }
}

// Each line of a record but a row's is one call, since each call is a write of its own.
fn print_row(rt: &impl Print, offset: usize, state: u16, row: u64) -> io::Result<()> {
    if row == 0 {
        return println!(rt; "{offset:>6} RW state {state}: related to nothing");
    }
    print!(rt; "{offset:>6} RW state {state}: related to")?;
    for t in (0..64u32).filter(|t| (row >> *t) & 1 == 1) {
        print!(rt; " {t}")?;
    }
    println!(rt; "")
}

fn kind_word(kind: Kind) -> &'static str {
    match kind {
        Kind::Ceilings => "ceilings",
        Kind::Floors => "floors",
        Kind::Classes => "classes",
        Kind::Relation => "relation",
        Kind::Carry => "carry",
    }
}

fn print_head(rt: &impl Print, offset: usize, kind: u8, side: u8) -> io::Result<()> {
    // A head that was read is of a kind that there is.
    let word = Kind::try_from(kind).map_or("unknown", kind_word);
    let book = if side == 0 { "low" } else { "high" };
    println!(rt; "{offset:>6} HD kind {kind} ({word}), side {side} ({book})")
}

fn print_choice(rt: &impl Print, offset: usize, count: Count, entries: &[u8]) -> io::Result<()> {
    // A choice belongs to the state that came last.
    let state = count.state.saturating_sub(1);
    let choice = count.choice;
    let targets = branches(entries).len();
    println!(rt; "{offset:>6} CH state {state}, choice {choice}: targets {targets}")?;
    for Branch { target, weight } in branches(entries) {
        println!(rt; "         to {target}: weight {weight}")?;
    }
    Ok(())
}

fn print_portions(rt: &impl Print, entries: &[u8]) -> io::Result<()> {
    for Portion {
        target,
        high,
        amount,
    } in portions(entries) {
        println!(rt; "         to {target} and high {high}: amount {amount}")?;
    }
    Ok(())
}

fn print_record(rt: &impl Print, offset: usize, item: Record<'_>, count: Count) -> io::Result<()> {
    match item {
        Record::Md {
            states,
            denominator,
        } => println!(rt; "{offset:>6} MD states {states}, denominator {denominator}"),
        Record::St { goal, choices } => {
            let state = count.state;
            let mark = if goal == 1 { "goal" } else { "no goal" };
            println!(rt; "{offset:>6} ST state {state}: {mark}, choices {choices}")
        }
        Record::Ch { entries } => print_choice(rt, offset, count, entries),
        Record::Hd { kind, side } => print_head(rt, offset, kind, side),
        Record::Ce { state, claim } => println!(rt;
            "{offset:>6} CE state {state}: ceiling {claim}"
        ),
        Record::Fl { state, claim } => println!(rt; "{offset:>6} FL state {state}: floor {claim}"),
        Record::Pc { state, class } => println!(rt; "{offset:>6} PC state {state}: class {class}"),
        Record::Pm {
            state,
            choice,
            matched,
        } => println!(rt; "{offset:>6} PM state {state}, choice {choice}: match {matched}"),
        Record::Rw { state, row } => print_row(rt, offset, state, row),
        Record::Wf {
            state,
            high,
            choice,
            matched,
            entries,
        } => {
            let count = portions(entries).len();
            println!(rt;
                "{offset:>6} WF state {state}, high state {high}, choice {choice}: match {matched}, entries {count}"
            )?;
            print_portions(rt, entries)
        }
        Record::Zz => println!(rt; "{offset:>6} ZZ end"),
    }
}

// Prints the records up to the end of the unit or its fault, and answers whether that is the end of the bytes, or the fault.
fn print_records(rt: &impl Print, mut reader: Reader<'_>) -> io::Result<Result<(), ReadFault>> {
    let mut count = Count::default();
    loop {
        match reader.next() {
            Ok(Some((offset, item))) => {
                print_record(rt, offset, item, count)?;
                count = count.after(item);
            }
            Ok(None) => return Ok(reader.finish_all()),
            Err(fault) => return Ok(Err(fault)),
        }
    }
}

fn print_file(rt: &impl Print, bytes: &[u8]) -> io::Result<()> {
    let (words, reader) = match mark_at(bytes, 0) {
        Ok(Mark::Md) => ("model file", Reader::model_file(bytes, 0)),
        Ok(Mark::Hd) => ("hand-in", Reader::hand_in(bytes, 0)),
        // Read as either, the first mark is the fault.
        _ => (
            "neither a model file nor a hand-in",
            Reader::hand_in(bytes, 0),
        ),
    };
    println!(rt; "{words}")?;
    match print_records(rt, reader)? {
        Ok(()) => {
            let length = bytes.len();
            println!(rt; "read whole: {length} bytes")
        }
        Err(fault) => println!(rt; "{fault}"),
    }
}

fn main(rt: HostRuntime) -> io::Result<()> {
    let mut bytes = Vec::new(rt.alloc());
    let mut input = rt.stdin();
    let _ = input.read_to_end(&mut bytes)?;
    print_file(&rt, bytes.as_slice())
}
