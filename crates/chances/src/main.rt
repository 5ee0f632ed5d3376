// Prints the exact least and largest chance of a double count, for the retry sheet that a line of standard input asks for.
#![tactic(auto)]

use inspection::{Unsound, inspect};
use mdp::Source;
use reach::{Reach, Values};
use requests::{BadLine, Request};
use retry::{Numbers, Sheet};
use rows::Row;
use std::io;

// The values of a source that was inspected and found sound always make a row.
fn print_row(rt: &impl Print, n: u32, reach: &Reach) -> io::Result<()> {
    let Some(Row { values, low, high }) = Row::of(reach) else {
        return println!(rt; "{n:>4} no chances");
    };
    let Values {
        least,
        largest,
        whole,
    } = values;
    println!(rt; "{n:>4} {least:>19} {largest:>19} {whole:>19} {low} {high}")
}

// The rows for 0 to `steps` steps, as far as the values go.
fn print_table(rt: &impl Print, source: &impl Source, steps: u32) -> io::Result<()> {
    println!(rt;
        "Chances of a double count within n steps from state 0, whatever the server does:"
    )?;
    println!(rt;
        "   n               least             largest                  of at least  at most"
    )?;
    let mut reach = Reach::start(source);
    print_row(rt, 0, &reach)?;
    for n in 1..=steps {
        if let Err(far) = reach.step(source) {
            return println!(rt; "{n:>4} {far}");
        }
        print_row(rt, n, &reach)?;
    }
    Ok(())
}

// A sheet within its limits is sound, so whatever is refused is out of them.
fn print_limits(rt: &impl Print, unsound: &Unsound) -> io::Result<()> {
    println!(rt; "{unsound}")?;
    println!(rt;
        "A sheet has states only within its limits: E 1 to 255, M up to 255, D 1 to 65535, a + b up to D, 2 x E x (M + 1) + 3 up to 256."
    )
}

fn answer(rt: &impl Print, request: &Request) -> io::Result<()> {
    println!(rt; "{request}")?;
    let sheet = Sheet::new(Numbers {
        events: request.events,
        resends: request.resends,
        denominator: request.denominator,
        request: request.request,
        receipt: request.receipt,
    });
    let source = sheet.under_sink();
    match inspect(&source) {
        Ok(()) => print_table(rt, &source, request.steps),
        Err(unsound) => print_limits(rt, &unsound),
    }
}

fn main(rt: HostRuntime) -> io::Result<()> {
    let mut line = String::new(rt.alloc());
    // What is not text is no line of numbers either.
    if rt.read_line(&mut line).is_err() {
        return println!(rt; "{BadLine}");
    }
    match Request::try_from(line.as_bytes()) {
        Ok(request) => answer(&rt, &request),
        Err(bad) => println!(rt; "{bad}"),
    }
}
