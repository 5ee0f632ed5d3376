// Tests of the library crates.
#![tactic(auto)]

#[cfg(test)]
use inspection::Unsound;
#[cfg(test)]
use reach::Values;
#[cfg(test)]
use refusals::Refusal;

#[cfg(test)]
mod inspections;
#[cfg(test)]
mod quotients;
#[cfg(test)]
mod sheets;

#[cfg(test)]
fn values(least: u64, largest: u64, whole: u64) -> Values {
    Values {
        least,
        largest,
        whole,
    }
}

// What an inspection refuses by: the letter, the number and the place; None where it accepts.
#[cfg(test)]
fn refusal(answer: Result<(), Unsound>) -> Option<(u8, u32, u32)> {
    let unsound = answer.err()?;
    Some((unsound.letter, unsound.number(), unsound.place()))
}
