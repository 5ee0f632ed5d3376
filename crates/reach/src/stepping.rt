// How the values of all states are worked out, one step at a time.
ghost use Rattle.std.specs.Prelude.{◌≡◌, ℕ, ◌<◌, Some, slice_index};
ghost use Rattle.mdp.specs.Values.{entry, ValueLaws};
ghost use Rattle.reach.specs.Reach.{far_number, far_place, far_why, far_words, Begun, Stepped, Answered};
ghost use Rattle.refusals.specs.declared.finder.Finder.TheVariants.{ExactValues};
ghost use Rattle.reach.specs.Working.{Marks, next_value, Reached};

use crate::reach::{Reach, TooFar, Values};
use mdp::{Extreme, Source, best_choice};
use refusals::{Finder, Refusal, write_refusal};
use std::fmt;

impl Refusal for TooFar {
    type Place = u32;

    ghost number = { far_number };

    ghost place = { far_place };

    ghost words = { far_why };

    ghost finder = { λ _. ExactValues };

    fn number(&self) -> u32 {
        18
    }

    fn place(&self) -> u32 {
        0
    }

    fn words(&self) -> &'static str {
        "more than 1000 steps, or a power of the denominator above 2^62"
    }

    fn finder(&self) -> Finder {
        Finder::ExactValues
    }
}

impl fmt::Display for TooFar {
    ghost output = { λ x. Some (far_words x) };

    fn fmt<W: fmt::Write>(&self, f: &mut fmt::Formatter<W>) -> fmt::Result {
        write_refusal(self, f)
    }
}

// A number for each state, all 0.
fn zeros() -> [u64; 256]
    ensures { (k : ℕ) → slice_index result k ≡ 0 }
{
    [0; 256]
}

// The value of one state after a step.
fn next_value<S: Source>(
    extreme: Extreme,
    source: &S,
    s: u32,
    values: &[u64; 256],
    power: u64,
) -> u64
    ensures { result ≡ next_value extreme (S.Source.meaning source.now) power (entry values.now) s }
{
    if source.is_goal(s) {
        return power;
    }
    let best = best_choice(extreme, source, s, values);
    u64::try_from(best).unwrap_or(u64::MAX)
}

// The values of all states after a step.
fn next_values<S: Source>(
    extreme: Extreme,
    source: &S,
    values: &[u64; 256],
    power: u64,
) -> [u64; 256]
    ensures { (s : ℕ) → s < 256 → slice_index result s ≡ next_value extreme (S.Source.meaning source.now) power (entry values.now) s }
{
    // By number, over the states alone: `array::from_fn` goes over all 256, and took seven times as long for seven states (tried).
    let mut next = zeros();
    for s in 0..source.states().min(256) {
        next[s as usize] = next_value(extreme, source, s, values, power);
    }
    next
}

// The values for no steps: 1 at goals.
fn goal_marks<S: Source>(source: &S) -> [u64; 256]
    ensures { Marks (S.Source.meaning source.now) result }
{
    // By number, as above.
    let mut marks = zeros();
    for s in 0..source.states().min(256) {
        marks[s as usize] = u64::from(source.is_goal(s));
    }
    marks
}

impl Reach {
    // The values for no steps.
    pub fn start<S: Source>(source: &S) -> Reach
        ensures { Begun (S.Source.meaning source.now) result }
    {
        let marks = goal_marks(source);
        Reach {
            steps: 0,
            power: 1,
            least: marks,
            largest: marks,
        }
    }

    // One step more. The values stay as they are where that is too far.
    pub fn step<S: Source>(&mut self, source: &S) -> Result<(), TooFar>
        ensures { Stepped (S.Source.meaning source.now) self.old result self.new }
    {
        if self.steps >= 1000 {
            return Err(TooFar);
        }
        let power = self
            .power
            .checked_mul(u64::from(source.denominator()))
            .filter(|p| *p <= 1 << 62)
            .ok_or(TooFar)?;
        let least = next_values(Extreme::Min, source, &self.least, power);
        let largest = next_values(Extreme::Max, source, &self.largest, power);
        let steps = self.steps + 1;
        *self = Reach {
            steps,
            power,
            least,
            largest,
        };
        Ok(())
    }

    // The values of one state; 0 past the states that there is room for.
    pub fn at(&self, s: u32) -> Values
        ensures least { result.least ≡ entry self.now.least s }
        ensures largest { result.largest ≡ entry self.now.largest s }
        ensures whole { result.whole ≡ self.now.power }
    {
        let value = |values: &[u64; 256]| values.get(s as usize).copied().unwrap_or(0);
        Values {
            least: value(&self.least),
            largest: value(&self.largest),
            whole: self.power,
        }
    }
}

// The values for `n` steps.
fn reached<S: Source>(source: &S, n: u32) -> Result<Reach, TooFar>
    ensures values { Reached (S.Source.meaning source.now) n result }
    ensures laws { (s : ℕ) → ValueLaws (S.Source.meaning source.now) n s }
{
    if n > 1000 {
        return Err(TooFar);
    }
    let mut reach = Reach::start(source);
    for _k in 0..n {
        reach.step(source)?;
    }
    Ok(reach)
}

// The exact values of one state for `n` steps.
pub fn exact_values<S: Source>(source: &S, s: u32, n: u32) -> Result<Values, TooFar>
    ensures answer { Answered (S.Source.meaning source.now) s n result }
    ensures laws { ValueLaws (S.Source.meaning source.now) n s }
{
    let reach = reached(source, n)?;
    Ok(reach.at(s))
}
