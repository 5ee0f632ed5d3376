// How a source is inspected: limits first, then choices, then weights, and each from the lowest state on.
ghost use Rattle.std.specs.Prelude.{◌≡◌, ◌↔◌, IsNone, IfSome, Decides};
ghost use Rattle.mdp.specs.Sums.{sum};
ghost use Rattle.inspection.specs.Inspection.{OutOfLimits, Lowest, MissesChoices, IsFull, MissesWeights, FirstFault, Inspected};

use crate::fault::{Fault, Unsound};
use mdp::{Source, weighted_sum};

// A source with a number of states and a denominator within their limits.
#[derive(Drop)]
struct Limited<'a, S: Source> {
    source: &'a S,
    ghost within: { OutOfLimits (S.Source.meaning source.now) → ⊥ },
}

impl<'a, S: Source> Limited<'a, S> {
    // Not `within.then(..)`: tried, and the closure does not know that the test held, which the ghost field needs.
    fn new(source: &'a S) -> Option<Self>
        ensures none { IsNone result ↔ OutOfLimits (S.Source.meaning source.now) }
        ensures some { IfSome result (λ x. x.source.now ≡ source.now) }
    {
        if (1..=256).contains(&source.states()) && (1..=65535).contains(&source.denominator()) {
            Some(Limited { source })
        } else {
            None
        }
    }

    // The weights of one choice, added up: weighted by 1 each.
    fn total_weight(&self, s: u32, c: u32) -> u128
        ensures { result ≡ sum (S.Source.meaning self.now.source.now).states ((S.Source.meaning self.now.source.now).weight s c) }
    {
        weighted_sum(self.source, s, c, &[1; 256])
    }

    fn is_full(&self, s: u32, c: u32) -> bool
        ensures { Decides result (IsFull (S.Source.meaning self.now.source.now) s c) }
    {
        self.total_weight(s, c) == u128::from(self.source.denominator())
    }

    fn misses_weights(&self, s: u32) -> bool
        ensures { Decides result (MissesWeights (S.Source.meaning self.now.source.now) s) }
    {
        (0..self.source.choices(s)).any(|c| !self.is_full(s, c))
    }

    fn lowest_missing_weights(&self) -> Option<u32>
        ensures { Lowest (MissesWeights (S.Source.meaning self.now.source.now)) (S.Source.meaning self.now.source.now).states result }
    {
        (0..self.source.states()).find(|&s| self.misses_weights(s))
    }
}

// A loop, since it goes on with a running total, which the closure of a `find` would have to change.
fn lowest_missing_choices<S: Source>(source: &S) -> Option<u32>
    ensures { Lowest (MissesChoices (S.Source.meaning source.now)) (S.Source.meaning source.now).states result }
{
    let mut total: u64 = 0;
    for s in 0..source.states() {
        let k = source.choices(s);
        total += u64::from(k);
        if k == 0 || total > 4096 {
            return Some(s);
        }
    }
    None
}

fn first_fault<S: Source>(source: &S) -> Result<(), Fault>
    ensures { FirstFault (S.Source.meaning source.now) result }
{
    let limited = Limited::new(source).ok_or(Fault::Limits)?;
    if let Some(s) = lowest_missing_choices(source) {
        return Err(Fault::Choices(s));
    }
    if let Some(s) = limited.lowest_missing_weights() {
        return Err(Fault::Weights(s));
    }
    Ok(())
}

// Whether the source's model is sound; if not, the fault of the smallest number that it has anywhere, at the lowest state.
#[tactic(auto, using(crate::proofs::Soundness::faulty_not_sound))]
pub fn inspect<S: Source>(source: &S) -> Result<(), Unsound>
    ensures { Inspected (S.Source.meaning source.now) S.Source.letter result }
{
    let letter = S::letter();
    first_fault(source).map_err(|fault| Unsound { letter, fault })
}
