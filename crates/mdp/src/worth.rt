// What a choice is worth, and what the best choice of a state is worth, on values of the targets.
ghost use Rattle.std.specs.Prelude.{◌≡◌, min};
ghost use Rattle.mdp.specs.Sums.{best};
ghost use Rattle.mdp.specs.Values.{entry, expect};

use crate::extreme::Extreme;
use crate::source::Source;

// The sum over the first `n` targets, which are all that have a value.
fn sum_to<S: Source>(source: &S, s: u32, c: u32, values: &[u64; 256], n: u32) -> u128
    requires { n ≡ min (S.Source.meaning source.now).states 256 }
    ensures { result ≡ expect (S.Source.meaning source.now) (entry values.now) s c }
{
    // By number: over the values' iterator, with `enumerate` or `zip`, it takes about twice as long (tried), and this loop is all the work.
    let mut total: u128 = 0;
    for t in 0..n {
        total += source.weight(s, c, t) as u128 * values[t as usize] as u128;
    }
    total
}

// The sum of weight × value over all targets of a choice; targets past the values count as 0. It fits, whatever the source answers.
pub fn weighted_sum<S: Source>(source: &S, s: u32, c: u32, values: &[u64; 256]) -> u128
    ensures { result ≡ expect (S.Source.meaning source.now) (entry values.now) s c }
{
    sum_to(source, s, c, values, source.states().min(256))
}

// The least or the largest weighted sum over the choices of a state; 0 where it has none.
pub fn best_choice<S: Source>(extreme: Extreme, source: &S, s: u32, values: &[u64; 256]) -> u128
    ensures { result ≡ best extreme ((S.Source.meaning source.now).choices s) (expect (S.Source.meaning source.now) (entry values.now) s) }
{
    extreme.best(source.choices(s), |c| weighted_sum(source, s, c, values))
}
