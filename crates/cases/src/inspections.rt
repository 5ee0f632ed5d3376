// Tests of inspections and exact values, on a source of a caller's own: it gives its meaning, its letter and the five answers.
ghost use Rattle.std.specs.Prelude.{◌&&◌, if◌then◌else◌, nat_lt};
ghost use Rattle.std.proofs.Common.{rules};

use crate::{refusal, values};
use inspection::inspect;
use mdp::Source;
use quotient::Quotient;
use reach::{TooFar, exact_values};
use sink::Sink;

// Every state has the same number of choices, and every choice the same weight to every state.
#[derive(Clone, Copy)]
struct Flat {
    states: u32,
    denominator: u32,
    // The states below this number are goals.
    goals: u32,
    choices: u32,
    weight: u32,
}

impl Source for Flat {
    ghost meaning = { λ x. record {
      states = x.states;
      denominator = x.denominator;
      goal = λ s. nat_lt s x.goals && nat_lt s x.states;
      choices = λ s. (if nat_lt s x.states then x.choices else 0);
      weight = λ s c t. (if nat_lt s x.states && nat_lt c x.choices && nat_lt t x.states then x.weight else 0);
    } };

    ghost letter = { 70 };

    ghost bounded = { Prim.search rules };

    fn letter() -> u8 {
        b'F'
    }

    fn states(&self) -> u32 {
        self.states
    }

    fn denominator(&self) -> u32 {
        self.denominator
    }

    fn is_goal(&self, s: u32) -> bool {
        s < self.goals && s < self.states
    }

    fn choices(&self, s: u32) -> u32 {
        if s < self.states { self.choices } else { 0 }
    }

    fn weight(&self, s: u32, c: u32, t: u32) -> u32 {
        if s < self.states && c < self.choices && t < self.states {
            self.weight
        } else {
            0
        }
    }
}

const MAX: u32 = u32::MAX;

#[test]
fn largest_answers_are_refused(rt: HostRuntime) {
    let full = Flat {
        states: MAX,
        denominator: MAX,
        goals: MAX,
        choices: MAX,
        weight: MAX,
    };
    assert_eq!(rt; refusal(inspect(&full)), Some((b'F', 6, 0)));
    assert_eq!(rt; refusal(inspect(&Sink::new(full))), Some((b'K', 6, 0)));
    let q = Quotient::new(full, &[0, 0]);
    assert_eq!(rt; refusal(inspect(&q)), Some((b'Q', 6, 0)));
    assert!(rt; q.denominator() == 0 && q.choices(0) == 0 && q.weight(0, 0, 0) == 0);
}

#[test]
fn the_first_fault_is_named(rt: HostRuntime) {
    let sound = Flat {
        states: 256,
        denominator: 256,
        goals: 1,
        choices: 16,
        weight: 1,
    };
    let cases = [
        (sound, None),
        (Flat { states: 0, ..sound }, Some((6, 0))),
        (
            Flat {
                states: 257,
                ..sound
            },
            Some((6, 0)),
        ),
        // Of several faults the one of the smaller number is named.
        (
            Flat {
                denominator: 0,
                choices: 0,
                ..sound
            },
            Some((6, 0)),
        ),
        (
            Flat {
                denominator: 65536,
                ..sound
            },
            Some((6, 0)),
        ),
        (
            Flat {
                choices: 0,
                weight: 2,
                ..sound
            },
            Some((7, 0)),
        ),
        // A smaller number goes before a lower state: the weights are wrong from state 0 on.
        (
            Flat {
                choices: 17,
                weight: 2,
                ..sound
            },
            Some((7, 240)),
        ),
        (
            Flat {
                choices: MAX,
                ..sound
            },
            Some((7, 0)),
        ),
        (
            Flat {
                denominator: 65535,
                ..sound
            },
            Some((8, 0)),
        ),
        // 256 × (2^24 + 1) is 256 modulo 2^32: totals do not wrap.
        (
            Flat {
                weight: 16777217,
                ..sound
            },
            Some((8, 0)),
        ),
    ];
    for (flat, wanted) in cases {
        let found = refusal(inspect(&flat));
        assert!(rt; found.map(|(_, number, place)| (number, place)) == wanted);
    }
}

#[test]
fn values_of_a_flat_source(rt: HostRuntime) {
    let quarters = Flat {
        states: 4,
        denominator: 4,
        goals: 1,
        choices: 2,
        weight: 1,
    };
    let cases = [
        (0, 2, Ok(values(16, 16, 16))),
        (3, 2, Ok(values(7, 7, 16))),
        (4, 2, Ok(values(0, 0, 16))),
        (
            1,
            31,
            Ok(values(
                4611068345031103957,
                4611068345031103957,
                4611686018427387904,
            )),
        ),
        (1, 32, Err(TooFar)),
    ];
    for (s, n, wanted) in cases {
        assert_eq!(rt; exact_values(&quarters, s, n), wanted);
    }
    let certain = Flat {
        states: 1,
        denominator: 1,
        goals: 0,
        choices: 1,
        weight: 1,
    };
    assert_eq!(rt; exact_values(&certain, 0, 1000), Ok(values(0, 0, 1)));
    assert_eq!(rt; exact_values(&certain, 0, 1001), Err(TooFar));
}
