// Tests of the quotient layer.
ghost use Rattle.std.specs.Prelude.{◌+◌, ◌&&◌, if◌then◌else◌, ◌==◌, nat_le, nat_lt};
ghost use Rattle.std.proofs.Common.{rules};

use inspection::inspect;
use mdp::Source;
use quotient::Quotient;

// Four states, of which the last two are goals. From state s one can go to each state up to s.
#[derive(Drop)]
struct Stairs;

impl Source for Stairs {
    ghost meaning = { λ _. record {
      states = 4;
      denominator = 1;
      goal = λ s. nat_lt s 4 && nat_le 2 s;
      choices = λ s. (if nat_lt s 4 then s + 1 else 0);
      weight = λ s c t. (if nat_lt s 4 && (nat_le c s && c == t) then 1 else 0);
    } };

    ghost letter = { 83 };

    ghost bounded = { Prim.search rules };

    fn letter() -> u8 {
        b'S'
    }

    fn states(&self) -> u32 {
        4
    }

    fn denominator(&self) -> u32 {
        1
    }

    fn is_goal(&self, s: u32) -> bool {
        s < 4 && s >= 2
    }

    fn choices(&self, s: u32) -> u32 {
        if s < 4 { s + 1 } else { 0 }
    }

    fn weight(&self, s: u32, c: u32, t: u32) -> u32 {
        if s < 4 && c <= s && c == t { 1 } else { 0 }
    }
}

#[test]
fn classes_have_the_choices_of_their_states(rt: HostRuntime) {
    let q = Quotient::new(Stairs, &[0, 0, 1, 1]);
    assert!(rt; inspect(&q).is_ok());
    assert_eq!(rt; q.states(), 2);
    assert!(rt; !q.is_goal(0));
    assert!(rt; q.is_goal(1));
    assert_eq!(rt; q.choices(0), 3);
    assert_eq!(rt; q.choices(1), 7);
    // State 3 goes to state 2.
    assert_eq!(rt; q.weight(1, 5, 1), 1);
    assert_eq!(rt; q.weight(1, 5, 0), 0);
    assert_eq!(rt; q.weight(1, 7, 1), 0);
}

#[test]
fn unlawful_lists_have_no_class(rt: HostRuntime) {
    assert_eq!(rt; Quotient::new(Stairs, &[0, 0, 1]).states(), 0);
    assert_eq!(rt; Quotient::new(Stairs, &[0, 0, 2, 2]).states(), 0);
    assert_eq!(rt; Quotient::new(Stairs, &[0, 1, 1, 1]).states(), 0);
}
