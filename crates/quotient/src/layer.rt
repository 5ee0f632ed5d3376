// The quotient layer: the states of one class become one state.
ghost use Rattle.std.specs.Prelude.{◌≡◌, ◌<◌, ◌↔◌, ◌==◌, IsSome, IfSome, Some};
ghost use Rattle.quotient.specs.Quotient.{class_of, into, goal_of, choices_of, weight_between, layer, Divided};
ghost use Rattle.quotient.specs.Working.{IsClassSum, Owner};
ghost use Rattle.std.proofs.Common.{rules};

use crate::classes::Classes;
use mdp::Source;

// Any source, with a class for each of its states.
#[derive(Drop)]
pub struct Quotient<S> {
    below: S,
    // None where the list is not lawful.
    classes: Option<Classes>,
}

impl<S: Source> Quotient<S> {
    pub fn new(below: S, classes: &[u8]) -> Self
        ensures below { result.below ≡ below }
        ensures divided { Divided (S.Source.meaning below) classes.now result.classes }
    {
        let classes = Classes::of_list(&below, classes);
        Quotient { below, classes }
    }

    // The class of this number, where there is one.
    fn class(&self, number: u32) -> Option<Class<'_, S>>
        ensures there { IsSome result ↔ (number < (layer (S.Source.meaning self.now.below) self.now.classes).states) }
        ensures class { IfSome result
            (λ k. (k.below.now ≡ self.now.below) × (self.now.classes ≡ Some k.classes.now) × (k.number ≡ number)) }
    {
        match &self.classes {
            Some(classes) if number < classes.count => Some(Class {
                below: &self.below,
                classes,
                number,
            }),
            _ => None,
        }
    }
}

impl<S: Source> Source for Quotient<S> {
    ghost meaning = { λ q. layer (S.Source.meaning q.below) q.classes };

    ghost letter = { 81 };

    ghost bounded = { Prim.search rules };

    fn letter() -> u8 {
        b'Q'
    }

    fn states(&self) -> u32 {
        self.classes.as_ref().map_or(0, |classes| classes.count)
    }

    fn denominator(&self) -> u32 {
        self.classes
            .as_ref()
            .map_or(0, |_| self.below.denominator())
    }

    fn is_goal(&self, s: u32) -> bool {
        self.class(s).is_some_and(|class| class.has_goal())
    }

    fn choices(&self, s: u32) -> u32 {
        self.class(s).map_or(0, |class| class.choices())
    }

    fn weight(&self, s: u32, c: u32, t: u32) -> u32 {
        match (self.class(s), self.class(t)) {
            (Some(from), Some(to)) => from.weight(c, &to),
            _ => 0,
        }
    }
}

// A choice of a state, by its number there.
#[derive(Clone, Copy)]
struct Choice {
    state: u32,
    number: u32,
}

// One class of the states below. Contracts name its fields, since the value of an `impl Model` can hold no functions, as a model's.
#[derive(Drop)]
struct Class<'a, S> {
    below: &'a S,
    classes: &'a Classes,
    number: u32,
}

impl<'a, S: Source> Class<'a, S> {
    fn has(&self, s: u32) -> bool
        ensures { result ≡ (class_of self.now.classes.now s == self.now.number) }
    {
        self.classes.class_of(s) == self.number
    }

    fn has_goal(&self) -> bool
        ensures { result ≡ goal_of (S.Source.meaning self.now.below.now) (class_of self.now.classes.now) self.now.number }
    {
        (0..self.below.states()).any(|s| self.has(s) && self.below.is_goal(s))
    }

    #[tactic(auto, unfolding(crate::specs::Quotient::choices_of))]
    fn choices(&self) -> u32
        ensures { result ≡ choices_of (S.Source.meaning self.now.below.now) (class_of self.now.classes.now) self.now.number }
    {
        self.sum(|s| self.below.choices(s))
    }

    // The state whose choice is choice `c` of the class.
    #[tactic(auto, using(crate::proofs::ByClass::class_steps))]
    fn owner(&self, c: u32) -> Option<Choice>
        ensures { Owner (S.Source.meaning self.now.below.now) (class_of self.now.classes.now) self.now.number c result }
    {
        // A loop, since what is left of `c` goes on from state to state.
        let mut rest = c;
        for s in 0..self.below.states() {
            if self.has(s) {
                let choices = self.below.choices(s);
                if rest < choices {
                    return Some(Choice {
                        state: s,
                        number: rest,
                    });
                }
                rest -= choices;
            }
        }
        None
    }

    // What choice `c` of the class gives to another class of the list.
    #[tactic(auto, using(crate::proofs::Quotients::choices_steps))]
    fn weight(&self, c: u32, to: &Class<'_, S>) -> u32
        requires same_below { to.now.below.now ≡ self.now.below.now }
        requires same_classes { to.now.classes.now ≡ self.now.classes.now }
        ensures { result ≡ weight_between (S.Source.meaning self.now.below.now) (class_of self.now.classes.now)
            self.now.number c to.now.number }
    {
        // No class has a choice of the last number, since at most that many are counted.
        if c == u32::MAX {
            return 0;
        }
        match self.owner(c) {
            Some(choice) => to.given_by(choice),
            None => 0,
        }
    }

    // What the choice gives to the class.
    #[tactic(auto, unfolding(crate::specs::Quotient::into))]
    fn given_by(&self, choice: Choice) -> u32
        ensures { result ≡ into (S.Source.meaning self.now.below.now) (class_of self.now.classes.now)
            choice.state choice.number self.now.number }
    {
        self.sum(|t| self.below.weight(choice.state, choice.number, t))
    }

    // The sum over the states of the class, at most 4,294,967,295.
    fn sum<F: Fn(u32) -> u32>(&self, f: F) -> u32
        requires { F.IsAlwaysCallable f }
        ensures { IsClassSum (F.post f) (class_of self.now.classes.now) self.now.number
            (S.Source.meaning self.now.below.now).states result }
    {
        (0..self.below.states())
            .filter(|s| self.has(*s))
            .fold(0, |total: u32, s| total.saturating_add(f(s)))
    }
}
