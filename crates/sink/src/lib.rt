// The sink layer: a state where nothing happens any more stays put.
#![tactic(auto)]

ghost use Rattle.std.specs.Prelude.{◌≡◌};
ghost use Rattle.mdp.specs.Sound.{Sound};
ghost use Rattle.sink.specs.Sink.{stuck, sinked, SoundOnceSinked};
ghost use Rattle.std.proofs.Common.{rules};

use mdp::Source;

// Any source, with one choice that stays put at each state that has none.
#[derive(Drop)]
pub struct Sink<S> {
    below: S,
}

impl<S: Source> Sink<S> {
    pub fn new(below: S) -> Self
        ensures below { result.below ≡ below }
        ensures sound { SoundOnceSinked (S.Source.meaning below) → Sound (sinked (S.Source.meaning below)) }
    {
        let sink = Sink { below };
        sink.is_sound_once_sinked();
        sink
    }

    // It does nothing: to call it is to cite what its contract states. Tried: `using(..sinked_sound)` on `new`, where the search
    // goes on to the sinked model of the sinked model and so on, and stops at its limit.
    fn is_sound_once_sinked(&self)
        ensures { SoundOnceSinked (S.Source.meaning self.now.below) → Sound (sinked (S.Source.meaning self.now.below)) }
    {}

    // Whether it is a state below without choices.
    fn is_stuck(&self, s: u32) -> bool
        ensures { result ≡ stuck (S.Source.meaning self.now.below) s }
    {
        self.below.choices(s) == 0 && s < self.below.states()
    }
}

impl<S: Source> Source for Sink<S> {
    ghost meaning = { λ k. sinked (S.Source.meaning k.below) };

    ghost letter = { 75 };

    ghost bounded = { Prim.search rules };

    fn letter() -> u8 {
        b'K'
    }

    fn states(&self) -> u32 {
        self.below.states()
    }

    fn denominator(&self) -> u32 {
        self.below.denominator()
    }

    fn is_goal(&self, s: u32) -> bool {
        self.below.is_goal(s)
    }

    // Not `is_stuck`, which would ask the source below a second time, and twice as often again in each layer more.
    fn choices(&self, s: u32) -> u32 {
        match self.below.choices(s) {
            0 if s < self.below.states() => 1,
            n => n,
        }
    }

    fn weight(&self, s: u32, c: u32, t: u32) -> u32 {
        if !self.is_stuck(s) {
            self.below.weight(s, c, t)
        } else if c == 0 && t == s {
            self.below.denominator()
        } else {
            0
        }
    }
}
