// A source answers five questions about a model, and the model that it answers for is its meaning.
ghost use Rattle.std.specs.Prelude.{◌≡◌, ℕ};
ghost use Rattle.mdp.specs.Model.{Model, Bounded};

pub trait Source {
    ghost meaning: { Self → Model };

    // The letter of this kind of source, which refusals of an opening name. (A constant would shut out types with a lifetime.)
    ghost letter: { ℕ };

    fn letter() -> u8
        ensures { result ≡ letter };

    fn states(&self) -> u32
        ensures { result ≡ (meaning self.now).states };

    fn denominator(&self) -> u32
        ensures { result ≡ (meaning self.now).denominator };

    fn is_goal(&self, s: u32) -> bool
        ensures { result ≡ (meaning self.now).goal s };

    fn choices(&self, s: u32) -> u32
        ensures { result ≡ (meaning self.now).choices s };

    // What choice `c` of state `s` gives to state `t`.
    fn weight(&self, s: u32, c: u32, t: u32) -> u32
        ensures { result ≡ (meaning self.now).weight s c t };

    ghost bounded: { (x : Self) → Bounded (meaning x) };
}
