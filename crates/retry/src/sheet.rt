// A retry sheet answers for its model.
ghost use Rattle.std.specs.Prelude.{◌≡◌, IsTrue, IsFalse, MatchOption};
ghost use Rattle.mdp.specs.Sound.{Sound};
ghost use Rattle.mdp.specs.Values.{most_of, least_of};
ghost use Rattle.sink.specs.Sink.{sinked};
ghost use Rattle.retry.specs.Numbers.{is_lawful};
ghost use Rattle.retry.specs.Sheet.{Numbered, retried};
ghost use Rattle.retry.specs.SheetA.{numbers_a};
ghost use Rattle.retry.specs.Bounded.{bounded};

use crate::lawful::Lawful;
use crate::numbers::Numbers;
use crate::stage::Stage;
use mdp::Source;
use sink::Sink;
use std::marker::Model;

// Whether the numbers are lawful is worked out once. A sheet of unlawful ones has no states.
#[derive(Clone, Copy)]
pub struct Sheet {
    numbers: Result<Lawful, Numbers>,
}

impl Model for Sheet {
    ghost use Rattle.std.specs.Prelude.{IsFalse};
    ghost use Rattle.std.proofs.Common.{ap};
    ghost use Rattle.std.specs.Result.{ForErr};
    ghost use Rattle.retry.specs.Numbers.{is_lawful};
    ghost use Rattle.retry.specs.declared.numbers.Numbers.{Numbers};
    ghost use Rattle.retry.specs.Lawful.{numbers_in, try_from, try_from-numbers_in};

    ghost Value = { Numbers };

    ghost view = { λ x. numbers_in x.numbers };

    ghost invariant = { λ x. ForErr x.numbers (λ n. IsFalse (is_lawful n)) };

    ghost inverse = { λ n. record { numbers = try_from n } };

    ghost inverse_ok = { λ x h. ap (λ r. record { numbers = r }) (try_from-numbers_in x.numbers h) };
}

impl Sheet {
    #[tactic(auto, using(crate::proofs::Numbering::numbered))]
    pub fn new(numbers: Numbers) -> Self
        ensures numbers { result ≡ numbers }
        ensures numbered { Numbered result }
    {
        Sheet {
            numbers: Lawful::try_from(numbers),
        }
    }

    // The sheet with its ends staying put: what programs ask. A lawful one is sound.
    #[tactic(auto, using(crate::proofs::Soundness::sound_once_sinked))]
    pub fn under_sink(self) -> Sink<Sheet>
        ensures below { result.below ≡ self }
        ensures sound { IsTrue (is_lawful self) → Sound (sinked (retried self)) }
    {
        Sink::new(self)
    }

    // Its numbers, if they are lawful.
    fn lawful(&self) -> Option<Lawful>
        ensures { MatchOption result (IsFalse (is_lawful self.now)) (λ x. x.numbers ≡ self.now) }
    {
        self.numbers.ok()
    }
}

// Sheet A: one event and one resend; of ten sendings one loses the request, and two lose the receipt.
#[tactic(auto, using(crate::proofs::ValuesOfA::most_of_a, crate::proofs::ValuesOfA::least_of_a))]
pub fn sheet_a() -> Sheet
    ensures sheet { result ≡ numbers_a }
    ensures most { most_of (sinked (retried result)) 2 0 ≡ 18 }
    ensures least { least_of (sinked (retried result)) 2 0 ≡ 0 }
{
    Sheet::new(Numbers {
        events: 1,
        resends: 1,
        denominator: 10,
        request: 1,
        receipt: 2,
    })
}

impl Source for Sheet {
    ghost meaning = { retried };

    ghost letter = { 82 };

    ghost bounded = { bounded };

    fn letter() -> u8 {
        b'R'
    }

    fn states(&self) -> u32 {
        self.lawful().map_or(0, Lawful::states)
    }

    fn denominator(&self) -> u32 {
        self.lawful().map_or(0, Lawful::denominator)
    }

    fn is_goal(&self, s: u32) -> bool {
        self.lawful().is_some_and(|sheet| sheet.number_of(Stage::CountedTwice) == u64::from(s))
    }

    fn choices(&self, s: u32) -> u32 {
        self.lawful()
            .and_then(|sheet| sheet.stage_of(s))
            .map_or(0, Stage::choices)
    }

    fn weight(&self, s: u32, c: u32, t: u32) -> u32 {
        let Some(sheet) = self.lawful() else {
            return 0;
        };
        sheet
            .stage_of(s)
            .map_or(0, |stage| sheet.given(stage, c, t))
    }
}
