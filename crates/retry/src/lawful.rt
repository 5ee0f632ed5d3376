// Lawful numbers, and the stages that they give a sheet.
ghost use Rattle.std.specs.Prelude.{◌≡◌, ◌+◌, ◌<◌, if◌then◌else◌, ◌==◌, IsTrue, IsFalse, SomeIff, MatchResult};
ghost use Rattle.retry.specs.Numbers.{first_end, is_lawful};
ghost use Rattle.retry.specs.Sheet.{number_of, stage_of, again, next, gifts, given};

use crate::numbers::Numbers;
use crate::stage::Stage;

// Numbers within their limits: a sheet of these has states.
#[derive(Clone, Copy)]
pub(crate) struct Lawful {
    numbers: Numbers,
    ghost lawful: { IsTrue (is_lawful numbers) },
}

impl TryFrom<Numbers> for Lawful {
    type Error = Numbers;

    ghost try_from_gives = { λ numbers r. MatchResult r (λ x. x.numbers ≡ numbers) (λ n. (n ≡ numbers) × IsFalse (is_lawful n)) };

    fn try_from(numbers: Numbers) -> Result<Lawful, Numbers> {
        if numbers.is_lawful() {
            Ok(Lawful { numbers })
        } else {
            Err(numbers)
        }
    }
}

impl Lawful {
    pub(crate) fn denominator(self) -> u32
        ensures { result ≡ self.numbers.denominator }
    {
        self.numbers.denominator
    }

    // The number of the first end; the states in which an event is being sent are below it.
    fn first_end(self) -> u32
        ensures { result ≡ first_end self.numbers }
    {
        2 * self.numbers.events * (self.numbers.resends + 1)
    }

    pub(crate) fn states(self) -> u32
        ensures { result ≡ first_end self.numbers + 3 }
    {
        self.first_end() + 3
    }

    // In 64 bits every stage has its number, even one that the sheet does not have.
    pub(crate) fn number_of(self, stage: Stage) -> u64
        ensures { result ≡ number_of self.numbers stage }
    {
        match stage {
            Stage::Sending {
                event,
                resends,
                applied,
            } => {
                let place = u64::from(event) * (u64::from(self.numbers.resends) + 1)
                    + u64::from(resends);
                place * 2 + u64::from(applied)
            }
            Stage::Done => u64::from(self.first_end()),
            Stage::GaveUp => u64::from(self.first_end()) + 1,
            Stage::CountedTwice => u64::from(self.first_end()) + 2,
        }
    }

    // The stage of a state; none past the states.
    pub(crate) fn stage_of(self, s: u32) -> Option<Stage>
        ensures { SomeIff result (s < first_end self.numbers + 3) (stage_of self.numbers s) }
    {
        let tries = self.numbers.resends + 1;
        match s.checked_sub(self.first_end()) {
            None => Some(Stage::Sending {
                event: s / 2 / tries,
                resends: s / 2 % tries,
                applied: s % 2 == 1,
            }),
            Some(0) => Some(Stage::Done),
            Some(1) => Some(Stage::GaveUp),
            Some(2) => Some(Stage::CountedTwice),
            Some(_) => None,
        }
    }

    // One resend more, or gave up after the last.
    fn again(self, event: u32, resends: u32, applied: bool) -> Stage
        ensures { result ≡ again self.numbers event resends applied }
    {
        if resends < self.numbers.resends {
            Stage::Sending {
                event,
                resends: resends + 1,
                applied,
            }
        } else {
            Stage::GaveUp
        }
    }

    // The next event, or done after the last.
    fn next(self, event: u32) -> Stage
        ensures { result ≡ next self.numbers event }
    {
        if event < self.numbers.events - 1 {
            Stage::Sending {
                event: event + 1,
                resends: 0,
                applied: false,
            }
        } else {
            Stage::Done
        }
    }

    // The part of a weight given to `stage` that state `t` gets: all, or nothing.
    fn give(self, weight: u32, stage: Stage, t: u32) -> u32
        ensures { result ≡ (if number_of self.numbers stage == t then weight else 0) }
    {
        if self.number_of(stage) == u64::from(t) {
            weight
        } else {
            0
        }
    }

    // What choice `c` of a stage gives to state `t`.
    pub(crate) fn given(self, stage: Stage, c: u32, t: u32) -> u32
        ensures { result ≡ given self.numbers (gifts self.numbers stage c) t }
    {
        let Numbers {
            denominator,
            request,
            receipt,
            ..
        } = self.numbers;
        let lost = request + receipt;
        let heard = denominator - lost;
        let Stage::Sending {
            event,
            resends,
            applied,
        } = stage
        else {
            return 0;
        };
        match (applied, c) {
            (false, 0) => {
                self.give(request, self.again(event, resends, false), t)
                    + self.give(receipt, self.again(event, resends, true), t)
                    + self.give(heard, self.next(event), t)
            }
            (true, 0) => {
                self.give(lost, self.again(event, resends, true), t)
                    + self.give(heard, self.next(event), t)
            }
            (true, 1) => {
                self.give(request, self.again(event, resends, true), t)
                    + self.give(denominator - request, Stage::CountedTwice, t)
            }
            _ => 0,
        }
    }
}
