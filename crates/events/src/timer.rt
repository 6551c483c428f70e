// The timers of a held call, with the paper's numbers.

ghost use Rattle.std.specs.Prelude.{◌≡◌};
ghost use Rattle.events.specs.Timer.{timer_of, timer_number};
ghost use Rattle.events.specs.Turn.{runs};

use crate::refusal::Refusal;

#[derive(Clone, Copy)]
pub(crate) enum Timer {
    T3 = 3,
    T6 = 6,
    T9 = 9,
}

impl TryFrom<u8> for Timer {
    type Error = Refusal;

    ghost try_from_gives = { λ n r. r ≡ timer_of n };

    fn try_from(n: u8) -> Result<Timer, Refusal> {
        match n {
            3 => Ok(Timer::T3),
            6 => Ok(Timer::T6),
            9 => Ok(Timer::T9),
            _ => Err(Refusal::ChoiceOrTimer),
        }
    }
}

impl Timer {
    // Does it run in this set of timers?
    pub(crate) fn is_in(self, set: u8) -> bool
        ensures { result ≡ runs set (timer_number self) }
    {
        match self {
            Timer::T3 => set % 2 == 1,
            Timer::T6 => set / 2 % 2 == 1,
            Timer::T9 => set / 4 % 2 == 1,
        }
    }
}
