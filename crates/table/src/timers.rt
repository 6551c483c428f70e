// The timers that run in a state, and what is started and stopped between two states.

ghost use Rattle.std.specs.Prelude.{◌≡◌};
ghost use Rattle.table.specs.Timers.{timer_set, started_set};

use crate::{Side, State};

// Side by state: bit 1 for T3, 2 for T6, 4 for T9. A set of timers is a number: a line holds any octet there, and is written back octet for octet
// (`answer_written_back`, lines).
const TIMERS: [[u8; 6]; 2] = [[0, 1, 0, 3, 5, 1], [0, 0, 0, 2, 4, 0]];

pub fn timer_set(a: Side, s: State) -> u8
    ensures { result ≡ timer_set a s }
{
    TIMERS[a.index() as usize][u8::from(s) as usize]
}

// What starts on a side where one state is followed by another. What stops is what starts on the way back.
#[tactic(auto, using(crate::proofs::Laws::without_is))]
pub fn started(a: Side, before: State, after: State) -> u8
    ensures { result ≡ started_set a before after }
{
    timer_set(a, after) & !timer_set(a, before)
}
