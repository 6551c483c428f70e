// The parking endpoint (clause 7.1) as it runs: `parking_of` of `clauses`. Its `step_at` and that of `parked` stay two: each runs a table of its own.

ghost use Rattle.std.specs.Prelude.{◌≡◌};
ghost use Rattle.clauses.specs.Parking.{parking_of};

use crate::{begin, end, stay, tell, to};
use clauses::parking::{Event, State};
use clauses::{ErrorValue, Message, Report, Step, Timer};

// One event at the parking endpoint.
pub fn step_at(state: State, event: Event) -> Step<State>
    ensures { result ≡ parking_of state event }
{
    match (state, event) {
        (State::CpIdle, Event::ParkRequest(true)) => to(
            State::CpRequested,
            begin(Message::RequestInvoke, None, Timer::T1),
        ),
        (State::CpIdle, Event::ParkRequest(false)) => to(State::CpIdle, tell(Report::Rejected)),
        (State::CpRequested, Event::Result) => to(
            State::CpIdle,
            end(None, Some(Report::Succeeded), Timer::T1),
        ),
        (State::CpRequested, Event::Error(failure)) => to(
            State::CpIdle,
            end(None, Some(Report::Failed(failure.value())), Timer::T1),
        ),
        (State::CpRequested, Event::ExpiryT1) => to(
            State::CpIdle,
            end(None, Some(Report::Failed(ErrorValue::UNDEFINED)), Timer::T1),
        ),
        _ => stay(state),
    }
}
