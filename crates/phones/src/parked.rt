// The parked endpoint (clause 7.2) as it runs: `parked_of` of `clauses`.

ghost use Rattle.std.specs.Prelude.{◌≡◌};
ghost use Rattle.clauses.specs.Answer.{to, ended};
ghost use Rattle.clauses.specs.Parked.{parked_of};

use crate::{begin, end, reply, stay, to};
use clauses::parked::{Event, State};
use clauses::{ErrorValue, Message, Report, Step, Timer};

// Parking has failed: the parking endpoint and the user are told the same value.
fn end_park(value: ErrorValue) -> Step<State>
    ensures { result ≡ to State.CpIdle (ended (Some (Message.RequestError value)) (Some (Report.Failed value)) Timer.T2) }
{
    to(
        State::CpIdle,
        end(
            Some(Message::RequestError(value)),
            Some(Report::Failed(value)),
            Timer::T2,
        ),
    )
}

// The pickup has failed.
fn end_pickup(message: Option<Message>, value: ErrorValue) -> Step<State>
    ensures { result ≡ to State.CpIdle (ended message (Some (Report.Failed value)) Timer.T10) }
{
    to(
        State::CpIdle,
        end(message, Some(Report::Failed(value)), Timer::T10),
    )
}

// One event at the parked endpoint.
pub fn step_at(state: State, event: Event) -> Step<State>
    ensures { result ≡ parked_of state event }
{
    match (state, event) {
        (State::CpIdle, Event::Request(Ok(()))) => to(
            State::CpSetupRequ,
            begin(Message::SetupInvoke, None, Timer::T2),
        ),
        (State::CpIdle, Event::Request(Err(x))) => {
            to(State::CpIdle, reply(Some(Message::RequestError(x))))
        }
        (State::CpIdle, Event::HeldCleared) => to(State::CpIdle, reply(None)),
        (State::CpIdle, Event::LocalPickup(Ok(()))) => {
            to(State::CpIdle, reply(Some(Message::PickupResult)))
        }
        (State::CpIdle, Event::LocalPickup(Err(x))) => {
            to(State::CpIdle, reply(Some(Message::PickupErrorInRelease(x))))
        }
        (State::CpIdle, Event::RemotePickup(Ok(()))) => to(
            State::CpickupSetupInit,
            begin(
                Message::PickupResult,
                Some(Message::ExecuteInvoke),
                Timer::T10,
            ),
        ),
        (State::CpIdle, Event::RemotePickup(Err(x))) => {
            to(State::CpIdle, reply(Some(Message::PickupError(x))))
        }
        (State::CpSetupRequ, Event::SetupResult) => to(
            State::CpIdle,
            end(
                Some(Message::RequestResult),
                Some(Report::Succeeded),
                Timer::T2,
            ),
        ),
        (State::CpSetupRequ, Event::SetupError(failure)) => end_park(failure.value()),
        (State::CpSetupRequ, Event::PrimaryCleared) => {
            to(
                State::CpIdle,
                end(Some(Message::ReleaseHeld), None, Timer::T2),
            )
        }
        (State::CpSetupRequ, Event::HeldCleared | Event::ExpiryT2) => {
            end_park(ErrorValue::UNDEFINED)
        }
        (State::CpickupSetupInit, Event::ExecuteResult) => to(
            State::CpIdle,
            end(
                Some(Message::ReleaseHeld),
                Some(Report::Succeeded),
                Timer::T10,
            ),
        ),
        (State::CpickupSetupInit, Event::ExecuteError(failure)) => {
            end_pickup(Some(Message::ReleasePicker), failure.value())
        }
        (State::CpickupSetupInit, Event::ExecuteErrorInRelease(failure)) => {
            end_pickup(None, failure.value())
        }
        (State::CpickupSetupInit, Event::ExpiryT10) => {
            end_pickup(Some(Message::ReleasePicker), ErrorValue::UNDEFINED)
        }
        _ => stay(state),
    }
}
