// What the clauses of H.450.5 have a desk phone do while a call is parked: the events and states of the parking endpoint (`parking`, clause 7.1) and
// of the parked endpoint (`parked`, clause 7.2), and here what the two share. In specs/ each has its clause table, and what is promised of both; the
// crate `phones` runs them.
#![tactic(auto)]

pub mod parked;
pub mod parking;

ghost use Rattle.std.specs.Prelude.{◌≡◌};
ghost use Rattle.clauses.specs.Answer.{wire_error, value_of, timer_number, no_step_number};

use std::fmt;

// An error as it stands on the wire. Clause 11 has 2000 for callPickupIdInvalid, 2001 for callAlreadyPickedUp, 2002 for undefined; every other value
// is handed on as it comes.
#[derive(Clone, Copy, PartialEq, Eq, Debug)]
pub struct ErrorValue(pub u16);

impl ErrorValue {
    pub const CALL_ALREADY_PICKED_UP: ErrorValue = ErrorValue(2001);

    pub const UNDEFINED: ErrorValue = ErrorValue(2002);
}

// How an operation failed: a Return Error has a value, a Reject has none. It is no Option, since a Reject is an APDU that came, and not the want of
// one.
#[derive(Clone, Copy, PartialEq, Eq, Debug)]
pub enum Failure {
    ReturnError(ErrorValue),
    Reject,
}

// Whether the endpoint takes part in what it is asked for, and the error value if it does not.
pub type Decision = Result<(), ErrorValue>;

// A timer of clause 10.4.
#[derive(Clone, Copy, PartialEq, Eq, Debug)]
pub enum Timer {
    T1 = 1,
    T2 = 2,
    T10 = 10,
}

// What an endpoint sends. The held call is the parked one, to the parked-to endpoint.
#[derive(Clone, Copy, PartialEq, Eq, Debug)]
pub enum Message {
    // FACILITY with cpRequest Invoke, on the primary call
    RequestInvoke,
    // RELEASE COMPLETE with cpRequest Return Result, on the primary call
    RequestResult,
    // FACILITY with cpRequest Return Error, on the primary call
    RequestError(ErrorValue),
    // SETUP with cpSetup Invoke, to the parked-to endpoint
    SetupInvoke,
    // FACILITY with pickup Return Result, on the held call
    PickupResult,
    // FACILITY with pickup Return Error, on the held call
    PickupError(ErrorValue),
    // RELEASE COMPLETE with pickup Return Error, on the held call
    PickupErrorInRelease(ErrorValue),
    // SETUP with pickExe Invoke, to the picking-up endpoint
    ExecuteInvoke,
    // RELEASE COMPLETE on the held call
    ReleaseHeld,
    // RELEASE COMPLETE on the call to the picking-up endpoint
    ReleasePicker,
}

// What the local user is told.
#[derive(Clone, Copy, PartialEq, Eq, Debug)]
pub enum Report {
    // the endpoint itself turned the user's request down: no error came
    Rejected,
    Succeeded,
    Failed(ErrorValue),
}

// What a step has the host do. By default it is nothing.
#[derive(Clone, Copy, PartialEq, Eq, Debug, Default)]
pub struct Answer {
    // the messages, in the order in which they are sent
    pub first: Option<Message>,
    pub second: Option<Message>,
    pub report: Option<Report>,
    pub started: Option<Timer>,
    pub stopped: Option<Timer>,
}

// The refusal 33: the clause names no step for the event in the state.
#[derive(Clone, Copy, PartialEq, Eq, Debug)]
pub struct NoStep;

// The state after an event, and the answer. Where there is none the state is the one before.
#[derive(Clone, Copy, PartialEq, Eq, Debug)]
pub struct Step<S> {
    pub state: S,
    pub answer: Result<Answer, NoStep>,
}

// The wire's value of a house number of the table's errors (document 01).
pub fn wire_error(number: u8) -> Option<ErrorValue>
    ensures { result ≡ wire_error number }
{
    match number {
        1 => Some(ErrorValue::UNDEFINED),
        2 => Some(ErrorValue::CALL_ALREADY_PICKED_UP),
        _ => None,
    }
}

impl Failure {
    // The value that is handed on, and that the user is told.
    pub fn value(self) -> ErrorValue
        ensures { result ≡ value_of self }
    {
        match self {
            Failure::ReturnError(x) => x,
            Failure::Reject => ErrorValue::UNDEFINED,
        }
    }
}

// Its number in clause 10.4.
impl From<Timer> for u8 {
    ghost from_gives = { λ t n. n ≡ timer_number t };

    fn from(timer: Timer) -> u8 {
        timer as u8
    }
}

impl From<NoStep> for u8 {
    ghost from_gives = { λ _ n. n ≡ no_step_number };

    fn from(_refused: NoStep) -> u8 {
        33
    }
}
