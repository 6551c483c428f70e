// The parking endpoint (clause 7.1): its user parks a call at another endpoint, and T1 runs until it is known how that came out.

use crate::Failure;

// The states of clause 10.3.1.
#[derive(Clone, Copy, PartialEq, Eq, Debug)]
pub enum State {
    CpIdle,
    CpRequested,
}

#[derive(Clone, Copy, PartialEq, Eq, Debug)]
pub enum Event {
    // the user asks to park; does the endpoint accept that
    ParkRequest(bool),
    // cpRequest Return Result; the clause has it come in RELEASE COMPLETE
    Result,
    // cpRequest Return Error or Reject; the clause has it come in FACILITY
    Error(Failure),
    // the primary call is cleared, with no cpRequest Return Result, Return Error or Reject
    PrimaryCleared,
    ExpiryT1,
}
