// The parked endpoint (clause 7.2): another endpoint has it park its call, and T2 runs until it is known how that came out. When the parked call is
// picked up from elsewhere it sets up a new call to the picking-up endpoint, and T10 runs until that is answered.

use crate::{Decision, Failure};

// The states of clause 10.3.2.
#[derive(Clone, Copy, PartialEq, Eq, Debug)]
pub enum State {
    CpIdle,
    CpSetupRequ,
    CpickupSetupInit,
}

#[derive(Clone, Copy, PartialEq, Eq, Debug)]
pub enum Event {
    // cpRequest Invoke, on the primary call
    Request(Decision),
    // cpSetup Return Result, in PROGRESS
    SetupResult,
    // cpSetup Return Error or Reject
    SetupError(Failure),
    // the primary call is cleared
    PrimaryCleared,
    // the parked call is cleared, with no cpSetup Return Error or Reject
    HeldCleared,
    // pickup Invoke in CONNECT: the picking-up user is at the parked-to endpoint
    LocalPickup(Decision),
    // pickup Invoke in FACILITY: the picking-up user is elsewhere
    RemotePickup(Decision),
    // pickExe Return Result, in CONNECT
    ExecuteResult,
    // pickExe Return Error or Reject, not in RELEASE COMPLETE
    ExecuteError(Failure),
    // pickExe Return Error or Reject, in RELEASE COMPLETE
    ExecuteErrorInRelease(Failure),
    // the call to the picking-up endpoint is cleared, with no APDU
    PickerCleared,
    // CONNECT with no APDU, on the held call or on that to the picking-up endpoint
    PlainConnect,
    ExpiryT2,
    ExpiryT10,
}
