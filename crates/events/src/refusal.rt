// Why an event is refused, and who is told.

ghost use Rattle.std.specs.Prelude.{◌≡◌};
ghost use Rattle.events.specs.Refusal.{refusal_number, park_refused, pick_request_refused, refusal_message};

use crate::message::{ErrorValue, Message};
use crate::rule::{Rule, Signal};
use table::{Connection, Side};

#[derive(Clone, Copy)]
pub enum Refusal {
    UnknownKind = 1,
    ChoiceOrTimer = 2,
    CallHeld = 3,
    SideFull = 4,
    CallNotHeld = 5,
    NothingWaits = 6,
    PickupHere = 7,
    PickupElsewhere = 11,
    CallHandedOver = 12,
    StateUnfit = 8,
    NotOutstanding = 9,
    TimerNotRunning = 10,
    TableUnsound = 25,
}

// The paper's number.
impl From<Refusal> for u8 {
    ghost from_gives = { λ w n. n ≡ refusal_number w };

    fn from(w: Refusal) -> u8 {
        w as u8
    }
}

impl Refusal {
    fn of_park(self) -> Option<Message>
        ensures { result ≡ park_refused self }
    {
        match self {
            Refusal::CallHeld | Refusal::SideFull => Some(Message::ParkError),
            _ => None,
        }
    }

    fn of_pick_request(self, c: Connection) -> Option<Message>
        ensures { result ≡ pick_request_refused self c }
    {
        match self {
            Refusal::ChoiceOrTimer | Refusal::CallNotHeld | Refusal::NothingWaits => {
                Some(Message::PickError(c, ErrorValue::Undefined))
            }
            Refusal::PickupHere | Refusal::PickupElsewhere | Refusal::CallHandedOver => {
                Some(Message::PickError(c, ErrorValue::CallAlreadyPickedUp))
            }
            _ => None,
        }
    }

    // What goes out with the refusal: a park's error, or a pickrequ's on the connection that it came on.
    pub(crate) fn message(self, k: Option<Rule>, c: Connection) -> Option<Message>
        ensures { result ≡ refusal_message k self c }
    {
        match k {
            Some(Rule::Start(Side::Position)) => self.of_park(),
            Some(Rule::On(Signal::PickRequest)) => self.of_pick_request(c),
            _ => None,
        }
    }
}
