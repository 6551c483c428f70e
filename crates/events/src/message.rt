// The messages that an answer asks the host to send, with what each carries.

ghost use Rattle.std.specs.Prelude.{◌≡◌};
ghost use Rattle.events.specs.Message.{error_number, sent};

use table::{Connection, Invoke};

#[derive(Clone, Copy)]
pub enum ErrorValue {
    Undefined = 1,
    CallAlreadyPickedUp = 2,
}

#[derive(Clone, Copy)]
pub enum Message {
    // PROGRESS with cpSetup Return Result
    ParkResult,
    // cpSetup Return Error
    ParkError,
    // CONNECT with pickup Invoke
    Connect(Invoke),
    // FACILITY with pickup Invoke
    Facility(Invoke),
    // pickrequ Return Result, to the picker
    PickResult(Connection),
    // pickrequ Return Error, to the picker
    PickError(Connection, ErrorValue),
    // RELEASE COMPLETE on the held call
    ReleaseComplete,
}

// A message as the four fields of an answer that it fills; all are zero where there is none.
// They are numbers as those of an answer are (`Answer`).
#[derive(Clone, Copy, Default)]
pub struct Sent {
    pub message: u8,
    pub connection: Connection,
    pub invoke: Invoke,
    pub error: u8,
}

// The house number.
impl From<ErrorValue> for u8 {
    ghost from_gives = { λ x n. n ≡ error_number x };

    fn from(x: ErrorValue) -> u8 {
        x as u8
    }
}

// The fields that a message fills, with the paper's number.
impl From<Option<Message>> for Sent {
    ghost from_gives = { λ m s. s ≡ sent m };

    fn from(m: Option<Message>) -> Sent {
        let none = Sent::default();
        match m {
            None => none,
            Some(Message::ParkResult) => Sent { message: 1, ..none },
            Some(Message::ParkError) => Sent {
                message: 2,
                error: u8::from(ErrorValue::Undefined),
                ..none
            },
            Some(Message::Connect(n)) => Sent {
                message: 3,
                invoke: n,
                ..none
            },
            Some(Message::Facility(n)) => Sent {
                message: 4,
                invoke: n,
                ..none
            },
            Some(Message::PickResult(c)) => Sent {
                message: 5,
                connection: c,
                ..none
            },
            Some(Message::PickError(c, x)) => Sent {
                message: 6,
                connection: c,
                error: u8::from(x),
                ..none
            },
            Some(Message::ReleaseComplete) => Sent { message: 7, ..none },
        }
    }
}
