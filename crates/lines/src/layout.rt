// How an event or an answer is laid out as a line: the kinds of the line's fields, and what stands in them. One reader and one writer of lines serve
// whatever has a layout.

ghost use Rattle.std.specs.Prelude.{◌≡◌, ℕ, List, refl};
ghost use Rattle.fields.specs.declared.Kind.{Kind};
ghost use Rattle.fields.specs.declared.Fields.{Fields};
ghost use Rattle.fields.specs.Round.{Ranged};
ghost use Rattle.lines.specs.EventLine.{longest_event, event_fields, event_in, fields_of_event};
ghost use Rattle.lines.specs.AnswerLine.{longest_answer, answer_fields, answer_in, fields_of_answer};

use events::message::Sent;
use events::{Answer, Event};
use fields::{Fields, Kind};
use table::{Connection, Invoke, Place};

// The ranges of numbers.
const OCTET: Kind = Kind::Number(255);

const WORD: Kind = Kind::Number(65535);

pub trait Layout: Copy {
    ghost LONGEST: { ℕ };

    ghost kinds: { List Kind };

    ghost laid: { Self → Fields };

    ghost taken: { Fields → Self };

    // The most octets that the line may have.
    const LONGEST: u8;

    fn kinds() -> &'static [Kind]
        ensures { result.now ≡ kinds };

    fn to_fields(self) -> Fields
        ensures { result ≡ laid self };

    fn of_fields(fields: Fields) -> Self
        requires { Ranged kinds fields }
        ensures { result ≡ taken fields };

    // what is laid out is taken back as it was
    ghost taken_back: { (x : Self) → taken (laid x) ≡ x };
}

// An event line: kind, call, place, choice, connection, invoke, timer.
impl Layout for Event {
    ghost LONGEST = { longest_event };

    ghost kinds = { event_fields };

    ghost laid = { fields_of_event };

    ghost taken = { event_in };

    ghost taken_back = { λ e. refl };

    const LONGEST: u8 = 62;

    fn kinds() -> &'static [Kind] {
        &[OCTET, Kind::Call, WORD, OCTET, WORD, WORD, OCTET]
    }

    fn to_fields(self) -> Fields {
        let call = self.call;
        Fields {
            values: [
                u16::from(self.kind),
                0,
                self.place.0,
                u16::from(self.choice),
                self.connection.0,
                self.invoke.0,
                u16::from(self.timer),
                0,
                0,
                0,
                0,
                0,
                0,
                0,
            ],
            call,
        }
    }

    fn of_fields(fields: Fields) -> Event {
        let Fields { values, call } = fields;
        Event {
            kind: values[0] as u8,
            call,
            place: Place(values[2]),
            choice: values[3] as u8,
            connection: Connection(values[4]),
            invoke: Invoke(values[5]),
            timer: values[6] as u8,
        }
    }
}

// An answer line: number, call, place, state; message, connection, invoke, error; started, stopped; and a second message.
impl Layout for Answer {
    ghost LONGEST = { longest_answer };

    ghost kinds = { answer_fields };

    ghost laid = { fields_of_answer };

    ghost taken = { answer_in };

    ghost taken_back = { λ a. refl };

    // the most octets that these fields can make
    const LONGEST: u8 = 92;

    fn kinds() -> &'static [Kind] {
        &[
            OCTET,
            Kind::Call,
            OCTET,
            OCTET,
            OCTET,
            WORD,
            WORD,
            OCTET,
            OCTET,
            OCTET,
            OCTET,
            WORD,
            WORD,
            OCTET,
        ]
    }

    fn to_fields(self) -> Fields {
        let call = self.call;
        Fields {
            values: [
                u16::from(self.number),
                0,
                self.place.0,
                u16::from(self.state),
                u16::from(self.first.message),
                self.first.connection.0,
                self.first.invoke.0,
                u16::from(self.first.error),
                u16::from(self.started),
                u16::from(self.stopped),
                u16::from(self.second.message),
                self.second.connection.0,
                self.second.invoke.0,
                u16::from(self.second.error),
            ],
            call,
        }
    }

    fn of_fields(fields: Fields) -> Answer {
        let Fields { values, call } = fields;
        Answer {
            number: values[0] as u8,
            call,
            place: Place(values[2]),
            state: values[3] as u8,
            first: Sent {
                message: values[4] as u8,
                connection: Connection(values[5]),
                invoke: Invoke(values[6]),
                error: values[7] as u8,
            },
            started: values[8] as u8,
            stopped: values[9] as u8,
            second: Sent {
                message: values[10] as u8,
                connection: Connection(values[11]),
                invoke: Invoke(values[12]),
                error: values[13] as u8,
            },
        }
    }
}
