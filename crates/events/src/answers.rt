// The answers: to an event that is done, and to one that is refused.

ghost use Rattle.std.specs.Prelude.{◌≡◌};
ghost use Rattle.events.specs.Answers.{accepted, saying, declined};

use crate::message::{Message, Sent};
use crate::refusal::Refusal;
use crate::{Answer, Event, rule};
use table::{Call, Place, Side, State, timers};

// The event at an index is done: the state there before and after it, the call of the stay, and the messages. (A struct of these would be filled once,
// in `act`, and taken apart here.)
pub(crate) fn accept(
    i: usize,
    before: State,
    after: State,
    call: Call,
    first: Option<Message>,
    second: Option<Message>,
) -> Answer
    ensures { result ≡ accepted i before after call first second }
{
    let a = Side::at(i);
    Answer {
        number: 0,
        call,
        place: Place::at(i),
        state: u8::from(after),
        first: Sent::from(first),
        started: timers::started(a, before, after),
        stopped: timers::started(a, after, before),
        second: Sent::from(second),
    }
}

fn say(number: u8, m: Option<Message>) -> Answer
    ensures { result ≡ saying number m }
{
    Answer {
        number,
        first: Sent::from(m),
        ..Answer::default()
    }
}

// The event is refused.
pub fn decline(e: Event, w: Refusal) -> Answer
    ensures { result ≡ declined e w }
{
    let k = rule::rule_of(e.kind);
    say(u8::from(w), w.message(k, e.connection))
}

// The answer with zeros everywhere but its number: to a line or an image that is refused. The number is that of an error of another crate (`BadLine`,
// `Unsound`), which this one does not know.
pub fn only_number(number: u8) -> Answer
    ensures { result ≡ saying number None }
{
    say(number, None)
}
