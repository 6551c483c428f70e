// Events and answers, and what an event does at one place. The kind names a rule (`rule`), the rule says what is looked for in the table
// (`sought`). At the record of the place that is found something happens (`turn`), and the event is answered (`answers`). What each
// of these is to do is defined in specs/, from document 01's "Events" and "Refusal numbers". Nothing here knows of a whole table.
#![tactic(auto)]

pub mod answers;
pub mod message;
pub mod refusal;
pub mod rule;
pub mod sought;
mod timer;
pub mod turn;

ghost use Rattle.std.specs.Prelude.{◌≡◌};
ghost use Rattle.events.specs.Act.{stay_call, acted};

use message::Sent;
use rule::Rule;
use table::{Call, Connection, Invoke, Place, Record, Side};
use turn::Outcome;

// An event. Fields that its kind does not name are ignored. Kind, choice and timer are numbers, and no enums: a line holds any octet there, and is
// written back octet for octet (`event_written_back`, lines).
#[derive(Clone, Copy, Default)]
pub struct Event {
    pub kind: u8,
    pub call: Call,
    pub place: Place,
    pub choice: u8,
    pub connection: Connection,
    pub invoke: Invoke,
    pub timer: u8,
}

// The fourteen fields of an answer line, of which each message fills four. The first message is sent before the second. Number, state and the sets of
// timers are numbers for the reason above (`answer_written_back`, lines).
#[derive(Clone, Copy, Default)]
pub struct Answer {
    pub number: u8,
    pub call: Call,
    pub place: Place,
    pub state: u8,
    pub first: Sent,
    pub started: u8,
    pub stopped: u8,
    pub second: Sent,
}

// What an event leaves at its place, and its answer.
#[derive(Clone, Copy)]
pub struct Acted {
    pub after: Record,
    pub answer: Answer,
}

// The call of the stay: a park or an alert brings it, and any other event finds it.
fn stay_call(k: Option<Rule>, e: Event, r: Record) -> Call
    ensures { result ≡ stay_call k e r }
{
    match k {
        Some(Rule::Start(_)) => e.call,
        _ => r.call,
    }
}

// The event at the index that it is for, where this record stands. A refusal leaves the record.
pub fn act(e: Event, i: usize, r: Record) -> Acted
    ensures { result ≡ acted e i r }
{
    let k = rule::rule_of(e.kind);
    let a = Side::at(i);
    let call = stay_call(k, e, r);
    let (after, first, second) = match turn::turn_of(k, a, r, e) {
        Ok(Outcome::Freed(first, second)) => (Record::free(), first, second),
        Ok(Outcome::Becomes(s, n, m)) => (turn::held_record(a, s, call, n), m, None),
        Err(w) => {
            return Acted {
                after: r,
                answer: answers::decline(e, w),
            };
        }
    };
    Acted {
        after,
        answer: answers::accept(i, r.state, after.state, call, first, second),
    }
}
