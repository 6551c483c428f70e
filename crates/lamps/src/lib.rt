// Lamps for the pickup group: the served endpoint of H.450.5, 7.6, for eight members, beside the call table (document 02, Q-5). An event goes to
// the table as it would without lamps, and what the table answers says what is sent to the members (`notice`). What a member
// answers, or that it does not, is a reply (`reply`), which never reaches the table. What is kept is in `members`.
#![tactic(auto)]

pub mod members;
pub mod notice;
pub mod reply;

ghost use Rattle.std.specs.Prelude.{◌≡◌};
ghost use Rattle.lamps.specs.Served.{start, told_of};

use events::{Answer, Event};
use members::Lamps;
use notice::Notice;
use table::Table;

// The served endpoint: the calls that it holds, and the lamps of the members.
#[derive(Clone, Copy)]
pub struct Endpoint {
    pub table: Table,
    pub lamps: Lamps,
}

// What an event came to: the endpoint after it, the table's answer, and what is sent to the members, where they are asked.
#[derive(Clone, Copy)]
pub struct Told {
    pub endpoint: Endpoint,
    pub answer: Answer,
    pub notice: Option<Notice>,
}

impl Endpoint {
    // No call is held, and no request was ever sent.
    pub fn empty() -> Endpoint
        ensures { result ≡ start }
    {
        Endpoint {
            table: Table::empty(),
            lamps: Lamps::empty(),
        }
    }
}

// One event at table and lamps together. The table's step is `lent::single_step`, which knows of no lamps.
pub fn tell(s: Endpoint, e: Event) -> Told
    ensures { result ≡ told_of s e }
{
    let done = lent::single_step(s.table, e);
    let answer = done.answer;
    let lit = if answer.number == 0 {
        notice::notify(s.lamps, &s.table, e, answer)
    } else {
        notice::leave(s.lamps)
    };
    Told {
        endpoint: Endpoint {
            table: done.table,
            lamps: lit.lamps,
        },
        answer,
        notice: lit.notice,
    }
}
