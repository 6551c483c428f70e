// What an event looks for in the table.

ghost use Rattle.std.specs.Prelude.{◌≡◌};
ghost use Rattle.events.specs.Sought.{sought_pickup, sought_on, sought};

use crate::refusal::Refusal;
use crate::rule::{Rule, Signal};
use crate::timer::Timer;
use crate::{Event, rule};
use table::Side;

#[derive(Clone, Copy)]
pub enum Sought {
    // The place that holds the event's call.
    Held,
    // The next waiting call of a side.
    Waiting(Side),
    // A free place of a side for a call that is not held yet.
    Room(Side),
}

fn by_choice(choice: u8) -> Result<Sought, Refusal>
    ensures { result ≡ sought_pickup choice }
{
    match choice {
        0 => Ok(Sought::Held),
        1 => Ok(Sought::Waiting(Side::Position)),
        2 => Ok(Sought::Waiting(Side::Line)),
        _ => Err(Refusal::ChoiceOrTimer),
    }
}

fn by_signal(s: Signal, e: Event) -> Result<Sought, Refusal>
    ensures { result ≡ sought_on s e }
{
    match s {
        Signal::LocalPickup | Signal::PickRequest => by_choice(e.choice),
        Signal::Expiry => Timer::try_from(e.timer).map(|_| Sought::Held),
        _ => Ok(Sought::Held),
    }
}

// What an event looks for, or why it is refused whatever the table is.
pub fn sought_of(e: Event) -> Result<Sought, Refusal>
    ensures { result ≡ sought e }
{
    match rule::rule_of(e.kind).ok_or(Refusal::UnknownKind)? {
        Rule::Start(d) => Ok(Sought::Room(d)),
        Rule::On(s) => by_signal(s, e),
    }
}
