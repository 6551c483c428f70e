// What an event does at one place: H.450.5, 7.3 and 7.5. The outcome says only what changes.

ghost use Rattle.std.specs.Prelude.{◌≡◌};
ghost use Rattle.events.specs.Turn.{stage_by, stage_of, state_at, connection_at, held_record, greeting, up, picked_up, is_outstanding, if_outstanding, resulted, failed, to_picker, released, answered, runs, timed_out, expired, turn_on, turn};

use crate::Event;
use crate::message::{ErrorValue, Message};
use crate::refusal::Refusal;
use crate::rule::{Rule, Signal};
use crate::timer::Timer;
use table::{Call, Connection, Invoke, Record, Side, State, timers};

// How far the pickup of a held call is. It goes without the count, and a record without its side or its event: most of
// what takes the one asks nothing of the other, and a struct would be no plainer.
#[derive(Clone, Copy)]
pub enum Stage {
    // State 1 or 2.
    Waits,
    // State 3: a phone of ours asked for it.
    AskedHere,
    // State 4: asked for over this connection.
    AskedFrom(Connection),
    // State 5: handed over.
    Taken,
}

#[derive(Clone, Copy)]
pub enum Outcome {
    // The stay ends. The first message is sent before the second.
    Freed(Option<Message>, Option<Message>),
    // The stay goes on at this stage, with this count.
    Becomes(Stage, Invoke, Option<Message>),
}

fn stage_by(s: State, c: Connection) -> Stage
    ensures { result ≡ stage_by s c }
{
    match s {
        State::Free | State::ParkWaiting | State::LineWaiting => Stage::Waits,
        State::Requested => Stage::AskedHere,
        State::RemoteRequested => Stage::AskedFrom(c),
        State::HandedOver => Stage::Taken,
    }
}

fn stage_of(r: Record) -> Stage
    ensures { result ≡ stage_of r }
{
    stage_by(r.state, r.connection)
}

fn state_at(a: Side, s: Stage) -> State
    ensures { result ≡ state_at a s }
{
    match s {
        Stage::Waits => a.waiting(),
        Stage::AskedHere => State::Requested,
        Stage::AskedFrom(_) => State::RemoteRequested,
        Stage::Taken => State::HandedOver,
    }
}

fn connection_at(s: Stage) -> Connection
    ensures { result ≡ connection_at s }
{
    match s {
        Stage::AskedFrom(c) => c,
        _ => Connection(0),
    }
}

// The record of a call at a stage.
pub(crate) fn held_record(a: Side, s: Stage, call: Call, n: Invoke) -> Record
    ensures { result ≡ held_record a s call n }
{
    Record {
        state: state_at(a, s),
        call,
        connection: connection_at(s),
        count: n,
    }
}

fn greet(a: Side) -> Option<Message>
    ensures { result ≡ greeting a }
{
    match a {
        Side::Position => Some(Message::ParkResult),
        Side::Line => None,
    }
}

fn up_one(n: Invoke) -> Invoke
    ensures { result ≡ up n }
{
    Invoke(n.0.wrapping_add(1))
}

// Kinds 3 and 4.
fn pick_up(s: Stage, to: Stage, n: Invoke, m: Message) -> Result<Outcome, Refusal>
    ensures { result ≡ picked_up s to n (Some m) }
{
    match s {
        Stage::Waits => Ok(Outcome::Becomes(to, n, Some(m))),
        Stage::AskedHere => Err(Refusal::PickupHere),
        Stage::AskedFrom(_) => Err(Refusal::PickupElsewhere),
        Stage::Taken => Err(Refusal::CallHandedOver),
    }
}

fn is_outstanding(r: Record, n: Invoke) -> bool
    ensures { result ≡ is_outstanding r n }
{
    n == r.count
}

fn if_outstanding(right: bool, u: Outcome) -> Result<Outcome, Refusal>
    ensures { result ≡ if_outstanding right u }
{
    if right {
        Ok(u)
    } else {
        Err(Refusal::NotOutstanding)
    }
}

// Kind 5.
fn on_result(s: Stage, right: bool, n: Invoke) -> Result<Outcome, Refusal>
    ensures { result ≡ resulted s right n }
{
    match s {
        Stage::AskedHere => if_outstanding(right, Outcome::Freed(None, None)),
        Stage::AskedFrom(c) => {
            let told = Message::PickResult(c);
            if_outstanding(right, Outcome::Becomes(Stage::Taken, n, Some(told)))
        }
        Stage::Waits | Stage::Taken => Err(Refusal::StateUnfit),
    }
}

// Kind 6.
fn on_error(s: Stage, right: bool, n: Invoke) -> Result<Outcome, Refusal>
    ensures { result ≡ failed s right n }
{
    match s {
        Stage::AskedHere => {
            if_outstanding(right, Outcome::Freed(Some(Message::ReleaseComplete), None))
        }
        Stage::AskedFrom(c) => {
            let told = Message::PickError(c, ErrorValue::Undefined);
            if_outstanding(right, Outcome::Becomes(Stage::Waits, n, Some(told)))
        }
        Stage::Waits | Stage::Taken => Err(Refusal::StateUnfit),
    }
}

// What the end of a stay means to a picker: one whose result is still out hears that none will come.
fn to_picker(s: Stage) -> Option<Message>
    ensures { result ≡ to_picker s }
{
    match s {
        Stage::AskedFrom(c) => Some(Message::PickError(c, ErrorValue::Undefined)),
        _ => None,
    }
}

// Kinds 7 and 8. The call is gone, whether there is an error inside or not, and whether that is up to date or not.
fn on_release(s: Stage) -> Outcome
    ensures { result ≡ released s }
{
    Outcome::Freed(to_picker(s), None)
}

// Kind 9.
fn on_answered(s: State) -> Result<Outcome, Refusal>
    ensures { result ≡ answered s }
{
    match s {
        State::LineWaiting => Ok(Outcome::Freed(None, None)),
        _ => Err(Refusal::StateUnfit),
    }
}

// T3 or T6 ran out.
fn on_time_out(s: Stage) -> Outcome
    ensures { result ≡ timed_out s }
{
    Outcome::Freed(Some(Message::ReleaseComplete), to_picker(s))
}

// Kind 10, of a timer by its number, where this set of timers runs.
fn on_expiry(set: u8, timer: u8, s: Stage, n: Invoke) -> Result<Outcome, Refusal>
    ensures { result ≡ expired (runs set timer) timer s n }
{
    match Timer::try_from(timer) {
        Ok(t) if t.is_in(set) => match t {
            Timer::T3 | Timer::T6 => Ok(on_time_out(s)),
            Timer::T9 => on_error(s, true, n),
        },
        _ => Err(Refusal::TimerNotRunning),
    }
}

// A signal on a held call.
fn turn_on(k: Signal, a: Side, r: Record, e: Event) -> Result<Outcome, Refusal>
    ensures { result ≡ turn_on k a r e }
{
    let s = stage_of(r);
    let n = r.count;
    let next = up_one(n);
    let c = e.connection;
    match k {
        Signal::LocalPickup => pick_up(s, Stage::AskedHere, next, Message::Connect(next)),
        Signal::PickRequest => pick_up(s, Stage::AskedFrom(c), next, Message::Facility(next)),
        Signal::PickupResult => on_result(s, is_outstanding(r, e.invoke), n),
        Signal::PickupError => on_error(s, is_outstanding(r, e.invoke), n),
        Signal::ErrorInRelease | Signal::Release => Ok(on_release(s)),
        Signal::Answered => on_answered(r.state),
        Signal::Expiry => on_expiry(timers::timer_set(a, r.state), e.timer, s, n),
    }
}

// What an event does at a place of this side with this record.
pub(crate) fn turn_of(k: Option<Rule>, a: Side, r: Record, e: Event) -> Result<Outcome, Refusal>
    ensures { result ≡ turn k a r e }
{
    match k.ok_or(Refusal::UnknownKind)? {
        Rule::Start(d) => Ok(Outcome::Becomes(Stage::Waits, Invoke(0), greet(d))),
        Rule::On(_) if r.state.is_free() => Err(Refusal::CallNotHeld),
        Rule::On(s) => turn_on(s, a, r, e),
    }
}
