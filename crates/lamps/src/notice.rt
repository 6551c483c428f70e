// What an accepted event sends to the members: On at a park or an alert, Off once in the stay, and the timers that stop and start by it.

ghost use Rattle.std.specs.Prelude.{◌≡◌, ◌<◌, ◌≤◌};
ghost use Rattle.table.specs.Places.{place_count, index_of};
ghost use Rattle.lamps.specs.Notice.{starts_stay, is_over, had_off, asks_for, unlit, new_lamp, asked};
ghost use Rattle.lamps.specs.Served.{lit_at};

use crate::members::{Indication, Lamp, Lamps, Timer};
use events::{Answer, Event};
use table::{Call, Invoke, Place, State, Table};

// What goes out to the members where they are asked: one request, the same to each, and the timers that stop and start, of members 1 to 8 (two arrays, as a
// host goes through them: D-48).
#[derive(Clone, Copy)]
pub struct Notice {
    pub asks: Indication,
    pub call: Call,
    pub place: Place,
    pub invoke: Invoke,
    pub stopped: [Option<Timer>; Lamps::MEMBERS],
    pub started: [Option<Timer>; Lamps::MEMBERS],
}

#[derive(Clone, Copy)]
pub struct Lit {
    pub lamps: Lamps,
    pub notice: Option<Notice>,
}

// A park or an alert, by the paper's numbers of the kinds, which an event has (`Event`). The rule of a kind would be no plainer: it is the own of `events`,
// and two numbers are asked for.
fn starts_stay(kind: u8) -> bool
    ensures { result ≡ starts_stay kind }
{
    kind == 1 || kind == 2
}

// After the event the place is free, or the call is handed over. An answer has the state as a number (`Answer`, events).
fn is_over(state: u8) -> bool
    ensures { result ≡ is_over state }
{
    state == u8::from(State::Free) || state == u8::from(State::HandedOver)
}

// The call has had its Off in this stay: it is handed over.
fn had_off(s: State) -> bool
    ensures { result ≡ had_off s }
{
    s == State::HandedOver
}

// What an accepted event of this kind asks of each member, by the state of its place before and after it.
fn asks_for(kind: u8, before: State, after: u8) -> Option<Indication>
    ensures { result ≡ asks_for kind before after }
{
    if starts_stay(kind) {
        Some(Indication::On)
    } else if !had_off(before) && is_over(after) {
        Some(Indication::Off)
    } else {
        None
    }
}

// Nothing is sent.
pub(crate) fn leave(l: Lamps) -> Lit
    ensures { result ≡ unlit l }
{
    Lit {
        lamps: l,
        notice: None,
    }
}

// A request that is pending to each member.
fn new_lamp(n: Indication, call: Call, invoke: Invoke) -> Lamp
    ensures { result ≡ new_lamp n call invoke }
{
    Lamp {
        indication: n,
        call,
        invoke,
        pending: [true; Lamps::MEMBERS],
    }
}

// The same request to each member, with the next number, in place of what was pending here.
fn ask_each(l: Lamps, i: usize, a: Answer, n: Indication) -> Lit
    requires { i < place_count }
    ensures { result ≡ asked l i a n }
{
    let was = l.places[i];
    let call = a.call;
    let place = a.place;
    let invoke = Invoke(l.last.0.wrapping_add(1));
    let now = new_lamp(n, call, invoke);
    let stopped = was.timers();
    let started = now.timers();
    let mut lamps = l;
    lamps.places[i] = now;
    lamps.last = invoke;
    Lit {
        lamps,
        notice: Some(Notice {
            asks: n,
            call,
            place,
            invoke,
            stopped,
            started,
        }),
    }
}

// What the answer to an accepted event sends, where this is the table before it.
pub(crate) fn notify(l: Lamps, t: &Table, e: Event, a: Answer) -> Lit
    requires { (1 ≤ a.place.0) × (a.place.0 ≤ place_count) }
    ensures { result ≡ lit_at l t.now e a (index_of a.place.0) }
{
    let i = (a.place.0 - 1) as usize;
    match asks_for(e.kind, t.places[i].state, a.state) {
        None => leave(l),
        Some(n) => ask_each(l, i, a, n),
    }
}
