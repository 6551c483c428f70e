// machine: the whole machine of a place, printed as a table parted by tabs with one header line. For each side, each state of that side
// and each event there is a row with what the step does. No rule stands here: a row is what `single_step` makes of a table that has one
// call, at the place (none in state 0), and of an event that names that call.
#![tactic(auto)]

use events::Event;
use std::{fmt, io};
use table::{Call, Connection, Invoke, Place, Record, Side, State, Table};

const CALL: Call = [1; Table::CALL_OCTETS];

const PICKER: u16 = 900;

const COUNT: u16 = 7;

// A reply to the pickup Invoke, by its number or by a wrong one.
#[derive(Clone, Copy)]
enum Reply {
    Right,
    Wrong,
}

impl Reply {
    fn invoke(self) -> Invoke {
        match self {
            Reply::Right => Invoke(COUNT),
            Reply::Wrong => Invoke(COUNT + 1),
        }
    }
}

impl fmt::Display for Reply {
    fn fmt<W: fmt::Write>(&self, f: &mut fmt::Formatter<W>) -> fmt::Result {
        f.write_str(match self {
            Reply::Right => "right",
            Reply::Wrong => "wrong",
        })
    }
}

// What stands in a column that may be empty.
#[derive(Clone, Copy)]
struct Column<T>(Option<T>);

impl<T: fmt::Display> fmt::Display for Column<T> {
    fn fmt<W: fmt::Write>(&self, f: &mut fmt::Formatter<W>) -> fmt::Result {
        match &self.0 {
            Some(x) => write!(f, "{x}"),
            None => f.write_str("-"),
        }
    }
}

// What a row tries: an event at a place of this side in this state. The side's first place stands for all of that side. Reply and timer are there
// where the kind names them.
#[derive(Clone, Copy)]
struct Row {
    side: Side,
    state: State,
    // a number, as an event has it
    kind: u8,
    reply: Option<Reply>,
    timer: Option<u8>,
}

impl fmt::Display for Row {
    fn fmt<W: fmt::Write>(&self, f: &mut fmt::Formatter<W>) -> fmt::Result {
        let side = match self.side {
            Side::Position => "position",
            Side::Line => "line",
        };
        let state = u8::from(self.state);
        let reply = Column(self.reply);
        let timer = Column(self.timer);
        write!(f, "{side}\t{state}\t{}\t{reply}\t{timer}", self.kind)
    }
}

impl Row {
    // The only call of its side has rank 1.
    fn table(self) -> Table {
        let i = self.side.first();
        let mut t = Table::empty();
        t.places[i] = record_in(self.state);
        t.ranks[i] = if self.state.is_free() { 0 } else { 1 };
        t
    }

    // Fields that its kind does not name are filled all the same, since they are ignored. Choice 0: a pickup asks by name.
    fn event(self) -> Event {
        Event {
            kind: self.kind,
            call: CALL,
            place: Place::at(self.side.first()),
            choice: 0,
            connection: Connection(PICKER),
            invoke: self.reply.map_or(Invoke(0), Reply::invoke),
            timer: self.timer.unwrap_or(0),
        }
    }

    // The row is left out where the event is done at another place: a park that proposes a line starts at a position, and an alert that
    // proposes a position at a line, so those are of the other side's machine.
    fn put(self, rt: &impl Print) -> io::Result<()> {
        let e = self.event();
        let s = lent::single_step(self.table(), e);
        let a = s.answer;
        if a.number == 0 && a.place != e.place {
            return Ok(());
        }
        // A refusal's answer does not say what state the place still has, so it is read from the table.
        let after = u8::from(s.table.places[self.side.first()].state);
        print!(rt; "{self}\t{}\t{after}\t", a.number)?;
        print!(rt;
            "{}\t{}\t{}\t{}\t",
            a.first.message, a.first.error, a.started, a.stopped
        )?;
        println!(rt; "{}\t{}", a.second.message, a.second.error)
    }

    // The rows of a kind: one for each reply or timer that it can name.
    fn put_each(self, rt: &impl Print) -> io::Result<()> {
        match self.kind {
            5..=7 => {
                for reply in [Reply::Right, Reply::Wrong] {
                    let reply = Some(reply);
                    Row { reply, ..self }.put(rt)?;
                }
                Ok(())
            }
            10 => {
                for timer in [3, 6, 9] {
                    let timer = Some(timer);
                    Row { timer, ..self }.put(rt)?;
                }
                Ok(())
            }
            _ => self.put(rt),
        }
    }
}

// A sound record has a picker in state 4 only.
fn picker_in(state: State) -> Connection {
    match state {
        State::RemoteRequested => Connection(PICKER),
        _ => Connection(0),
    }
}

fn record_in(state: State) -> Record {
    if state.is_free() {
        return Record::free();
    }
    Record {
        state,
        call: CALL,
        connection: picker_in(state),
        count: Invoke(COUNT),
    }
}

fn put_machine(rt: &impl Print, side: Side) -> io::Result<()> {
    for state in [
        State::Free,
        side.waiting(),
        State::Requested,
        State::RemoteRequested,
        State::HandedOver,
    ] {
        for kind in 1..=10 {
            let (reply, timer) = (None, None);
            Row {
                side,
                state,
                kind,
                reply,
                timer,
            }
            .put_each(rt)?;
        }
    }
    Ok(())
}

fn main(rt: HostRuntime) -> io::Result<()> {
    println!(&rt;
        "side\tstate\tkind\tinvoke\ttimer\tnumber\tstate after\tmessage\terror\tstarted\tstopped\tsecond message\tsecond error"
    )?;
    for side in [Side::Position, Side::Line] {
        put_machine(&rt, side)?;
    }
    Ok(())
}
