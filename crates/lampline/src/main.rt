// lampline: the served endpoint on lines, for tests. The requests name no line for the lamps; those here are the program's own. It starts with the empty
// table and no request ever sent, and reads standard input line by line. The first octet of a line says what the line is:
//
//   r  a reply. The rest is written as an event line: kind 1 for On and any other for Off, the call, the choice for the member, the invoke for the number.
//      Printed is `reply`, the number of the reply's answer, the place, and the timer that stops.
//   g  a question. The rest is written as an event line: the place, and the choice for the member. Printed is `gp`, the state and its timer.
//   n  a state made for a test. The rest is written as an event line: the invoke is from now on the number that was last given out. Nothing is printed.
//
// Any other line is an event line. Printed is the answer's line and, where the members are asked, `on` or `off`, the call, the place, the number, and
// the timers that stop and that start, a digit for each member. Where the rest of a line does not read, it is the event of all zeros.
#![tactic(auto)]

use events::{Answer, Event, answers};
use input::{INPUT_OCTETS, UpToFailure};
use lamps::members::{Gp, Indication, Lamps, Timer};
use lamps::notice::Notice;
use lamps::reply::{Reply, Settlement};
use lamps::{Endpoint, members, reply};
use std::io::{Read, Write};
use std::{fmt, io};

// What is printed is collected in a block, which goes out when the next text does not fit.
const BLOCK_OCTETS: usize = 16384;

// The digit of a timer, 0 where there is none.
fn digit(timer: Option<Timer>) -> u8 {
    timer.map_or(0, u8::from)
}

// A digit for each member.
#[derive(Clone, Copy)]
struct Timers([Option<Timer>; Lamps::MEMBERS]);

impl fmt::Display for Timers {
    fn fmt<W: fmt::Write>(&self, f: &mut fmt::Formatter<W>) -> fmt::Result {
        for timer in self.0 {
            write!(f, "{}", digit(timer))?;
        }
        Ok(())
    }
}

// The call in two digits an octet.
#[derive(Clone, Copy)]
struct Request(Notice);

impl fmt::Display for Request {
    fn fmt<W: fmt::Write>(&self, f: &mut fmt::Formatter<W>) -> fmt::Result {
        let x = self.0;
        f.write_str(match x.asks {
            Indication::On => "on\t",
            Indication::Off => "off\t",
        })?;
        for octet in x.call {
            write!(f, "{octet:02x}")?;
        }
        let (stopped, started) = (Timers(x.stopped), Timers(x.started));
        write!(f, "\t{}\t{}\t{stopped}\t{started}", x.place.0, x.invoke.0)
    }
}

#[derive(Clone, Copy)]
struct State(Gp);

impl fmt::Display for State {
    fn fmt<W: fmt::Write>(&self, f: &mut fmt::Formatter<W>) -> fmt::Result {
        let name = match self.0 {
            Gp::Idle => "GP-Idle",
            Gp::NotifyOnRequ => "GP-NotifyOnRequ",
            Gp::NotifyOffRequ => "GP-NotifyOffRequ",
        };
        write!(f, "gp\t{name}\t{}", digit(self.0.timer()))
    }
}

// What prints. It is no `BufWriter`: that is on the heap, and after a failed write it writes what it holds once more when it is dropped.
#[derive(Drop)]
struct Block<'a, R> {
    rt: &'a R,
    octets: [u8; BLOCK_OCTETS],
    len: usize,
}

impl<R: Print> Block<'_, R> {
    fn has_room(&self, octets: usize) -> bool {
        octets <= BLOCK_OCTETS.saturating_sub(self.len)
    }

    // An answer is written straight into the block, and never in two parts.
    fn put_answer(&mut self, a: Answer) -> io::Result<()> {
        if !self.has_room(lines::ANSWER_ROOM) {
            self.flush()?;
        }
        if let Some(free) = self.octets.get_mut(self.len..) {
            let written = lines::write_answer(a, free);
            self.len = self.len.saturating_add(written);
        }
        Ok(())
    }

    fn put_octet(&mut self, octet: u8) -> io::Result<()> {
        if !self.has_room(1) {
            self.flush()?;
        }
        if let Some(free) = self.octets.get_mut(self.len) {
            *free = octet;
            self.len += 1;
        }
        Ok(())
    }
}

impl<R: Print> Write for Block<'_, R> {
    // A text that does not fit fills the block first, so that each but the last goes out full, or short of an answer.
    fn write(&mut self, text: &[u8]) -> io::Result<usize> {
        let free = self.octets.get_mut(self.len..);
        if let Some(room) = free.and_then(|free| free.get_mut(..text.len())) {
            room.copy_from_slice(text);
            self.len = self.len.saturating_add(text.len());
            return Ok(text.len());
        }
        for octet in text {
            self.put_octet(*octet)?;
        }
        Ok(text.len())
    }

    // What is written, or could not be, is let go.
    fn flush(&mut self) -> io::Result<()> {
        let len = self.len;
        self.len = 0;
        match self.octets.get(..len) {
            Some(block) => self.rt.write_all(block),
            None => Ok(()),
        }
    }

    fn write_all(&mut self, text: &[u8]) -> io::Result<()> {
        self.write(text)?;
        Ok(())
    }
}

// The endpoint, and where it is written what came of a line.
#[derive(Drop)]
struct Session<'a, R> {
    endpoint: Endpoint,
    out: Block<'a, R>,
}

impl<R: Print> Session<'_, R> {
    fn put_settlement(&mut self, x: Settlement) -> io::Result<()> {
        match x.answer {
            Ok(a) => {
                let (place, timer) = (a.place.0, u8::from(a.stopped));
                writeln!(self.out, "reply\t0\t{place}\t{timer}")
            }
            Err(w) => writeln!(self.out, "reply\t{}\t0\t0", u8::from(w)),
        }
    }

    fn take_event(&mut self, line: &[u8]) -> io::Result<()> {
        let e = match lines::read_event(line) {
            Ok(e) => e,
            Err(w) => {
                return self.out.put_answer(answers::only_number(u8::from(w)));
            }
        };
        let told = lamps::tell(self.endpoint, e);
        self.endpoint = told.endpoint;
        self.out.put_answer(told.answer)?;
        match told.notice {
            Some(x) => writeln!(self.out, "{}", Request(x)),
            None => Ok(()),
        }
    }

    fn take_reply(&mut self, e: Event) -> io::Result<()> {
        let call = e.call;
        let settled = reply::settle(
            self.endpoint.lamps,
            Reply {
                call,
                member: e.choice,
                invoke: e.invoke,
                indication: if e.kind == 1 {
                    Indication::On
                } else {
                    Indication::Off
                },
            },
        );
        let lamps = settled.lamps;
        self.endpoint.lamps = lamps;
        self.put_settlement(settled)
    }

    fn take_line(&mut self, line: &[u8]) -> io::Result<()> {
        match line {
            [b'r', rest @ ..] => self.take_reply(lines::event_said(rest)),
            [b'g', rest @ ..] => {
                let e = lines::event_said(rest);
                let state = State(members::gp_at(self.endpoint.lamps, e.place, e.choice));
                writeln!(self.out, "{state}")
            }
            [b'n', rest @ ..] => {
                self.endpoint.lamps.last = lines::event_said(rest).invoke;
                Ok(())
            }
            _ => self.take_event(line),
        }
    }
}

fn main(rt: HostRuntime) -> io::Result<()> {
    // a function for this would give back both the text and the error, and be no plainer
    let mut room = [0u8; INPUT_OCTETS];
    let mut input = UpToFailure {
        input: rt.reader(),
        came: 0,
        failure: None,
    };
    // an input that ends before the room is full is no failure
    let _is_full = input.read_exact(room.as_mut_slice()).is_ok();
    let text = room.get(..input.came).unwrap_or_default();
    let mut session = Session {
        endpoint: Endpoint::empty(),
        out: Block {
            rt: &rt,
            octets: [0; BLOCK_OCTETS],
            len: 0,
        },
    };
    for line in input::each_line(text) {
        session.take_line(line)?;
    }
    session.out.flush()?;
    match input.failure {
        Some(e) => Err(e),
        None => Ok(()),
    }
}
