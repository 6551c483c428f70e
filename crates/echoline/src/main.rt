// echoline: each line of standard input, read and written back, for tests. What reads as an event is written as that event's line, what reads as
// an answer as that answer's line, and of any other line the refusal is printed that it has as an event line.
#![tactic(auto)]

use input::{INPUT_OCTETS, UpToFailure};
use std::io;
use std::io::Read;

// More than any line has that is written back.
const LINE_OCTETS: usize = 128;

// A line is written into no more room than the length that is offered for it.
fn print_written<F: FnOnce(&mut [u8]) -> usize>(
    rt: &impl Print,
    offered: usize,
    write: F,
) -> io::Result<()>
    requires { F.IsAlwaysCallable write }
{
    let mut out = [0u8; LINE_OCTETS];
    if let Some(room) = out.get_mut(..offered) {
        let written = write(room);
        if let Some(line) = room.get(..written) {
            rt.write_all(line)?;
        }
    }
    Ok(())
}

fn echo(rt: &impl Print, line: &[u8]) -> io::Result<()> {
    match lines::read_event(line) {
        Ok(e) => {
            print_written(rt, lines::event_length(e), |room| {
                lines::write_event(e, room)
            })?;
            rt.write_all(b"\n")
        }
        Err(bad) => match lines::read_answer(line) {
            Some(a) => print_written(rt, lines::answer_length(a), |room| {
                lines::write_answer(a, room)
            }),
            None => rt.println(u8::from(bad)),
        },
    }
}

fn main(rt: HostRuntime) -> io::Result<()> {
    // a function for this would give back both the text and the error, and be no plainer
    let mut room = [0u8; INPUT_OCTETS];
    let mut input = UpToFailure {
        input: rt.reader(),
        came: 0,
        failure: None,
    };
    // an input that ends before the room is full is no failure
    let _is_full = input.read_exact(room.as_mut_slice()).is_ok();
    let text = room.get(..input.came).unwrap_or_default();
    for line in input::each_line(text) {
        echo(&rt, line)?;
    }
    match input.failure {
        Some(e) => Err(e),
        None => Ok(()),
    }
}
