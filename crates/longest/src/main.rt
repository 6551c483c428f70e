// longest: the events of `longest_run` (room/specs/Room.antt) as lines, from the image of the empty table. They reach the longest line that an
// answer has. Of each answer this prints the length that is offered before the line is written, the count that the writer gives back, and
// the line, for which it sets aside no octet more than was offered.
#![tactic(auto)]

use events::Answer;
use std::io;

const LINES: [&[u8]; 5] = [
    b"1\t00000000000000000000000000000001\t17\t0\t0\t0\t0",
    b"4\t00000000000000000000000000000001\t0\t0\t65535\t0\t0",
    b"6\t00000000000000000000000000000001\t0\t0\t0\t1\t0",
    b"4\t00000000000000000000000000000001\t0\t0\t65535\t0\t0",
    b"10\t00000000000000000000000000000001\t0\t0\t0\t0\t3",
];

// Prints an answer, with its line written into the room that was set aside for it.
fn print_answer(rt: &impl Print, a: Answer, room: &mut [u8]) -> io::Result<()> {
    let offered = room.len();
    let written = lines::write_answer(a, room);
    print!(rt; "{offered}\t{written}\t")?;
    rt.write_all(room)
}

// Takes the event that a line says.
fn take(rt: &impl Print, image: &mut [u8], line: &[u8]) -> io::Result<()> {
    let a = lent::answer_line(image, line);
    let offered = lines::answer_length(a);
    let mut room = [0u8; lines::ANSWER_ROOM];
    print_answer(rt, a, &mut room[..offered])
}

fn main(rt: HostRuntime) -> io::Result<()> {
    let mut image = [0u8; image::IMAGE_OCTETS];
    for line in LINES {
        take(&rt, &mut image, line)?;
    }
    Ok(())
}
