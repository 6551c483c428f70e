// A session: a stream of octets cut into lines, each answered at the table that the one before it left. The table is kept as its image, and
// looked through once for each piece. The octets come in pieces of any size. What is answered to a stream is defined in specs/Stream.antt, and that it does not depend on the pieces is proved.
//
// Of the line that is coming only 63 octets are kept: a longer one is refused by 21, whatever follows.

ghost use Rattle.std.specs.Prelude.{◌≡◌, ◌+◌, ◌≤◌, length, drop};
ghost use Rattle.lines.specs.AnswerLine.{answer_room};
ghost use Rattle.image.specs.Image.{is_sound_image};
ghost use Rattle.lent.specs.Session.{started, fed, fed_out, finished_out, finished_count, AnswersKnown, EndsLine, KeepsLine};
ghost use Rattle.lent.specs.Keep.{until_feed};

use crate::sound;
use events::{Answer, answers};
use image::IMAGE_OCTETS;
use table::Unsound;

#[derive(Clone, Copy)]
pub struct Session {
    // the table
    pub image: [u8; IMAGE_OCTETS],
    // the front of the line that is coming, and how much of it: an array with its length beside it, as there is no heap here
    pub kept: [u8; 63],
    pub len: usize,
}

// What comes of a piece: the session after it, and how many octets were written.
#[derive(Clone, Copy)]
pub struct Fed {
    pub session: Session,
    pub written: usize,
}

// The buffer has less than `ANSWER_ROOM` octets for each octet of the piece.
#[derive(Clone, Copy)]
pub struct NoRoom;

// A piece, and the buffer of the answers, go with an index, since `feed` goes on behind what was done: two slices that grow shorter would be no plainer.
//
// Where the line from an index on ends: at the next line feed, or at the end of the piece. `input` looks for a feed too, but its lines end with the text:
// the two share std's `position`, and neither crate stands on the other.
fn find_feed(piece: &[u8], from: usize) -> usize
    requires { from ≤ length piece.now }
    ensures { (result ≡ from + until_feed (drop from piece.now)) × (result ≤ length piece.now) }
{
    let rest = &piece[from..];
    from + rest
        .iter()
        .position(|octet| *octet == b'\n')
        .unwrap_or(rest.len())
}

// Answers a line at the image. Whether it is one of a sound table was found out before, and no line changes that: a truth value beside the image is all that
// the three functions hand on, and a type would be no plainer.
fn answer_at(sound: bool, image: &mut [u8; IMAGE_OCTETS], line: &[u8]) -> Answer
    requires { sound ≡ is_sound_image image.old }
    ensures { AnswersKnown sound image.old line.now result image.new }
{
    if sound {
        crate::step_line(image, line)
    } else {
        answers::only_number(u8::from(Unsound))
    }
}

impl Session {
    pub fn start() -> Session
        ensures { result ≡ started }
    {
        Session {
            image: [0; IMAGE_OCTETS],
            kept: [0; 63],
            len: 0,
        }
    }

    // Keeps the octets of a piece from an index on, as many as there is room for, up to the next line feed or the end of the piece. Gives the index
    // of that end.
    fn keep(&mut self, piece: &[u8], from: usize) -> usize
        requires { from ≤ length piece.now }
        ensures { KeepsLine self.old piece.now from result self.new }
    {
        let end = find_feed(piece, from);
        let start = self.len.min(63);
        let count = (end - from).min(63 - start);
        self.kept[start..start + count].copy_from_slice(&piece[from..from + count]);
        self.len += count;
        end
    }

    // Answers the line that has come, and writes the answer from an index of the buffer on. Gives the count of octets written.
    fn end_line(&mut self, sound: bool, out: &mut [u8], at: usize) -> usize
        requires { (at + answer_room ≤ length out.old) × (sound ≡ is_sound_image self.old.image) }
        ensures { EndsLine sound self.old out.old at result self.new out.new }
    {
        let line = &self.kept[..self.len.min(63)];
        let answer = answer_at(sound, &mut self.image, line);
        self.len = 0;
        lines::write_answer(answer, &mut out[at..])
    }
}

// Takes a piece of the stream, and writes the answers to the lines that end in it. Where the buffer has less than `ANSWER_ROOM` octets
// for each octet of the piece, nothing is done.
pub fn feed(mut s: Session, piece: &[u8], out: &mut [u8]) -> Result<Fed, NoRoom>
    ensures { (result ≡ fed s piece.now out.old) × (out.new ≡ fed_out s piece.now out.old) }
{
    if out.len() / lines::ANSWER_ROOM < piece.len() {
        return Err(NoRoom);
    }
    let sound = sound::places_sound(&s.image);
    let mut written: usize = 0;
    let mut i: usize = 0;
    // No iterator is plainer: a turn begins behind the feed that the one before it found, and what has no feed is kept.
    loop {
        let end = s.keep(piece, i);
        if end == piece.len() {
            return Ok(Fed {
                session: s,
                written,
            });
        }
        written += s.end_line(sound, out, written);
        i = end + 1;
    }
}

// Answers a last line that lacks its feed, and gives the count of octets written. It cannot fail: where the buffer has less than `ANSWER_ROOM` octets,
// nothing is done, and 0 comes back.
pub fn finish(s: Session, out: &mut [u8]) -> usize
    ensures { (result ≡ finished_count s out.old) × (out.new ≡ finished_out s out.old) }
{
    if out.len() < lines::ANSWER_ROOM {
        return 0;
    }
    if s.len == 0 {
        return 0;
    }
    let sound = sound::places_sound(&s.image);
    // only now, since a session is two kilobytes, and a parameter that is `mut` is copied before anything is looked at
    let mut s = s;
    s.end_line(sound, out, 0)
}
