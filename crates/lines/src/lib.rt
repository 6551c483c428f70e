// Event lines and answer lines as octets. Each is a line of fields by its description (`fields`), and an event or an answer is laid out in the
// values of its fields and taken from them (`layout`). What a line means is defined in specs/, from document 01's "Lines, image, status" and refusals
// 21 to 24.
#![tactic(auto)]

mod layout;

ghost use Rattle.std.specs.Prelude.{◌≡◌, length};
ghost use Rattle.fields.specs.Line.{line_of, Writes};
ghost use Rattle.lines.specs.Layout.{read_by};
ghost use Rattle.lines.specs.EventLine.{bad_line, refusal_number, read_line, event_said, bad_field, event_line};
ghost use Rattle.lines.specs.AnswerLine.{read_answer, answer_said, answer_line};

use events::{Answer, Event};
use fields::Fault;
use layout::Layout;

// The octets that hold the line of every answer the table gives, its line feed included.
pub const ANSWER_ROOM: usize = 77;

// Why an event line is refused: it is too long, it has not the seven fields, or its first bad field is a number, or the call.
#[derive(Clone, Copy, PartialEq, Eq, Debug)]
pub enum BadLine {
    TooLong = 21,
    WrongCount = 22,
    BadNumber = 23,
    BadCall = 24,
}

// Of the seven fields the second is the call.
impl From<Fault> for BadLine {
    ghost from_gives = { λ f b. b ≡ bad_line f };

    fn from(fault: Fault) -> BadLine {
        match fault {
            Fault::TooLong => BadLine::TooLong,
            Fault::WrongCount => BadLine::WrongCount,
            Fault::BadField(2) => BadLine::BadCall,
            Fault::BadField(_) => BadLine::BadNumber,
        }
    }
}

// The paper's numbers.
impl From<BadLine> for u8 {
    ghost from_gives = { λ b n. n ≡ refusal_number b };

    fn from(bad: BadLine) -> u8 {
        bad as u8
    }
}

// What a line says of what has this layout. The line comes without its line feed.
fn read<L: Layout>(line: &[u8]) -> Result<L, Fault>
    ensures { result ≡ read_by L.LONGEST L.kinds L.taken line.now }
{
    Ok(L::of_fields(fields::read_fields(line, L::LONGEST, L::kinds())?))
}

// How many octets the line of what has this layout has.
#[tactic(auto, using(fields::proofs::Texts::any_call))]
fn length<L: Layout>(x: L) -> usize
    ensures { result ≡ length (line_of L.kinds (L.laid x).values (L.laid x).call) }
{
    fields::fields_length(L::kinds(), x.to_fields().values)
}

// Writes the line of what has this layout.
fn write<L: Layout>(x: L, out: &mut [u8]) -> usize
    ensures { Writes out.old (line_of L.kinds (L.laid x).values (L.laid x).call) result out.new }
{
    fields::write_fields(out, L::kinds(), x.to_fields())
}

// The event that a line says, or why it is refused. The line comes without its line feed.
#[tactic(auto, unfolding(crate::specs::EventLine::read_line, crate::specs::EventLine::reading))]
pub fn read_event(line: &[u8]) -> Result<Event, BadLine>
    ensures { result ≡ read_line line.now }
{
    Ok(read::<Event>(line)?)
}

// The event that a line says; a refused line has that of all zeros.
pub fn event_said(line: &[u8]) -> Event
    ensures { result ≡ event_said line.now }
{
    read_event(line).unwrap_or_default()
}

// The first bad field of a line, 1 to 7, or 0 where no single field is to blame, as C gets it of `park_bad_field`: the line reads, or 21 or 22 refuses it.
#[tactic(auto, unfolding(crate::specs::EventLine::bad_field, crate::specs::EventLine::reading))]
pub fn bad_field(line: &[u8]) -> u8
    ensures { result ≡ bad_field line.now }
{
    match read::<Event>(line) {
        Ok(_) => 0,
        Err(fault) => fault.field(),
    }
}

// The answer that a line says, or none where it is not the fourteen fields. The line comes without its line feed.
#[tactic(auto, unfolding(crate::specs::AnswerLine::read_answer))]
pub fn read_answer(line: &[u8]) -> Option<Answer>
    ensures { result ≡ read_answer line.now }
{
    read(line).ok()
}

// The answer that a line says; a line that is not the fourteen fields has that of all zeros.
#[tactic(auto, unfolding(crate::specs::AnswerLine::answer_said))]
pub fn answer_said(line: &[u8]) -> Answer
    ensures { result ≡ answer_said line.now }
{
    match read_answer(line) {
        Some(a) => a,
        None => Answer::default(),
    }
}

// How many octets the line of an event has.
#[tactic(auto, unfolding(crate::specs::EventLine::event_line))]
pub fn event_length(e: Event) -> usize
    ensures { result ≡ length (event_line e) }
{
    length(e)
}

// Writes the line of an event, without a line feed, at the front of the buffer, and gives its length; in a buffer that is too short
// it writes nothing, and gives 0 (`fields::write_fields` says why no None). Octets beyond the line stay.
#[tactic(auto, unfolding(crate::specs::EventLine::event_line))]
pub fn write_event(e: Event, out: &mut [u8]) -> usize
    ensures { Writes out.old (event_line e) result out.new }
{
    write(e, out)
}

// How many octets the line of an answer has, its line feed included.
#[tactic(auto, using(laws::proofs::Runs::length_snoc), unfolding(crate::specs::AnswerLine::answer_line))]
pub fn answer_length(a: Answer) -> usize
    ensures { result ≡ length (answer_line a) }
{
    length(a) + 1
}

// Writes the line of an answer, with its line feed, at the front of the buffer, and gives its length; in a buffer that is too short it
// writes nothing, and gives 0, as `park_step` gives it to C. Octets beyond the line stay.
pub fn write_answer(a: Answer, out: &mut [u8]) -> usize
    ensures { Writes out.old (answer_line a) result out.new }
{
    if out.len() == 0 {
        return 0;
    }
    let room = out.len() - 1;
    let n = write(a, &mut out[..room]);
    if n == 0 {
        return 0;
    }
    out[n] = b'\n';
    n + 1
}
