// Lines of fields parted by tabs, read and written by their description: for each field its kind, which is a number up to a greatest value, or the
// call. The reader hands on each field as the part of the line that it is (`parts`) to the reader of numbers (`numbers`) or of calls
// (`calls`). What a line says, and how it is written, is defined in specs/, from document 01's "Lines, image, status" and refusals 21 to 24.
#![tactic(auto)]

pub mod calls;
pub mod numbers;
pub mod parts;

ghost use Rattle.std.specs.Prelude.{◌≡◌, ◌+◌, ◌≤◌, ◌<◌, length};
ghost use Rattle.std.proofs.lemmas.List.Edits.{sets};
ghost use Rattle.table.specs.Places.{no_call};
ghost use Rattle.fields.specs.Parts.{tabs};
ghost use Rattle.fields.specs.Line.{most_fields, no_values, walk, read_fields, fault_field, text, line_from, line_of, Writes};

use table::{Call, Table};

// What stands in a field: the call, or a number that is at most this. A description of a line has it of each field.
#[derive(Clone, Copy, PartialEq, Eq, Debug)]
pub enum Kind {
    Call,
    Number(u16),
}

// The most fields that a description may have.
pub const MOST_FIELDS: usize = 14;

// The number of each field at the field's index, the first field's at 0; 0 at the call's index and past the last field.
pub type Values = [u16; MOST_FIELDS];

// Why a line does not say what its description asks for.
#[derive(Clone, Copy, PartialEq, Eq, Debug)]
pub enum Fault {
    TooLong,
    WrongCount,
    BadField(u8),
}

impl Fault {
    // The field that is to blame, counted from 1, or 0 where no single one is: C gets it so of `park_bad_field`.
    pub fn field(self) -> u8
        ensures { result ≡ fault_field self }
    {
        match self {
            Fault::TooLong => 0,
            Fault::WrongCount => 0,
            Fault::BadField(field) => field,
        }
    }
}

// What a line says, or is to say.
#[derive(Clone, Copy, PartialEq, Eq, Debug, Default)]
pub struct Fields {
    pub values: Values,
    pub call: Call,
}

// The one walk through a line that has as many fields as its description.
#[tactic(auto, using(crate::proofs::Walk::walk_end, crate::proofs::NumberLaws::number_most))]
fn walk_fields(line: &[u8], description: &[Kind]) -> Result<Fields, Fault>
    requires { (length line.now ≤ 255) × (length description.now ≤ most_fields) × (tabs line.now + 1 ≡ length description.now) }
    ensures { result ≡ walk description.now 0 line.now no_values no_call }
{
    let mut values = [0u16; MOST_FIELDS];
    let mut call = [0u8; Table::CALL_OCTETS];
    // `at` is where the next field starts: `walk` takes off one field at a time too, so that `split` would say no more.
    let mut at: usize = 0;
    for (i, kind) in description.iter().enumerate() {
        let field = parts::first_field(&line[at..]);
        let bad = Fault::BadField(i as u8 + 1);
        match *kind {
            Kind::Call => call = calls::read_call(field).ok_or(bad)?,
            Kind::Number(most) => {
                let value = numbers::read_number(field, u64::from(most)).ok_or(bad)?;
                values[i] = value as u16;
            }
        }
        at += field.len() + 1;
    }
    Ok(Fields { values, call })
}

// What a line says, by its description and the greatest length that it may have.
#[tactic(auto, using(crate::proofs::Walk::testing))]
pub fn read_fields(line: &[u8], longest: u8, description: &[Kind]) -> Result<Fields, Fault>
    ensures { result ≡ read_fields longest description.now line.now }
{
    if usize::from(longest) < line.len() {
        return Err(Fault::TooLong);
    }
    if MOST_FIELDS < description.len() {
        return Err(Fault::WrongCount);
    }
    if usize::from(parts::count_tabs(line)) + 1 != description.len() {
        return Err(Fault::WrongCount);
    }
    walk_fields(line, description)
}

// Writes the text of a field at the front of the buffer, and gives its length.
#[tactic(auto, using(crate::proofs::Hexadecimal::length_hex))]
fn put_field(out: &mut [u8], kind: Kind, value: u16, call: Call) -> usize
    requires { length (text kind value call) ≤ length out.old }
    ensures { (result ≡ length (text kind value call)) × (out.new ≡ sets out.old 0 (text kind value call)) }
{
    match kind {
        Kind::Call => calls::put_call(out, call),
        Kind::Number(_) => numbers::put_number(out, u64::from(value)),
    }
}

// How many octets a field has; every call has 32.
fn field_length(kind: Kind, value: u16) -> usize
    ensures { result ≡ length (text kind value no_call) }
{
    match kind {
        Kind::Call => 32,
        Kind::Number(_) => numbers::digits(u64::from(value)),
    }
}

// How many octets a line has, whatever its call; 0 by a description of no field, or of too many.
#[tactic(auto, using(crate::proofs::Texts::measuring))]
pub fn fields_length(description: &[Kind], values: Values) -> usize
    ensures { result ≡ length (line_of description.now values no_call) }
{
    if MOST_FIELDS < description.len() {
        return 0;
    }
    let Some((last, rest)) = description.split_last() else {
        return 0;
    };
    let mut n: usize = 0;
    for (i, kind) in rest.iter().enumerate() {
        n += field_length(*kind, values[i]) + 1;
    }
    n + field_length(*last, values[rest.len()])
}

// Writes a line at the front of the buffer, where there is room for it, and gives its length.
#[tactic(auto, using(crate::proofs::Texts::putting))]
fn put_fields(out: &mut [u8], description: &[Kind], fields: Fields) -> usize
    requires { (length description.now ≤ most_fields) × (length (line_from description.now 0 fields.values fields.call) ≤ length out.old) }
    ensures { (result ≡ length (line_from description.now 0 fields.values fields.call)) × (out.new ≡ sets out.old 0 (line_from description.now 0 fields.values fields.call)) }
{
    let Fields { values, call } = fields;
    let Some((last, rest)) = description.split_last() else {
        return 0;
    };
    // where the next field starts, as in `walk_fields`
    let mut p: usize = 0;
    for (i, kind) in rest.iter().enumerate() {
        p += put_field(&mut out[p..], *kind, values[i], call);
        out[p] = b'\t';
        p += 1;
    }
    p + put_field(&mut out[p..], *last, values[rest.len()], call)
}

// Writes a line at the front of the buffer, and gives its length; in a buffer that is too short it writes nothing, and gives 0. Octets
// beyond the line stay. It is no Option, since it could not fail before
// (`Writes`).
#[tactic(auto, using(crate::proofs::Texts::writing))]
pub fn write_fields(out: &mut [u8], description: &[Kind], fields: Fields) -> usize
    ensures { Writes out.old (line_of description.now fields.values fields.call) result out.new }
{
    if MOST_FIELDS < description.len() {
        return 0;
    }
    if out.len() < fields_length(description, fields.values) {
        return 0;
    }
    put_fields(out, description, fields)
}
