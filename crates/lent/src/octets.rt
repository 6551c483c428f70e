// The octets of an image, a run of them at a time, and those of one record. C lends an image as one run of octets: so it is read and written at an index,
// here and in `words`.
//
// That an index is below `place_count` is asked for in a `requires`, here and in what stands on this. A type would be no plainer: each index comes from
// a range or from a search, and would be wrapped at each, as in `(0..Table::PLACES).find(|i| holds_call(image, Index { value: *i }, call))`.

ghost use Rattle.std.specs.Prelude.{◌≡◌, ◌+◌, ◌<◌, ◌≤◌, length, take, drop};
ghost use Rattle.std.proofs.lemmas.List.Edits.{sets};
ghost use Rattle.table.specs.Places.{place_count, record_at};
ghost use Rattle.image.specs.Image.{image_octets, record_octets, place_start, pair_at, octets_of, table_from};

use image::{CONNECTION_OFFSET, COUNT_OFFSET, IMAGE_OCTETS, PLACE_OCTETS};
use table::{Connection, Invoke, Record, State};

// So many octets from an index on.
pub(crate) fn run<const N: usize>(octets: &[u8], at: usize) -> [u8; N]
    requires { at + N ≤ length octets.now }
    ensures { result ≡ take N (drop at octets.now) }
{
    let mut found = [0; N];
    found.copy_from_slice(&octets[at..at + N]);
    found
}

// Writes so many octets from an index on.
fn put_run<const N: usize>(image: &mut [u8; IMAGE_OCTETS], at: usize, octets: [u8; N])
    requires { at + N ≤ image_octets }
    ensures { image.new ≡ sets image.old at octets.entry }
{
    image[at..at + N].copy_from_slice(&octets);
}

pub(crate) fn read_pair(image: &[u8; IMAGE_OCTETS], at: usize) -> u16
    requires { at + 1 < image_octets }
    ensures { result ≡ pair_at image.now at }
{
    u16::from_be_bytes(run(image, at))
}

// The record of one place, given by its index.
pub(crate) fn read_record(image: &[u8; IMAGE_OCTETS], i: usize) -> Record
    requires { i < place_count }
    ensures { result ≡ record_at (table_from image.now) i }
{
    let at = i * PLACE_OCTETS;
    Record {
        state: State::of(image[at]),
        call: run(image, at + 1),
        connection: Connection(read_pair(image, at + CONNECTION_OFFSET)),
        count: Invoke(read_pair(image, at + COUNT_OFFSET)),
    }
}

pub(crate) fn put_record(image: &mut [u8; IMAGE_OCTETS], i: usize, r: Record)
    requires { i < place_count }
    ensures { (image.new ≡ sets image.old (place_start i) (octets_of r)) × (length (octets_of r) ≡ record_octets) }
{
    let at = i * PLACE_OCTETS;
    image[at] = u8::from(r.state);
    put_run(image, at + 1, r.call);
    put_run(image, at + CONNECTION_OFFSET, r.connection.0.to_be_bytes());
    put_run(image, at + COUNT_OFFSET, r.count.0.to_be_bytes());
}
