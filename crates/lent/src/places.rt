// The image of a table: read, written, and a record put anew in it.

ghost use Rattle.std.specs.Prelude.{◌≡◌, ◌<◌};
ghost use Rattle.table.specs.Places.{place_count};
ghost use Rattle.image.specs.Image.{Fit, image_of, write_image, written, table_from, read_image, table_said, place_put};

use crate::{octets, ranks, sound};
use image::{IMAGE_OCTETS, PLACE_OCTETS, RECORD_OCTETS};
use std::array;
use table::{Record, Table, Unsound};

// The table of an image, whether it is sound or not.
pub(crate) fn read_places(image: &[u8; IMAGE_OCTETS]) -> Table
    ensures { result ≡ table_from image.now }
{
    Table {
        places: array::from_fn(|i| octets::read_record(image, i)),
        ranks: array::from_fn(|i| image[i * PLACE_OCTETS + RECORD_OCTETS]),
    }
}

// The table of an image of a sound one; any other is refused.
pub fn read_image(image: &[u8]) -> Result<Table, Unsound>
    ensures { result ≡ read_image image.now }
{
    match image.as_array() {
        Some(image) if sound::places_sound(image) => Ok(read_places(image)),
        _ => Err(Unsound),
    }
}

// The table that is said of any image: the empty table of one that is refused.
pub fn table_said(image: &[u8]) -> Table
    ensures { result ≡ table_said image.now }
{
    read_image(image).unwrap_or(Table::empty())
}

// The image of any table, sound or not.
pub(crate) fn octets_of(t: Table) -> [u8; IMAGE_OCTETS]
    ensures { (result ≡ image_of t) × Fit t }
{
    let mut octets = [0; IMAGE_OCTETS];
    for i in 0..Table::PLACES {
        octets::put_record(&mut octets, i, t.places[i]);
        octets[i * PLACE_OCTETS + RECORD_OCTETS] = t.ranks[i];
    }
    octets
}

// Writes the image of a sound table into a buffer of its length; otherwise it refuses, and leaves the buffer as found.
pub fn write_image(t: Table, out: &mut [u8]) -> Result<(), Unsound>
    ensures { (result ≡ write_image t out.old) × (out.new ≡ written t out.old) }
{
    if out.len() != IMAGE_OCTETS {
        return Err(Unsound);
    }
    let octets = octets_of(t);
    if !sound::places_sound(&octets) {
        return Err(Unsound);
    }
    out.copy_from_slice(&octets);
    Ok(())
}

// Puts a record anew at a place, given by its index: its octets, and the ranks of its side where a call begins or ends.
pub(crate) fn put_place(image: &mut [u8; IMAGE_OCTETS], i: usize, r: Record)
    requires { i < place_count }
    ensures { image.new ≡ place_put i r image.old }
{
    ranks::rerank(image, i, r.state);
    octets::put_record(image, i, r);
}
