// Is an image one of a sound table? The test is made on the octets, eight at a time, so that no table has to be read for it.

ghost use Rattle.std.specs.Prelude.{◌≡◌, ◌+◌, ◌<◌, ◌≤◌};
ghost use Rattle.table.specs.Places.{place_count};
ghost use Rattle.table.specs.Sound.{all_zeros};
ghost use Rattle.image.specs.Image.{record_octets, image_octets, record_from, places_sound};
ghost use Rattle.image.specs.Quick.{place_fits};

use crate::buckets::Buckets;
use crate::marks::Marks;
use crate::{octets, words};
use image::{CONNECTION_OFFSET, IMAGE_OCTETS, PLACE_OCTETS};
use table::{Side, State, Table};

// Are the twenty octets after a state octet zeros?
fn all_zeros(image: &[u8; IMAGE_OCTETS], at: usize) -> bool
    requires { at + record_octets ≤ image_octets }
    ensures { result ≡ all_zeros (record_from image.now at) }
{
    if words::word(image, at + 1) != 0 {
        return false;
    }
    if words::word(image, at + 9) != 0 {
        return false;
    }
    words::quad(image, at + CONNECTION_OFFSET) == 0
}

// May the octets of place i stand there?
fn place_fits(image: &[u8; IMAGE_OCTETS], i: usize) -> bool
    requires { i < place_count }
    ensures { result ≡ place_fits image.now i }
{
    let at = i * PLACE_OCTETS;
    let octet = image[at];
    let state = State::of(octet);
    if state.is_free() {
        return all_zeros(image, at);
    }
    // an octet that is no state's number is looked at as the last state
    if u8::from(state) != octet {
        return false;
    }
    if state == Side::at(i).missing() {
        return false;
    }
    if state == State::RemoteRequested {
        return true;
    }
    octets::read_pair(image, at + CONNECTION_OFFSET) == 0
}

// Does every place fit, does no call stand twice, and are the ranks of each side those of its calls?
pub(crate) fn places_sound(image: &[u8; IMAGE_OCTETS]) -> bool
    ensures { result ≡ places_sound image.now }
{
    let mut buckets = Buckets::none();
    let mut marks = Marks::none(image);
    for i in 0..Table::PLACES {
        if !place_fits(image, i) {
            return false;
        }
        if !buckets.enter(image, i) {
            return false;
        }
        if !marks.enter(image, i) {
            return false;
        }
    }
    true
}
