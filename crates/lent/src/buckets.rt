// The calls of the places passed so far, by buckets: a call is compared only with the earlier calls of its bucket.

ghost use Rattle.std.specs.Prelude.{◌≡◌, ℕ, ◌+◌, ◌<◌, ◌≤◌, true, false, List, length, take, drop};
ghost use Rattle.table.specs.Places.{place_count, call_octets};
ghost use Rattle.table.specs.Sound.{is_sound};
ghost use Rattle.image.specs.Image.{image_octets, table_from};
ghost use Rattle.image.specs.Quick.{Busy, call_at, bucket_of, Apart};
ghost use Rattle.lent.specs.Passed.{CallsEntered};

use crate::words;
use image::{IMAGE_OCTETS, PLACE_OCTETS};
use table::Table;

// Lists of places: `last` heads that of each bucket, and `before` links it. A place stands as one more than its index, and 0 for none, in an octet: an
// `Option<u8>` has two, and both arrays are cleared at each event. No plainer either: `checked_sub(1)` is all that reads one.
#[derive(Drop)]
pub(crate) struct Buckets {
    last: [u8; 509],
    before: [u8; Table::PLACES],
}

// The bucket of the call that starts at `at`. Their number is a prime, so that calls which differ in one octet, be it the first or the last,
// seldom share one.
fn bucket(image: &[u8; IMAGE_OCTETS], at: usize) -> usize
    requires { at + call_octets ≤ image_octets }
    ensures { (result ≡ bucket_of (take call_octets (drop at image.now))) × (result < 509) }
{
    (words::word(image, at).wrapping_add(words::word(image, at + 8)) % 509) as usize
}

impl Buckets {
    pub(crate) fn none() -> Buckets
        ensures { (s : List ℕ) → CallsEntered s 0 result }
    {
        Buckets {
            last: [0; 509],
            before: [0; Table::PLACES],
        }
    }

    // Does an earlier place hold the call of place i, which is occupied? h is its bucket.
    fn hold(&self, image: &[u8; IMAGE_OCTETS], h: usize, i: usize) -> bool
        requires place { (i < place_count) × Busy image.now i × CallsEntered image.now i self.now }
        requires bucket { (h ≡ bucket_of (call_at image.now i)) × (h < 509) }
        ensures held { result ≡ true → is_sound (table_from image.now) ≡ false }
        ensures apart { result ≡ false → (k : ℕ) → k < i → Apart image.now k i }
    {
        let call = i * PLACE_OCTETS + 1;
        let mut next = self.last[h] as usize;
        while let Some(k) = next.checked_sub(1) {
            if words::same_call(image, k * PLACE_OCTETS + 1, image, call) {
                return true;
            }
            next = self.before[k] as usize;
        }
        false
    }

    // Enters place i after the earlier ones, unless one of them holds its call.
    pub(crate) fn enter(&mut self, image: &[u8; IMAGE_OCTETS], i: usize) -> bool
        requires { (i < place_count) × CallsEntered image.now i self.old }
        ensures entered { result ≡ true → CallsEntered image.now (i + 1) self.new }
        ensures held { result ≡ false → is_sound (table_from image.now) ≡ false }
    {
        let at = i * PLACE_OCTETS;
        if image[at] == 0 {
            return true;
        }
        let h = bucket(image, at + 1);
        if self.hold(image, h, i) {
            return false;
        }
        self.before[i] = self.last[h];
        self.last[h] = (i + 1) as u8;
        true
    }
}
