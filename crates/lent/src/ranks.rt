// The calls of either side of an image, and its rank octets when a call begins or ends.

ghost use Rattle.std.specs.Prelude.{◌≡◌, ◌*◌, ◌<◌, not, length, if◌then◌else◌, ◌==◌};
ghost use Rattle.table.specs.Places.{is_free, place_count};
ghost use Rattle.table.specs.Ranks.{calls_on, moved_up, change_of};
ghost use Rattle.table.specs.Marks.{of_side};
ghost use Rattle.image.specs.Image.{image_octets, record_in, table_from, closed_up_in, reranked_in};
ghost use Rattle.image.specs.Quick.{calls_in};

use image::ranks::Calls;
use image::{IMAGE_OCTETS, PLACE_OCTETS, RECORD_OCTETS};
use table::{Side, State};

// How many of the calls are on a side.
pub(crate) fn of_side(a: Side, calls: Calls) -> u8
    ensures { result ≡ of_side a calls.positions calls.lines }
{
    match a {
        Side::Position => calls.positions,
        Side::Line => calls.lines,
    }
}

// A rank, when the place of its side with rank k is freed.
pub(crate) fn move_up(k: u8, rank: u8) -> u8
    ensures { result ≡ moved_up k rank }
{
    if k < rank { rank - 1 } else { rank }
}

// 1 where a state octet is that of a call.
fn held(s: u8) -> u8
    ensures { result ≡ (if not (s == 0) then 1 else 0) }
{
    u8::from(s != 0)
}

// How many calls a side has. Without a test of the side in the loop the compiler takes many places at a time.
fn calls_of(image: &[u8; IMAGE_OCTETS], a: Side) -> u8
    ensures { result ≡ calls_on (table_from image.now) a }
{
    let mut calls: u8 = 0;
    for i in a.first()..a.end() {
        calls += held(image[i * PLACE_OCTETS]);
    }
    calls
}

pub(crate) fn calls_in(image: &[u8; IMAGE_OCTETS]) -> Calls
    ensures { result ≡ calls_in image.now }
{
    Calls {
        positions: calls_of(image, Side::Position),
        lines: calls_of(image, Side::Line),
    }
}

// Lowers the ranks of a side above k. What looks for ranks looks at no other place.
fn close_up(image: &mut [u8; IMAGE_OCTETS], a: Side, k: u8)
    ensures { image.new ≡ closed_up_in a k place_count image.old }
{
    for j in a.first()..a.end() {
        let at = j * PLACE_OCTETS + RECORD_OCTETS;
        image[at] = move_up(k, image[at]);
    }
}

// Gives an image the ranks that it has when the record at an index comes into another state.
pub(crate) fn rerank(image: &mut [u8; IMAGE_OCTETS], i: usize, after: State)
    requires { i < place_count }
    ensures { image.new ≡ reranked_in image.old i (change_of (is_free (record_in image.old i).state) (is_free after)) }
{
    let at = i * PLACE_OCTETS;
    let a = Side::at(i);
    if image[at] == 0 {
        if !after.is_free() {
            image[at + RECORD_OCTETS] = calls_of(image, a) + 1;
        }
    } else if after.is_free() {
        let k = image[at + RECORD_OCTETS];
        close_up(image, a, k);
        image[at + RECORD_OCTETS] = 0;
    }
}
