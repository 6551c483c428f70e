// Looking through the places of an image.

ghost use Rattle.std.specs.Prelude.{◌≡◌, ℕ, ◌<◌};
ghost use Rattle.table.specs.declared.State.TheVariants.{Free};
ghost use Rattle.table.specs.Search.{holds, find_call, lowest_in};
ghost use Rattle.table.specs.Ranks.{earlier, next_waiting};
ghost use Rattle.table.specs.Places.{place_count};
ghost use Rattle.image.specs.Image.{record_in, table_from};

use crate::words;
use image::{IMAGE_OCTETS, PLACE_OCTETS, RECORD_OCTETS};
use table::{Call, Side, State, Table};

// The call is compared before the state: it hardly ever agrees, and the processor can count on that.
fn holds_call(image: &[u8; IMAGE_OCTETS], i: usize, call: &Call) -> bool
    requires { i < place_count }
    ensures { result ≡ holds call.now (record_in image.now i) }
{
    let at = i * PLACE_OCTETS;
    words::same_call(image, at + 1, call, 0) && image[at] != 0
}

// The index of the place that holds a call.
pub(crate) fn find_call(image: &[u8; IMAGE_OCTETS], call: &Call) -> Option<usize>
    ensures { result ≡ find_call (table_from image.now) call.now }
{
    (0..Table::PLACES).find(|i| holds_call(image, *i, call))
}

// The lowest free place of a side.
pub(crate) fn lowest_free(image: &[u8; IMAGE_OCTETS], a: Side) -> Option<usize>
    ensures { result ≡ lowest_in (table_from image.now) a Free }
{
    let free = u8::from(State::Free);
    (a.first()..a.end()).find(|i| image[*i * PLACE_OCTETS] == free)
}

// Of place n and the one that was found before it: the one that came first.
fn earlier_of(image: &[u8; IMAGE_OCTETS], n: usize, found: Option<usize>) -> Option<usize>
    requires { (n < place_count) × ((i : ℕ) → found ≡ Some i → i < place_count) }
    ensures { result ≡ earlier (table_from image.now) n found }
{
    match found {
        Some(i)
            if image[i * PLACE_OCTETS + RECORD_OCTETS] <= image[n * PLACE_OCTETS + RECORD_OCTETS] =>
            { Some(i) }
        _ => Some(n),
    }
}

// The waiting place of a side that is served.
pub(crate) fn next_waiting(image: &[u8; IMAGE_OCTETS], a: Side) -> Option<usize>
    ensures { result ≡ next_waiting (table_from image.now) a }
{
    let waiting = u8::from(a.waiting());
    let mut found = None;
    for i in a.first()..a.end() {
        if image[i * PLACE_OCTETS] == waiting {
            found = earlier_of(image, i, found);
        }
    }
    found
}
