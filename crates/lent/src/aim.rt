// Which place of an image an event is for: what the event looks for (`events::sought`), found in the octets.

ghost use Rattle.std.specs.Prelude.{◌≡◌};
ghost use Rattle.events.specs.Rule.{rule_of};
ghost use Rattle.step.specs.Aim.{is_proposed, chosen, aim_new, aim};
ghost use Rattle.image.specs.Image.{table_from};

use crate::{octets, search};
use events::refusal::Refusal;
use events::sought::Sought;
use events::{Event, sought};
use image::IMAGE_OCTETS;
use table::{Place, Side};

fn is_proposed(image: &[u8; IMAGE_OCTETS], d: Side, p: Place) -> bool
    ensures { result ≡ is_proposed (table_from image.now) d p }
{
    p.is_on(d)
        && octets::read_record(image, (p.0 - 1) as usize)
            .state
            .is_free()
}

// The proposed place, or the lowest free one.
fn choose(image: &[u8; IMAGE_OCTETS], d: Side, p: Place) -> Option<usize>
    ensures { result ≡ chosen (table_from image.now) d p }
{
    if is_proposed(image, d, p) {
        Some((p.0 - 1) as usize)
    } else {
        search::lowest_free(image, d)
    }
}

// A park or an alert.
fn aim_new(image: &[u8; IMAGE_OCTETS], d: Side, e: Event) -> Result<usize, Refusal>
    ensures { result ≡ aim_new d (table_from image.now) e }
{
    match search::find_call(image, &e.call) {
        Some(_) => Err(Refusal::CallHeld),
        None => choose(image, d, e.place).ok_or(Refusal::SideFull),
    }
}

// The index, or the refusal where there is none.
pub(crate) fn aim_of(image: &[u8; IMAGE_OCTETS], e: Event) -> Result<usize, Refusal>
    ensures { result ≡ aim (rule_of e.kind) (table_from image.now) e }
{
    match sought::sought_of(e)? {
        Sought::Held => search::find_call(image, &e.call).ok_or(Refusal::CallNotHeld),
        Sought::Waiting(a) => search::next_waiting(image, a).ok_or(Refusal::NothingWaits),
        Sought::Room(d) => aim_new(image, d, e),
    }
}
