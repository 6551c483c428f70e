// The status query: free positions and lines, waiting calls, running timers.

ghost use Rattle.std.specs.Prelude.{◌≡◌, ◌&&◌, if◌then◌else◌, count_ones};
ghost use Rattle.table.specs.Places.{is_free, same_side};
ghost use Rattle.table.specs.Timers.{timer_set};
ghost use Rattle.table.specs.Status.{waits_in, tally_of, status_of, status_said};
ghost use Rattle.image.specs.Image.{table_from};

use crate::{places, sound};
use image::{IMAGE_OCTETS, PLACE_OCTETS};
use table::status::Status;
use table::{Side, State, Table, Unsound, timers};

// 1 where a place of side `a` in state `s` is free and on side `b`.
fn free_on(b: Side, a: Side, s: State) -> u32
    ensures { result ≡ (if same_side a b && is_free s then 1 else 0) }
{
    if a == b && s.is_free() { 1 } else { 0 }
}

fn waits_in(s: State) -> u32
    ensures { result ≡ waits_in s }
{
    match s {
        State::ParkWaiting | State::LineWaiting => 1,
        _ => 0,
    }
}

fn running_in(a: Side, s: State) -> u32
    ensures { result ≡ count_ones (timer_set a s) }
{
    timers::timer_set(a, s).count_ones()
}

// The four sums over the places of an image.
fn tally(image: &[u8; IMAGE_OCTETS]) -> Status
    ensures { result ≡ tally_of (table_from image.now) }
{
    let mut sums = Status::default();
    for i in 0..Table::PLACES {
        let a = Side::at(i);
        let s = State::of(image[i * PLACE_OCTETS]);
        sums.positions += free_on(Side::Position, a, s);
        sums.lines += free_on(Side::Line, a, s);
        sums.waiting += waits_in(s);
        sums.timers += running_in(a, s);
    }
    sums
}

// The status of a sound table; any other is refused.
pub fn status_of(t: Table) -> Result<Status, Unsound>
    ensures { result ≡ status_of t }
{
    let octets = places::octets_of(t);
    if sound::places_sound(&octets) {
        Ok(tally(&octets))
    } else {
        Err(Unsound)
    }
}

// The status that is said of any table: four zeros of one that is refused.
pub fn status_said(t: Table) -> Status
    ensures { result ≡ status_said t }
{
    status_of(t).unwrap_or_default()
}
