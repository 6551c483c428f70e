// What runs: the table kept as its image, in octets that the caller lends. No table is copied: an event is for one place, and only the octets of
// that place are read and written, and ranks of its side where a call begins or ends. What comes of a line is defined in specs/Lent.antt, by the
// machine's own definition. A table by value is stepped, tested and written in the same way, at its image in an array of its own.
//
// Whatever acts on an image without a test of it asks something of it and is the crate's own. A public function tests first.
#![tactic(auto)]

mod aim;
mod buckets;
mod marks;
mod octets;
pub mod places;
mod ranks;
mod search;
pub mod session;
mod sound;
pub mod status;
mod words;

ghost use Rattle.std.specs.Prelude.{◌≡◌, ◌<◌, true, length};
ghost use Rattle.table.specs.Places.{place_count};
ghost use Rattle.events.specs.Rule.{rule_of};
ghost use Rattle.step.specs.Aim.{aim};
ghost use Rattle.step.specs.Step.{step_of};
ghost use Rattle.image.specs.Image.{image_octets, table_from, is_sound_image};
ghost use Rattle.lent.specs.Lent.{AnswersLine, CarriesOut, ActsAt};

use events::refusal::Refusal;
use events::{Answer, Event, answers};
use image::IMAGE_OCTETS;
use step::Step;
use table::{Table, Unsound};

// The event at the index that it is for.
fn act_at(image: &mut [u8; IMAGE_OCTETS], i: usize, e: Event) -> Answer
    requires { i < place_count }
    ensures { ActsAt image.old e i result image.new }
{
    let a = events::act(e, i, octets::read_record(image, i));
    if a.answer.number == 0 {
        places::put_place(image, i, a.after);
    }
    a.answer
}

// An event at an image, which may be one of a table that is not sound: that is for the caller to know.
fn act_on(image: &mut [u8; IMAGE_OCTETS], e: Event) -> Answer
    ensures { CarriesOut image.old e (aim (rule_of e.kind) (table_from image.old) e) result image.new }
{
    match aim::aim_of(image, e) {
        Ok(i) => act_at(image, i, e),
        Err(w) => answers::decline(e, w),
    }
}

// THE STEP. Any table and any event have an answer: a table that is not sound is refused by 25, and the event then by 1 to 12
// or not at all.
pub fn single_step(t: Table, e: Event) -> Step
    ensures { result ≡ step_of t e }
{
    let mut octets = places::octets_of(t);
    if sound::places_sound(&octets) {
        let answer = act_on(&mut octets, e);
        Step {
            table: places::read_places(&octets),
            answer,
        }
    } else {
        Step {
            table: t,
            answer: answers::decline(e, Refusal::TableUnsound),
        }
    }
}

// A line at the image of a sound table.
pub(crate) fn step_line(image: &mut [u8; IMAGE_OCTETS], line: &[u8]) -> Answer
    requires { is_sound_image image.old ≡ true }
    ensures { AnswersLine image.old line.now result image.new }
{
    match lines::read_event(line) {
        Ok(e) => act_on(image, e),
        Err(bad) => answers::only_number(u8::from(bad)),
    }
}

// A line at an image that may be any: refused by 25 where it is not one of a sound table.
pub fn answer_line(image: &mut [u8], line: &[u8]) -> Answer
    ensures { AnswersLine image.old line.now result image.new }
{
    match image.as_mut_array() {
        Some(image) if sound::places_sound(image) => step_line(image, line),
        _ => answers::only_number(u8::from(Unsound)),
    }
}
