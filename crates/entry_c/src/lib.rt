// The static library for C (include/park.h): each export calls the function of `entry` of its name, with the same clauses. It is a crate of its own
// because nothing in Rattle can stand on a static library, and `order` stands on `entry`.
#![tactic(auto)]

ghost use Rattle.std.specs.Prelude.{◌≡◌};
ghost use Rattle.lines.specs.EventLine.{bad_field};
ghost use Rattle.entry.specs.Entry.{ParkStep};

#[unsafe(no_mangle)]
pub extern "C" fn park_step(image: &mut [u8], line: &[u8], answer: &mut [u8]) -> usize
    ensures { ParkStep image.old line.now answer.old result image.new answer.new }
{
    entry::park_step(image, line, answer)
}

// The first bad field of an event line, 1 to 7, or 0 where no single field is to blame.
#[unsafe(no_mangle)]
pub extern "C" fn park_bad_field(line: &[u8]) -> u8
    ensures { result ≡ bad_field line.now }
{
    entry::park_bad_field(line)
}
