// What C calls, by way of `entry_c`: the line at the image, with its answer written as a line; and a query on a line alone. What the first leaves
// in each buffer is defined in specs/, from document 01's "Lines, image, status"; the query is that of `lines`.
#![tactic(auto)]

ghost use Rattle.std.specs.Prelude.{◌≡◌};
ghost use Rattle.lines.specs.EventLine.{bad_field};
ghost use Rattle.entry.specs.Entry.{ParkStep};

pub fn park_step(image: &mut [u8], line: &[u8], answer: &mut [u8]) -> usize
    ensures { ParkStep image.old line.now answer.old result image.new answer.new }
{
    if answer.len() < lines::ANSWER_ROOM {
        return 0;
    }
    let a = lent::answer_line(image, line);
    lines::write_answer(a, answer)
}

// The first bad field of an event line, 1 to 7, or 0 where no single field is to blame.
pub fn park_bad_field(line: &[u8]) -> u8
    ensures { result ≡ bad_field line.now }
{
    lines::bad_field(line)
}
