// Octets taken eight at a time: what makes the tests on an image quick. The low octet comes first, so that the compiler makes one load of a run; any
// order would do.

ghost use Rattle.std.specs.Prelude.{◌≡◌, ◌+◌, ◌≤◌, length, take, drop};
ghost use Rattle.table.specs.Places.{call_octets};
ghost use Rattle.table.specs.Search.{same_call};
ghost use Rattle.image.specs.Quick.{run_at};

use crate::octets;

// Of two widths, a line each: the types of the results differ.
pub(crate) fn quad(octets: &[u8], at: usize) -> u32
    requires { at + 4 ≤ length octets.now }
    ensures { result ≡ run_at 4 octets.now at }
{
    u32::from_le_bytes(octets::run(octets, at))
}

pub(crate) fn word(octets: &[u8], at: usize) -> u64
    requires { at + 8 ≤ length octets.now }
    ensures { result ≡ run_at 8 octets.now at }
{
    u64::from_le_bytes(octets::run(octets, at))
}

// Is the call at one index the call at another? From the far end, as in `table::search`: the last eight octets, and then the first eight. By the
// function there, octet by octet, `park_step` takes 8,137 instructions and not 7,038 (96 random calls). With the function there in two words of an array and
// a call of it on runs of sixteen octets here, both prove, but `parkline` takes 43.5 M instructions and not 41.7 M (24 calls), where it took 42.3 M before.
pub(crate) fn same_call(x: &[u8], a: usize, y: &[u8], b: usize) -> bool
    requires { (a + call_octets ≤ length x.now) × (b + call_octets ≤ length y.now) }
    ensures { result ≡ same_call (take call_octets (drop a x.now)) (take call_octets (drop b y.now)) }
{
    word(x, a + 8) == word(y, b + 8) && word(x, a) == word(y, b)
}
