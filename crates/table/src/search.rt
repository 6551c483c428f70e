// Two calls, by value.

ghost use Rattle.std.specs.Prelude.{◌≡◌};
ghost use Rattle.table.specs.Search.{same_call};

use crate::{Call, Table};

// Two calls octet by octet, as long as they agree. The last octet comes first: calls of a site come from a few machines and share their leading octets
// (request Q-6). `a == b` reads all of both: that takes 39 instructions, and this 34 where the last octets differ.
// `lent::words` has this test for an image; as one function, by two words, both prove, but `parkline` takes more instructions (the counts are there).
#[tactic(auto, using(crate::proofs::Laws::same_past, crate::proofs::Calls::same_is))]
pub fn same_call(a: Call, b: Call) -> bool
    ensures { result ≡ same_call a b }
{
    for i in (0..Table::CALL_OCTETS).rev() {
        if a[i] != b[i] {
            return false;
        }
    }
    true
}
