// The ranks of the places passed so far, each with a mark, so that one which stands twice on a side is found at once.

ghost use Rattle.std.specs.Prelude.{◌≡◌, true, false, ◌+◌, ◌<◌, ◌&&◌, if◌then◌else◌, ◌==◌, slice_index, slice_set};
ghost use Rattle.table.specs.Places.{place_count};
ghost use Rattle.table.specs.Ranks.{rank_in, is_ranked};
ghost use Rattle.table.specs.Marks.{slot_of, is_fresh, with_mark, of_side};
ghost use Rattle.image.specs.Image.{table_from};
ghost use Rattle.lent.specs.Passed.{RanksEntered};

use crate::ranks;
use image::ranks::Calls;
use image::{IMAGE_OCTETS, PLACE_OCTETS, RECORD_OCTETS};
use table::Side;

#[derive(Drop)]
pub(crate) struct Marks {
    // how many calls either side has
    calls: Calls,
    // 256 octets for each side: 1 where a rank has its mark. Truth values would be no plainer: `!` for `== 0`.
    marked: [u8; 512],
}

impl Marks {
    pub(crate) fn none(image: &[u8; IMAGE_OCTETS]) -> Marks
        ensures { RanksEntered image.now 0 result }
    {
        Marks {
            calls: ranks::calls_in(image),
            marked: [0; 512],
        }
    }

    // Marks a rank of a side, and says whether it was not marked before.
    fn mark(&mut self, a: Side, rank: u8) -> bool
        ensures { (result ≡ (slice_index self.old.marked (slot_of a rank) == 0)) × (self.new ≡ record self.old { marked = slice_set self.old.marked (slot_of a rank) 1 }) }
    {
        let slot = a.index() as usize * 256 + rank as usize;
        let fresh = self.marked[slot] == 0;
        self.marked[slot] = 1;
        fresh
    }

    // May the next call of a side have this rank after those that are marked? If so, it is marked too.
    fn enter_rank(&mut self, a: Side, rank: u8) -> bool
        ensures { let fits = rank_in false (of_side a self.old.calls.positions self.old.calls.lines) rank in (result ≡ fits && is_fresh self.old.marked a rank) × (self.new ≡ record self.old { marked = (if fits then with_mark self.old.marked a rank else self.old.marked) }) }
    {
        if rank == 0 {
            return false;
        }
        if ranks::of_side(a, self.calls) < rank {
            return false;
        }
        self.mark(a, rank)
    }

    // Enters the rank of place i after the earlier ones, unless it may not stand there or one of them has it. A free place is told apart here and not
    // by the callee, so that the compiler joins this test to that of `place_fits`.
    pub(crate) fn enter(&mut self, image: &[u8; IMAGE_OCTETS], i: usize) -> bool
        requires { (i < place_count) × RanksEntered image.now i self.old }
        ensures entered { result ≡ true → RanksEntered image.now (i + 1) self.new }
        ensures unfit { result ≡ false → is_ranked (table_from image.now) ≡ false }
    {
        let at = i * PLACE_OCTETS;
        let rank = image[at + RECORD_OCTETS];
        if image[at] == 0 {
            return rank == 0;
        }
        self.enter_rank(Side::at(i), rank)
    }
}
