// Step 1 in the work area: the active pieces that ended before a start, and those that were spilled since, are dropped; the others keep their order.
ghost use Rattle.std.specs.Prelude.{◌≡◌};
ghost use Rattle.store.specs.StateOf.{Ready};
ghost use Rattle.activity.specs.Ended.{Dropped, Movable, MovedUp, stays_at};

use rules::{Piece, Place};
use store::{Counts, cells};

// A piece that ends at the start is still active.
fn stays(q: Piece, start: u16) -> bool
    ensures { result ≡ stays_at start q }
{
    matches!(q.place, Place::Register(_)) && start <= q.end
}

// Active record i moves up to `kept`, if it stays.
fn moved_up(work: &mut [u32], cap: usize, i: usize, kept: usize, start: u16) -> usize
    requires { Movable cap work.old i kept }
    ensures { MovedUp cap work.old work.new i kept start result }
{
    let j = cells::active_at(work, cap, i);
    let q = cells::piece_at(work, cap, j);
    if stays(q, start) {
        cells::put_active(work, cap, kept, j);
        kept + 1
    } else {
        kept
    }
}

pub fn drop_ended(work: &mut [u32], cap: usize, counts: Counts, start: u16) -> Counts
    requires { Ready cap work.old counts }
    ensures { Dropped cap work.old work.new counts start result }
{
    let mut kept = 0;
    for i in 0..counts.active {
        kept = moved_up(work, cap, i, kept, start);
    }
    Counts {
        active: kept,
        ..counts
    }
}
