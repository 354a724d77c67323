// The state of `rules` in the work area: each function is one of its operations.
ghost use Rattle.std.specs.Prelude.{◌≡◌, [], ◌∷◌, ◌++◌, ℕ, ◌+◌, ◌*◌, ◌^◌, ◌<◌, ◌≤◌, get_or, set, None, Some};
ghost use Rattle.rules.specs.State.{with_pieces, with_active, with_homes, piece as piece_of, put, enqueue as enqueued};
ghost use Rattle.rules.specs.Slots.{spill_to};
ghost use Rattle.store.specs.StateOf.{state_of, spilled_in, Ready, After, Got, PutInto, GotActive, PoppedAs, HomeOf, Homeless, Size, Rounded};

use crate::{Counts, Popped, cells};
use rules::{Piece, Place};

// Keys order by start, then by record.
const RECORDS: u32 = 16384;

// Record k's piece.
pub fn piece(work: &[u32], cap: usize, counts: Counts, k: usize) -> Piece
    requires ready { Ready cap work.now counts }
    requires k_lt_records { k < counts.records }
    ensures { Got cap work.now counts k result }
{
    cells::piece_at(work, cap, k)
}

// The active record at i.
pub fn active_at(work: &[u32], cap: usize, counts: Counts, i: usize) -> usize
    requires ready { Ready cap work.now counts }
    requires i_lt_active { i < counts.active }
    ensures { GotActive cap work.now counts i result }
{
    cells::active_at(work, cap, i)
}

// Record k's piece becomes q.
pub fn set_piece(work: &mut [u32], cap: usize, counts: Counts, k: usize, q: Piece)
    requires ready { Ready cap work.old counts }
    requires k_lt_records { k < counts.records }
    requires interval_lt_intervals { q.interval < counts.intervals }
    ensures { After cap work.old work.new counts counts (with_pieces (set (state_of cap work.old counts).pieces k q) (state_of cap work.old counts)) counts.records counts.queued counts.active }
{
    cells::put_piece(work, cap, k, q);
}

fn placed(q: Piece, place: Place) -> Piece
    ensures { PutInto place q result }
{
    Piece { place, ..q }
}

// Record k is put into a place.
pub fn put_place(work: &mut [u32], cap: usize, counts: Counts, k: usize, place: Place)
    requires ready { Ready cap work.old counts }
    requires k_lt_records { k < counts.records }
    ensures { After cap work.old work.new counts counts (put (state_of cap work.old counts) k place) counts.records counts.queued counts.active }
{
    let q = piece(work, cap, counts, k);
    set_piece(work, cap, counts, k, placed(q, place));
}

// A new record.
pub fn append(work: &mut [u32], cap: usize, counts: Counts, q: Piece) -> Counts
    requires ready { Ready cap work.old counts }
    requires records_lt_cap { counts.records < cap }
    requires interval_lt_intervals { q.interval < counts.intervals }
    ensures { After cap work.old work.new counts result (with_pieces ((state_of cap work.old counts).pieces ++ (q ∷ [])) (state_of cap work.old counts)) (counts.records + 1) counts.queued counts.active }
{
    cells::put_piece(work, cap, counts.records, q);
    Counts {
        records: counts.records + 1,
        ..counts
    }
}

// Record k is queued.
pub fn enqueue(work: &mut [u32], cap: usize, counts: Counts, k: usize) -> Counts
    requires ready { Ready cap work.old counts }
    requires k_lt_records { k < counts.records }
    requires active_bound { counts.queued + counts.active < counts.records }
    ensures { After cap work.old work.new counts result (enqueued (state_of cap work.old counts) k) counts.records (counts.queued + 1) counts.active }
{
    let q = piece(work, cap, counts, k);
    let key = q.start as u32 * RECORDS + k as u32;
    cells::push_key(work, cap, counts.queued, key);
    Counts {
        queued: counts.queued + 1,
        ..counts
    }
}

// The first of the queue, of which there is one.
pub fn pop(work: &mut [u32], cap: usize, counts: Counts) -> Popped
    requires ready { Ready cap work.old counts }
    requires queued_nonzero { 0 < counts.queued }
    ensures { PoppedAs cap work.old work.new counts result }
{
    let key = cells::pop_key(work, cap, counts.queued);
    let left = Counts {
        queued: counts.queued - 1,
        ..counts
    };
    Popped {
        record: (key % RECORDS) as usize,
        counts: left,
    }
}

// Record k is active.
pub fn push_active(work: &mut [u32], cap: usize, counts: Counts, k: usize) -> Counts
    requires ready { Ready cap work.old counts }
    requires k_lt_records { k < counts.records }
    requires active_bound { counts.queued + counts.active < counts.records }
    ensures { After cap work.old work.new counts result (with_active ((state_of cap work.old counts).active ++ (k ∷ [])) (state_of cap work.old counts)) counts.records counts.queued (counts.active + 1) }
{
    cells::put_active(work, cap, counts.active, k);
    Counts {
        active: counts.active + 1,
        ..counts
    }
}

// Sizes 1, 2, 4, 8.
fn size_of(log: u16) -> u32
    requires { log < 4 }
    ensures { Size log result }
{
    1 << log
}

// The total rounded up to a multiple of the size. Nothing is divided.
fn round_up(total: u32, log: u16) -> u32
    requires total_bound { total ≤ 32760 }
    requires log_bound { log < 4 }
    ensures { Rounded total log result }
{
    (total + size_of(log) - 1) >> log << log
}

// Virtual register v is given its slot.
fn give_home(
    work: &mut [u32],
    cap: usize,
    counts: Counts,
    v: usize,
    slot: u16,
    total: u32,
) -> Counts
    requires ready { Ready cap work.old counts }
    requires v_lt_intervals { v < counts.intervals }
    requires v_value { get_or (state_of cap work.old counts).homes v None ≡ None }
    requires total_bound { total ≤ 8 * spilled_in (state_of cap work.old counts).homes + 8 }
    ensures { After cap work.old work.new counts result (with_homes (set (state_of cap work.old counts).homes v (Some slot)) total (state_of cap work.old counts)) counts.records counts.queued counts.active }
{
    cells::put_home(work, cap, v, Some(slot));
    Counts { total, ..counts }
}

// The first spill of virtual register v, record k's.
fn first_spill(work: &mut [u32], cap: usize, counts: Counts, k: usize, v: usize, log: u16) -> Counts
    requires ready { Ready cap work.old counts }
    requires k_lt_records { k < counts.records }
    requires log_bound { log < 4 }
    requires homeless { Homeless cap work.old counts k v }
    ensures { After cap work.old work.new counts result (spill_to (state_of cap work.old counts) k (2 ^ log) None) counts.records counts.queued counts.active }
{
    let rounded = round_up(counts.total, log);
    let slot = rounded as u16;
    let total = rounded + size_of(log);
    let given = give_home(work, cap, counts, v, slot, total);
    put_place(work, cap, given, k, Place::Slot(slot));
    given
}

// Spill record k: at its virtual register's first spill the next slot, later the same one.
pub fn spill(work: &mut [u32], cap: usize, counts: Counts, k: usize, log: u16) -> Counts
    requires ready { Ready cap work.old counts }
    requires k_lt_records { k < counts.records }
    requires log_bound { log < 4 }
    ensures { After cap work.old work.new counts result (spill_to (state_of cap work.old counts) k (2 ^ log) (get_or (state_of cap work.old counts).homes (piece_of (state_of cap work.old counts) k).interval None)) counts.records counts.queued counts.active }
{
    let v = piece(work, cap, counts, k).interval as usize;
    match cells::home_at(work, cap, v) {
        None => first_spill(work, cap, counts, k, v, log),
        Some(slot) => {
            put_place(work, cap, counts, k, Place::Slot(slot));
            counts
        }
    }
}
