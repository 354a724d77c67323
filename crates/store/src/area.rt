// The tables in, the records out.
ghost use Rattle.std.specs.Prelude.{◌≡◌, ℕ, ◌+◌, ◌*◌, ◌<◌, ◌≤◌, length};
ghost use Rattle.words.specs.Packed.{interval_count, record_row, record_words};
ghost use Rattle.rules.specs.Room.{capacity};
ghost use Rattle.rules.specs.State.{piece as piece_of};
ghost use Rattle.rules.specs.Call.{record_for, write_records, zero_records};
ghost use Rattle.store.specs.StateOf.{state_of, Ready, Whole, Loads, Filled, Loaded};

use crate::{Counts, cells, state};
use rules::{Piece, Place};
use words::{read, write};

const RECORD_WORDS: usize = 2;

// The piece of the whole interval v.
fn whole_interval(intervals: &[u32], v: usize) -> Piece
    requires v_bound { v < interval_count intervals.now }
    requires v_bound_2 { v < 4096 }
    ensures { Whole intervals.now v result }
{
    let i = read::interval_at(intervals, v);
    Piece {
        interval: v as u16,
        place: Place::Nowhere,
        start: i.start,
        end: i.end,
        mentions: i.mentions,
        safepoints: i.safepoints,
    }
}

// A piece and a home without a slot for each interval.
fn fill(intervals: &[u32], work: &mut [u32], cap: usize)
    requires { Loads cap intervals.now work.old }
    ensures { Filled cap intervals.now work.old work.new (interval_count intervals.now) }
{
    for k in 0..intervals.len() / read::INTERVAL_WORDS {
        cells::put_piece(work, cap, k, whole_interval(intervals, k));
        cells::put_home(work, cap, k, None);
    }
}

// The state that a run begins with: the intervals are the first records, all queued.
pub fn load(intervals: &[u32], work: &mut [u32], cap: usize) -> Counts
    requires { Loads cap intervals.now work.old }
    ensures { Loaded cap intervals.now work.old work.new result (interval_count intervals.now) }
{
    fill(intervals, work, cap);
    let n = intervals.len() / read::INTERVAL_WORDS;
    let mut counts = Counts {
        intervals: n,
        records: n,
        queued: 0,
        active: 0,
        total: 0,
    };
    for k in 0..n {
        counts = state::enqueue(work, cap, counts, k);
    }
    counts
}

// The result record of record k.
fn record_row(work: &[u32], cap: usize, counts: Counts, k: usize) -> [u32; 2]
    requires ready { Ready cap work.now counts }
    requires k_lt_records { k < counts.records }
    ensures { result ≡ record_row (record_for (piece_of (state_of cap work.now counts) k)) }
{
    let q = state::piece(work, cap, counts, k);
    write::record_row(cells::record_for(q))
}

// Writes the records; anything past them is left.
pub fn emit(work: &[u32], out: &mut [u32], cap: usize, counts: Counts)
    requires ready { Ready cap work.now counts }
    requires record_words_in_bounds { counts.records * record_words ≤ length out.old }
    ensures { out.new ≡ write_records (state_of cap work.now counts).pieces out.old }
{
    for k in 0..counts.records {
        let row = record_row(work, cap, counts, k);
        let b = k * RECORD_WORDS;
        out[b] = row[0];
        out[b + 1] = row[1];
    }
}

// Zeroes every whole record of capacity; an odd last word and anything past the capacity is left.
pub fn zero(out: &mut [u32], cap: usize)
    requires { cap ≡ capacity out.old }
    ensures { out.new ≡ zero_records out.old }
{
    out[..cap * RECORD_WORDS].fill(0);
}
