// The next record of the queue, step 1, and what step 2 looks at.
ghost use Rattle.std.specs.Prelude.{◌≡◌, ℕ, ◌<◌};
ghost use Rattle.words.specs.Packed.{interval_at, interval_count};
ghost use Rattle.rules.specs.State.{piece as piece_of};
ghost use Rattle.store.specs.StateOf.{Ready, state_of};
ghost use Rattle.choice.specs.Holding.{FreeRow};
ghost use Rattle.assign.specs.Looping.{Started, Turning, Fronted, Trackable, tracked_to, Faces};

use crate::{Front, Start};
use activity::{REGISTERS, Tracker, ended};
use choice::held;
use rules::{Pos, Tables};
use store::{Counts, state};
use words::read;

// The record with the lowest start is popped, and what ended before it is dropped.
fn start_of(work: &mut [u32], cap: usize, counts: Counts) -> Start
    requires ready { Ready cap work.old counts }
    requires queued_nonzero { 0 < counts.queued }
    ensures { Started cap work.old work.new counts result }
{
    let popped = state::pop(work, cap, counts);
    let q = state::piece(work, cap, popped.counts, popped.record);
    Start {
        record: popped.record,
        interval: q.interval as usize,
        start: q.start,
        counts: ended::drop_ended(work, cap, popped.counts, q.start),
    }
}

// The class of interval v, by number.
fn class_index(intervals: &[u32], v: usize) -> usize
    requires { v < interval_count intervals.now }
    ensures { result ≡ (interval_at intervals.now v).class }
{
    read::class_of(intervals[v * read::INTERVAL_WORDS]) as usize
}

// The next record, with its class.
pub(crate) fn front(tables: &Tables, work: &mut [u32], cap: usize, counts: Counts) -> Front
    requires turning { Turning cap tables.now.classes.now tables.now.intervals.now work.old counts }
    requires queued_nonzero { 0 < counts.queued }
    ensures { Fronted cap tables.now.classes.now tables.now.intervals.now work.old work.new counts result }
{
    let begun = start_of(work, cap, counts);
    let index = class_index(tables.intervals, begun.interval);
    Front {
        record: begun.record,
        index,
        class: read::class_at(tables.classes, index),
        start: begun.start,
        counts: begun.counts,
    }
}

// The tracker moves to the record's start.
pub(crate) fn track(tables: &Tables, tracker: &mut Tracker, f: Front)
    requires { Trackable tables.now.registers.now tables.now.fragments.now tracker.old f }
    ensures { tracker.new ≡ tracked_to tables.now.registers.now tables.now.fragments.now tracker.old f }
{
    activity::update(
        tracker,
        tables.registers,
        tables.fragments,
        f.class.first as usize,
        f.class.count as usize,
        f.start,
        f.counts.active as u16,
    );
}

// Step 2: the free-until positions of the record's class, in place of those in its row.
pub(crate) fn free_row(
    row: [Pos; REGISTERS],
    tables: &Tables,
    work: &[u32],
    cap: usize,
    f: Front,
    tracker: Tracker,
) -> [Pos; REGISTERS]
    requires { Faces cap tables.now.registers.now tables.now.fragments.now work.now f tracker }
    ensures { FreeRow tables.now.registers.now tables.now.fragments.now (state_of cap work.now f.counts) (piece_of (state_of cap work.now f.counts) f.record) f.class.first f.class.count result }
{
    let q = state::piece(work, cap, f.counts, f.record);
    held::free_until(
        row,
        work,
        cap,
        f.counts,
        tracker,
        tables.registers,
        tables.fragments,
        f.class,
        q,
    )
}
