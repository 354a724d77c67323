// The split of a record, and the child in the queue.
ghost use Rattle.std.specs.Prelude.{ℕ, ◌+◌, ◌<◌, []};
ghost use Rattle.rules.specs.declared.Strategy.TheVariants.{From};
ghost use Rattle.rules.specs.Split.{split_and_queue};
ghost use Rattle.store.specs.StateOf.{state_of};
ghost use Rattle.split.specs.Turns.{cutting, Held, Halved, HalvesPut, Parted, DoesIn};

use rules::{Refusal, Tables};
use store::{Counts, state};
use uses::Halves;

// The parent takes the record's place, and the child is a new record.
fn put_halves(work: &mut [u32], cap: usize, counts: Counts, k: usize, halves: Halves) -> Counts
    requires { Halved cap work.old counts k halves }
    ensures { HalvesPut cap work.old work.new counts result k halves }
{
    state::set_piece(work, cap, counts, k, halves.parent);
    state::append(work, cap, counts, halves.child)
}

// Record k is split at p; the child is a new record, for which there is room.
pub fn split(
    tables: &Tables,
    work: &mut [u32],
    cap: usize,
    counts: Counts,
    k: usize,
    p: u16,
) -> Counts
    requires held { Held cap tables.now.mentions.now tables.now.safepoints.now work.old counts k }
    requires records_lt_cap { counts.records < cap }
    ensures { Parted cap tables.now.mentions.now tables.now.safepoints.now work.old work.new counts result k p }
{
    let q = state::piece(work, cap, counts, k);
    let halves = uses::cuts::cut(tables.mentions, tables.safepoints, q, p);
    put_halves(work, cap, counts, k, halves)
}

// Record k is split at p and the child is queued; 10 where all records are used. (Neither the strategy nor the intervals are read.)
pub fn split_and_queue(
    tables: &Tables,
    work: &mut [u32],
    cap: usize,
    counts: Counts,
    k: usize,
    p: u16,
) -> Result<Counts, Refusal>
    requires { Held cap tables.now.mentions.now tables.now.safepoints.now work.old counts k }
    ensures { DoesIn cap tables.now work.old work.new counts result (split_and_queue (cutting From [] tables.now.mentions.now tables.now.safepoints.now cap) (state_of cap work.old counts) k p) }
{
    let new = counts.records;
    if cap <= new {
        return Err(Refusal::NoRecord(k as u16));
    }
    let parted = split(tables, work, cap, counts, k, p);
    Ok(state::enqueue(work, cap, parted, new))
}
