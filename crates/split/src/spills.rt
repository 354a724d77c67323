// The spill of a record, and split-and-spill.
ghost use Rattle.std.specs.Prelude.{◌≡◌, ℕ, ◌+◌, min, [], Some};
ghost use Rattle.rules.specs.declared.Strategy.TheVariants.{From};
ghost use Rattle.rules.specs.Slots as slots;
ghost use Rattle.rules.specs.Split as rule;
ghost use Rattle.store.specs.StateOf.{state_of};
ghost use Rattle.split.specs.Turns.{cutting, cutting_of, Held, HeldIn, Spilling, Spilt, DoesIn};

use crate::splits;
use rules::{Refusal, Strategy, Tables};
use store::{Counts, state};
use words::read;

// Record k goes to its virtual register's slot.
pub fn spill(intervals: &[u32], work: &mut [u32], cap: usize, counts: Counts, k: usize) -> Counts
    requires { Spilling cap intervals.now work.old counts k }
    ensures { Spilt cap intervals.now work.old work.new counts result k }
{
    let v = state::piece(work, cap, counts, k).interval as usize;
    let log_size = read::log_size_of(intervals[v * read::INTERVAL_WORDS]);
    state::spill(work, cap, counts, k, log_size)
}

// The spilled record is split at its next use from p, if any, and that is queued.
fn queue_tail(
    tables: &Tables,
    work: &mut [u32],
    cap: usize,
    counts: Counts,
    spilled: usize,
    p: u16,
) -> Result<Counts, Refusal>
    requires { Held cap tables.now.mentions.now tables.now.safepoints.now work.old counts spilled }
    ensures { DoesIn cap tables.now work.old work.new counts result (rule.queue_tail (cutting From [] tables.now.mentions.now tables.now.safepoints.now cap) (state_of cap work.old counts) spilled p) }
{
    let q = state::piece(work, cap, counts, spilled);
    let Some(n) = uses::mentions::next_use(tables.mentions, q.mentions, p) else {
        return Ok(counts);
    };
    splits::split_and_queue(tables, work, cap, counts, spilled, n)
}

// Record k is spilled, split at its next use from p, if any, and that is queued.
fn spill_tail(
    tables: &Tables,
    work: &mut [u32],
    cap: usize,
    counts: Counts,
    k: usize,
    p: u16,
) -> Result<Counts, Refusal>
    requires { HeldIn cap tables.now work.old counts k }
    ensures { DoesIn cap tables.now work.old work.new counts result (rule.queue_tail (cutting_of From tables.now cap) (slots.spill (cutting_of From tables.now cap) (state_of cap work.old counts) k) k p) }
{
    let spilt = spill(tables.intervals, work, cap, counts, k);
    queue_tail(tables, work, cap, spilt, k, p)
}

// Where a split after the last use u may begin: min(u+1, p).
fn after_use(u: u16, p: u16) -> u16
    ensures { result ≡ min (u + 1) p }
{
    u.saturating_add(1).min(p)
}

// Record k is split between its last use u and p, where the strategy says; the child is spilled, and its tail queued.
fn spill_after(
    strategy: Strategy,
    tables: &Tables,
    work: &mut [u32],
    cap: usize,
    counts: Counts,
    k: usize,
    p: u16,
    u: u16,
) -> Result<Counts, Refusal>
    requires { HeldIn cap tables.now work.old counts k }
    ensures { DoesIn cap tables.now work.old work.new counts result (rule.split_and_spill_by (cutting_of strategy tables.now cap) (state_of cap work.old counts) k p (Some u)) }
{
    let new = counts.records;
    if cap <= new {
        return Err(Refusal::NoRecord(k as u16));
    }
    let from = after_use(u, p);
    let at = uses::places::pick(strategy, from, p);
    let parted = splits::split(tables, work, cap, counts, k, at);
    spill_tail(tables, work, cap, parted, new, p)
}

// Split-and-spill at p: what lies before the last use at or before p stays, the rest goes to memory up to its next use.
pub fn split_and_spill(
    strategy: Strategy,
    tables: &Tables,
    work: &mut [u32],
    cap: usize,
    counts: Counts,
    k: usize,
    p: u16,
) -> Result<Counts, Refusal>
    requires { HeldIn cap tables.now work.old counts k }
    ensures { DoesIn cap tables.now work.old work.new counts result (rule.split_and_spill (cutting_of strategy tables.now cap) (state_of cap work.old counts) k p) }
{
    let q = state::piece(work, cap, counts, k);
    match uses::mentions::last_use(tables.mentions, q.mentions, p) {
        Some(u) => spill_after(strategy, tables, work, cap, counts, k, p, u),
        None => spill_tail(tables, work, cap, counts, k, p),
    }
}
