// A piece that goes to memory up to its next use.
ghost use Rattle.rules.specs.declared.Strategy.TheVariants.{From};
ghost use Rattle.store.specs.StateOf.{state_of};
ghost use Rattle.split.specs.Turns.{cutting_of, HeldIn, DoesIn, split_then_spill};

use crate::{spills, splits};
use rules::{Refusal, Tables};
use store::Counts;

// Record k is split at p, the child queued, and the record spilled.
pub fn split_then_spill(
    tables: &Tables,
    work: &mut [u32],
    cap: usize,
    counts: Counts,
    k: usize,
    p: u16,
) -> Result<Counts, Refusal>
    requires { HeldIn cap tables.now work.old counts k }
    ensures { DoesIn cap tables.now work.old work.new counts result (split_then_spill (cutting_of From tables.now cap) (state_of cap work.old counts) k p) }
{
    let parted = splits::split_and_queue(tables, work, cap, counts, k, p)?;
    Ok(spills::spill(tables.intervals, work, cap, parted, k))
}
