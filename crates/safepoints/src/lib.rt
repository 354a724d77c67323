// Step 5 in the work area: a reference piece in a register looks at its first safepoint. `maybe_handle_safepoints` of the Rust module, over document 01's definitions.
#![tactic(auto)]

ghost use Rattle.std.specs.Prelude.{◌≡◌, ℕ, ◌<◌};
ghost use Rattle.words.specs.Packed.{interval_count};
ghost use Rattle.rules.specs.declared.Strategy.TheVariants.{From};
ghost use Rattle.rules.specs.Steps.{handle_safepoints};
ghost use Rattle.rules.specs.State.{piece};
ghost use Rattle.store.specs.StateOf.{Ready, state_of};
ghost use Rattle.split.specs.Turns.{cutting_of, HeldIn, DoesIn};
ghost use Rattle.safepoints.specs.Safepoint.{looking, spill_to_next, at_safepoint, at_first};

use rules::{Place, Refusal, Strategy, Tables};
use split::{spilling, spills};
use store::{Counts, state};
use words::{points, read};

// The piece goes to memory up to its next use from p, if it has one.
fn spill_to_next(
    tables: &Tables,
    work: &mut [u32],
    cap: usize,
    counts: Counts,
    k: usize,
    p: u16,
) -> Result<Counts, Refusal>
    requires { HeldIn cap tables.now work.old counts k }
    ensures { DoesIn cap tables.now work.old work.new counts result (spill_to_next (cutting_of From tables.now cap) (state_of cap work.old counts) k p) }
{
    let q = state::piece(work, cap, counts, k);
    let Some(n) = uses::mentions::next_use(tables.mentions, q.mentions, p) else {
        return Ok(spills::spill(tables.intervals, work, cap, counts, k));
    };
    spilling::split_then_spill(tables, work, cap, counts, k, n)
}

// At safepoint x the piece is kept where its last use so far is the safepoint's own definition; else it is spilled before the safepoint.
fn keep_or_spill(
    strategy: Strategy,
    tables: &Tables,
    work: &mut [u32],
    cap: usize,
    counts: Counts,
    k: usize,
    x: u16,
) -> Result<Counts, Refusal>
    requires held_of { HeldIn cap tables.now work.old counts k }
    requires x_bound { x < 32768 }
    ensures { DoesIn cap tables.now work.old work.new counts result (at_safepoint (cutting_of strategy tables.now cap) (state_of cap work.old counts) k x) }
{
    let q = state::piece(work, cap, counts, k);
    let def = points::def_point(x);
    let Some(u) = uses::mentions::last_use(tables.mentions, q.mentions, def) else {
        return spill_to_next(tables, work, cap, counts, k, def);
    };
    if u == def {
        return Ok(counts);
    }
    spills::split_and_spill(strategy, tables, work, cap, counts, k, points::use_point(x))
}

// Record k looks at its first safepoint, if it has one.
fn at_first_safepoint(
    strategy: Strategy,
    tables: &Tables,
    work: &mut [u32],
    cap: usize,
    counts: Counts,
    k: usize,
) -> Result<Counts, Refusal>
    requires { HeldIn cap tables.now work.old counts k }
    ensures { DoesIn cap tables.now work.old work.new counts result (at_first (cutting_of strategy tables.now cap) (state_of cap work.old counts) k) }
{
    let q = state::piece(work, cap, counts, k);
    let Some(x) = uses::safepoints::first_safepoint(tables.safepoints, q.safepoints) else {
        return Ok(counts);
    };
    keep_or_spill(strategy, tables, work, cap, counts, k, x)
}

// Record k looks at its safepoints: it is of references, and in a register.
pub fn looks_at(intervals: &[u32], work: &[u32], cap: usize, counts: Counts, k: usize) -> bool
    requires ready { Ready cap work.now counts }
    requires k_lt_records { k < counts.records }
    requires intervals_value { counts.intervals ≡ interval_count intervals.now }
    ensures { result ≡ looking intervals.now (piece (state_of cap work.now counts) k) }
{
    let q = state::piece(work, cap, counts, k);
    matches!(q.place, Place::Register(_))
        && read::is_reference(intervals[q.interval as usize * read::INTERVAL_WORDS])
}

// A reference piece in a register looks at its first safepoint; any other stays as it is.
pub fn maybe_handle_safepoints(
    strategy: Strategy,
    tables: &Tables,
    work: &mut [u32],
    cap: usize,
    counts: Counts,
    k: usize,
) -> Result<Counts, Refusal>
    requires { HeldIn cap tables.now work.old counts k }
    ensures { DoesIn cap tables.now work.old work.new counts result (handle_safepoints (cutting_of strategy tables.now cap) (state_of cap work.old counts) k) }
{
    if looks_at(tables.intervals, work, cap, counts, k) {
        return at_first_safepoint(strategy, tables, work, cap, counts, k);
    }
    Ok(counts)
}
