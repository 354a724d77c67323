// Steps 2 to 5 for the popped record. Steps 2 and 3 are apart from step 4, which few pops come to: what it reads would be copied for each pop if it were passed through them.
ghost use Rattle.std.specs.Prelude.{ℕ, ◌+◌, ◌≤◌, None};
ghost use Rattle.rules.specs.Steps.{furthest};
ghost use Rattle.choice.specs.Row.{pos_in};
ghost use Rattle.store.specs.StateOf.{state_of};
ghost use Rattle.steps.specs.Stepping.{stepping_of, PartingIn, SteppingIn, Tries, DidIn};
ghost use Rattle.assign.specs.Looping.{Takes, Looking, Past, Finishing, Finished, Settling, contended};

use crate::Front;
use activity::{REGISTERS, Tracker};
use choice::positions;
use rules::{Mode, Pos, Refusal, Strategy, Tables};
use steps::{allocate, blocked};
use store::Counts;

// The furthest register of the row is tried.
fn take(
    mode: Mode,
    tables: &Tables,
    work: &mut [u32],
    cap: usize,
    f: Front,
    row: [Pos; REGISTERS],
) -> Option<Result<Counts, Refusal>>
    requires parting { PartingIn cap tables.now work.old f.counts f.record }
    requires count_bound { f.class.first + f.class.count ≤ 64 }
    ensures { Tries cap mode tables.now.mentions.now tables.now.safepoints.now work.old work.new f.counts f.record (furthest (pos_in row) f.class.scratch f.class.first f.class.count None) result }
{
    let class = f.class;
    let choice = positions::furthest_of(
        row,
        class.first as usize,
        class.count as usize,
        class.scratch as usize,
    );
    allocate::try_allocate_reg(mode, tables, work, cap, f.counts, f.record, choice)
}

// Step 5, where steps 2 to 4 went on.
fn finish(
    strategy: Strategy,
    tables: &Tables,
    work: &mut [u32],
    cap: usize,
    k: usize,
    taken: Result<Counts, Refusal>,
) -> Result<Counts, Refusal>
    requires { Finishing cap tables.now.intervals.now tables.now.mentions.now tables.now.safepoints.now work.old k taken }
    ensures { Finished cap strategy tables.now.intervals.now tables.now.mentions.now tables.now.safepoints.now work.old work.new k taken result }
{
    let after = taken?;
    safepoints::maybe_handle_safepoints(strategy, tables, work, cap, after, k)
}

// Nothing is left for step 5 to do.
fn past(
    intervals: &[u32],
    work: &[u32],
    cap: usize,
    k: usize,
    taken: Result<Counts, Refusal>,
) -> bool
    requires { Looking cap intervals.now work.now k taken }
    ensures { Past cap intervals.now work.now k taken result }
{
    match taken {
        Ok(after) => !safepoints::looks_at(intervals, work, cap, after, k),
        Err(_) => true,
    }
}

// Steps 2, 3 and 5; or step 4 is due.
pub(crate) fn settle(
    mode: Mode,
    tables: &Tables,
    work: &mut [u32],
    cap: usize,
    f: Front,
    row: [Pos; REGISTERS],
) -> Option<Result<Counts, Refusal>>
    requires { Takes cap tables.now.intervals.now tables.now.mentions.now tables.now.safepoints.now work.old f }
    ensures { Settling cap mode tables.now.intervals.now tables.now.mentions.now tables.now.safepoints.now work.old work.new f row result }
{
    let taken = take(mode, tables, work, cap, f, row)?;
    // asked here, so that most pops go on without a call
    if past(tables.intervals, work, cap, f.record, taken) {
        return Some(taken);
    }
    Some(finish(mode.strategy, tables, work, cap, f.record, taken))
}

// Steps 4 and 5.
pub(crate) fn contend(
    mode: Mode,
    tables: &Tables,
    work: &mut [u32],
    cap: usize,
    f: Front,
    tracker: Tracker,
) -> Result<Counts, Refusal>
    requires { SteppingIn cap tables.now work.old f.counts tracker f.record }
    ensures { DidIn cap tables.now work.old work.new f.counts result (contended (stepping_of mode tables.now cap) (state_of cap work.old f.counts) f.record) }
{
    let taken = blocked::allocate_blocked_reg(mode, tables, work, cap, f.counts, tracker, f.record);
    finish(mode.strategy, tables, work, cap, f.record, taken)
}
