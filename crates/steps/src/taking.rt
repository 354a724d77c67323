// A register is taken: from nobody, or from its holder.
ghost use Rattle.rules.specs.declared.Pos.TheVariants.{At};
ghost use Rattle.rules.specs.Steps.{take_register, cut_at, cut_before, spill_holder};
ghost use Rattle.store.specs.StateOf.{state_of};
ghost use Rattle.split.specs.Turns.{cutting_of, DoesIn, HeldIn};
ghost use Rattle.steps.specs.Stepping.{DidIn, Holding, placing_of, PoppingIn, take_over_at, TakesOver, Taking, Took};

use rules::{Mode, Place, Pos, Refusal, Tables};
use split::{spills, splits};
use store::{Counts, state};

// Record k takes register r, and is active.
pub(crate) fn take_register(
    work: &mut [u32],
    cap: usize,
    counts: Counts,
    k: usize,
    r: u16,
) -> Counts
    requires { Taking cap work.old counts k }
    ensures { Took cap work.old work.new counts result k r }
{
    state::put_place(work, cap, counts, k, Place::Register(r));
    state::push_active(work, cap, counts, k)
}

// The piece that took a register is cut before its first fragment start b, in part or by split-and-spill.
fn cut_at(
    mode: Mode,
    tables: &Tables,
    work: &mut [u32],
    cap: usize,
    counts: Counts,
    k: usize,
    b: u16,
    place: Option<u16>,
) -> Result<Counts, Refusal>
    requires { HeldIn cap tables.now work.old counts k }
    ensures { DoesIn cap tables.now work.old work.new counts result (cut_at (placing_of mode tables.now cap) (state_of cap work.old counts) k b place) }
{
    match place {
        Some(p) => splits::split_and_queue(tables, work, cap, counts, k, p),
        None => spills::split_and_spill(mode.strategy, tables, work, cap, counts, k, b),
    }
}

// 13 where the piece has a mention at b, its register's first fragment start.
fn clash_or_cut(
    mode: Mode,
    tables: &Tables,
    work: &mut [u32],
    cap: usize,
    counts: Counts,
    k: usize,
    b: u16,
) -> Result<Counts, Refusal>
    requires { HeldIn cap tables.now work.old counts k }
    ensures { DoesIn cap tables.now work.old work.new counts result (cut_before (placing_of mode tables.now cap) (state_of cap work.old counts) k (At b)) }
{
    let q = state::piece(work, cap, counts, k);
    if uses::mentions::is_mention_point(tables.mentions, q.mentions, b) {
        return Err(Refusal::FixedClash(k as u16));
    }
    let place = uses::places::partial_place(mode, q.start, tables.mentions, q.mentions, b);
    cut_at(mode, tables, work, cap, counts, k, b, place)
}

// The piece that took a register ends before its first fragment start, if it has one.
fn cut_before(
    mode: Mode,
    tables: &Tables,
    work: &mut [u32],
    cap: usize,
    counts: Counts,
    k: usize,
    block: Pos,
) -> Result<Counts, Refusal>
    requires { HeldIn cap tables.now work.old counts k }
    ensures { DoesIn cap tables.now work.old work.new counts result (cut_before (placing_of mode tables.now cap) (state_of cap work.old counts) k block) }
{
    match block {
        Pos::Blocked | Pos::Never => Ok(counts),
        Pos::At(b) => clash_or_cut(mode, tables, work, cap, counts, k, b),
    }
}

// The piece that held the register is spilled from the start of the one that took it.
fn spill_holder(
    mode: Mode,
    tables: &Tables,
    work: &mut [u32],
    cap: usize,
    counts: Counts,
    start: u16,
    holder: Option<u16>,
) -> Result<Counts, Refusal>
    requires { Holding cap tables.now.intervals.now tables.now.mentions.now tables.now.safepoints.now work.old counts holder }
    ensures { DoesIn cap tables.now work.old work.new counts result (spill_holder (cutting_of mode.strategy tables.now cap) (state_of cap work.old counts) start holder) }
{
    match holder {
        None => Ok(counts),
        Some(h) => spills::split_and_spill(
            mode.strategy,
            tables,
            work,
            cap,
            counts,
            h as usize,
            start,
        ),
    }
}

// Record k takes register r, and is cut before the register's first fragment start.
fn take_and_cut(
    mode: Mode,
    tables: &Tables,
    work: &mut [u32],
    cap: usize,
    counts: Counts,
    k: usize,
    r: u16,
    block: Pos,
) -> Result<Counts, Refusal>
    requires { PoppingIn cap tables.now work.old counts k }
    ensures { DidIn cap tables.now work.old work.new counts result (cut_before (placing_of mode tables.now cap) (take_register (state_of cap work.old counts) k r) k block) }
{
    let taken = take_register(work, cap, counts, k, r);
    cut_before(mode, tables, work, cap, taken, k, block)
}

// Record k takes register r, is cut before the register's first fragment start, and the piece that held it is spilled.
pub(crate) fn take_over(
    mode: Mode,
    tables: &Tables,
    work: &mut [u32],
    cap: usize,
    counts: Counts,
    k: usize,
    r: u16,
    start: u16,
    block: Pos,
    holder: Option<u16>,
) -> Result<Counts, Refusal>
    requires { TakesOver cap tables.now.intervals.now tables.now.mentions.now tables.now.safepoints.now work.old counts k start holder }
    ensures { DidIn cap tables.now work.old work.new counts result (take_over_at (placing_of mode tables.now cap) (state_of cap work.old counts) k r block holder) }
{
    let cut = take_and_cut(mode, tables, work, cap, counts, k, r, block)?;
    spill_holder(mode, tables, work, cap, cut, start, holder)
}
