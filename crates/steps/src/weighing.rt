// Step 4's weighing: the furthest next use is stolen from, or the piece itself goes to memory.
ghost use Rattle.rules.specs.declared.Strategy.TheVariants.{From};
ghost use Rattle.rules.specs.Steps.{holder, spill_until};
ghost use Rattle.store.specs.StateOf.{state_of};
ghost use Rattle.choice.specs.Row.{pos_in};
ghost use Rattle.split.specs.Turns.{cutting_of, DoesIn, HeldIn};
ghost use Rattle.steps.specs.Stepping.{Chosen, DidIn, placing_of, PoppingIn, take_over_at, weigh_by};

use crate::{holders, taking};
use activity::REGISTERS;
use rules::{Mode, Pos, Refusal, RegPos, Tables};
use split::spilling;
use store::{Counts, state};

// 12 where the first use f is the start, else the piece is spilled up to it.
fn spill_until(
    tables: &Tables,
    work: &mut [u32],
    cap: usize,
    counts: Counts,
    k: usize,
    f: u16,
) -> Result<Counts, Refusal>
    requires { HeldIn cap tables.now work.old counts k }
    ensures { DoesIn cap tables.now work.old work.new counts result (spill_until (cutting_of From tables.now cap) (state_of cap work.old counts) k f) }
{
    let q = state::piece(work, cap, counts, k);
    if f == q.start {
        return Err(Refusal::OutOfRegisters(k as u16));
    }
    spilling::split_then_spill(tables, work, cap, counts, k, f)
}

// Register r is taken from its holder; b is its first fragment start.
fn steal(
    mode: Mode,
    tables: &Tables,
    work: &mut [u32],
    cap: usize,
    counts: Counts,
    k: usize,
    r: u16,
    b: Pos,
) -> Result<Counts, Refusal>
    requires { PoppingIn cap tables.now work.old counts k }
    ensures { DidIn cap tables.now work.old work.new counts result (take_over_at (placing_of mode tables.now cap) (state_of cap work.old counts) k r b (holder (state_of cap work.old counts) r)) }
{
    let q = state::piece(work, cap, counts, k);
    let holder = holders::holder_of(work, cap, counts, r);
    taking::take_over(mode, tables, work, cap, counts, k, r, q.start, b, holder)
}

// The register with the furthest next use is taken where that is after the first use f.
pub(crate) fn weigh(
    mode: Mode,
    tables: &Tables,
    work: &mut [u32],
    cap: usize,
    counts: Counts,
    k: usize,
    f: u16,
    block: [Pos; REGISTERS],
    choice: Option<RegPos>,
) -> Result<Counts, Refusal>
    requires popping { PoppingIn cap tables.now work.old counts k }
    requires chosen { Chosen choice }
    ensures { DidIn cap tables.now work.old work.new counts result (weigh_by (placing_of mode tables.now cap) (state_of cap work.old counts) k f (pos_in block) choice) }
{
    match choice {
        Some(furthest) if Pos::At(f) < furthest.pos => {
            let b = block[furthest.register as usize];
            steal(mode, tables, work, cap, counts, k, furthest.register, b)
        }
        _ => spill_until(tables, work, cap, counts, k, f),
    }
}
