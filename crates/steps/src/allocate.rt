// Steps 2 and 3: a register that is free is taken, whole or for a part.
ghost use Rattle.std.specs.Prelude.{◌≡◌};
ghost use Rattle.rules.specs.State.{piece};
ghost use Rattle.store.specs.StateOf.{state_of};
ghost use Rattle.split.specs.Turns.{Held};
ghost use Rattle.steps.specs.Stepping.{DidIn, grant_of, grant_until, PartingIn, take_part, Tries};

use crate::{Grant, taking};
use rules::{Mode, Pos, Refusal, RegPos, Tables};
use split::splits;
use store::{Counts, state};

// Record k is split at p, the child queued, and register r taken for what is left.
fn take_part(
    tables: &Tables,
    work: &mut [u32],
    cap: usize,
    counts: Counts,
    k: usize,
    r: u16,
    p: u16,
) -> Result<Counts, Refusal>
    requires { PartingIn cap tables.now work.old counts k }
    ensures { DidIn cap tables.now work.old work.new counts result (take_part tables.now.mentions.now tables.now.safepoints.now cap (state_of cap work.old counts) k r p) }
{
    let parted = splits::split_and_queue(tables, work, cap, counts, k, p)?;
    Ok(taking::take_register(work, cap, parted, k, r))
}

// The register is free until a: granted whole where that is after the end, else up to a partial split, if there is one.
fn granted_until(
    mode: Mode,
    tables: &Tables,
    work: &[u32],
    cap: usize,
    counts: Counts,
    k: usize,
    r: u16,
    a: u16,
) -> Option<Grant>
    requires { Held cap tables.now.mentions.now tables.now.safepoints.now work.now counts k }
    ensures { result ≡ grant_until mode tables.now.mentions.now (piece (state_of cap work.now counts) k) r a }
{
    let q = state::piece(work, cap, counts, k);
    if q.end < a {
        return Some(Grant::Whole(r));
    }
    let at = uses::places::partial_place(mode, q.start, tables.mentions, q.mentions, a)?;
    Some(Grant::Part { register: r, at })
}

// What record k gets of the register that is free the longest.
fn granted(
    mode: Mode,
    tables: &Tables,
    work: &[u32],
    cap: usize,
    counts: Counts,
    k: usize,
    choice: Option<RegPos>,
) -> Option<Grant>
    requires { Held cap tables.now.mentions.now tables.now.safepoints.now work.now counts k }
    ensures { result ≡ grant_of mode tables.now.mentions.now (piece (state_of cap work.now counts) k) choice }
{
    let longest = choice?;
    match longest.pos {
        Pos::Blocked => None,
        Pos::At(a) => granted_until(mode, tables, work, cap, counts, k, longest.register, a),
        Pos::Never => Some(Grant::Whole(longest.register)),
    }
}

// The register that is free the longest is tried. Step 4 is left to the caller, so that only it carries what that step reads.
pub fn try_allocate_reg(
    mode: Mode,
    tables: &Tables,
    work: &mut [u32],
    cap: usize,
    counts: Counts,
    k: usize,
    choice: Option<RegPos>,
) -> Option<Result<Counts, Refusal>>
    requires { PartingIn cap tables.now work.old counts k }
    ensures { Tries cap mode tables.now.mentions.now tables.now.safepoints.now work.old work.new counts k choice result }
{
    Some(match granted(mode, tables, work, cap, counts, k, choice)? {
        Grant::Whole(r) => Ok(taking::take_register(work, cap, counts, k, r)),
        Grant::Part { register, at } => take_part(tables, work, cap, counts, k, register, at),
    })
}
