// The furthest register of a row. Positions are in the order that `rules` derives for them: below the points blocked, above them never.
ghost use Rattle.std.specs.Prelude.{◌≡◌, ℕ, ◌+◌, ◌<◌, ◌≤◌, length, None};
ghost use Rattle.rules.specs.Positions.{below};
ghost use Rattle.rules.specs.Steps.{furthest, pos_of};
ghost use Rattle.choice.specs.Row.{better, entry_at, furthest_entry, is_never, pos_in};

use activity::REGISTERS;
use rules::{Pos, RegPos};

// The position of the best so far: blocked, where there is none.
fn pos_of(best: Option<RegPos>) -> Pos
    ensures { result ≡ pos_of best }
{
    best.map_or(Pos::Blocked, |e| e.pos)
}

// `p` lies above the best so far; where there is none, it is not blocked.
#[tactic(auto, using(rules::proofs::Positions::less_below))]
fn is_above(p: Pos, best: Option<RegPos>) -> bool
    ensures { result ≡ below (pos_of best) p }
{
    match best {
        None => Pos::Blocked < p,
        Some(b) => b.pos < p,
    }
}

// The register of `e`, where its position lies above the best so far and it is not scratch.
fn better_of(best: Option<RegPos>, e: RegPos, scratch: usize) -> Option<RegPos>
    ensures { result ≡ better scratch best e.register e.pos }
{
    if e.register as usize != scratch && is_above(e.pos, best) {
        Some(e)
    } else {
        best
    }
}

// The furthest of a lent slice and the best so far, the first of them on ties, never scratch.
fn furthest_in(entries: &[RegPos], scratch: usize, start: Option<RegPos>) -> Option<RegPos>
    ensures { result ≡ furthest_entry entries.now scratch 0 (length entries.now) start }
{
    let mut best = start;
    for e in entries {
        best = better_of(best, *e, scratch);
    }
    best
}

// Nothing lies above never.
fn is_never(best: Option<RegPos>) -> bool
    ensures { result ≡ is_never (pos_of best) }
{
    pos_of(best) == Pos::Never
}

// Register r, with its position in the row.
fn entry_of(row: &[Pos; REGISTERS], r: usize) -> RegPos
    requires { r < 64 }
    ensures { result ≡ entry_at row.now r }
{
    RegPos {
        register: r as u16,
        pos: row[r],
    }
}

// The furthest of a class's registers, the lowest of them on ties, never scratch.
// Four at a time: past the last register the last one stands again, which changes nothing.
// The class's three numbers are apart, since any number at all may be scratch.
pub fn furthest_of(
    row: [Pos; REGISTERS],
    first: usize,
    count: usize,
    scratch: usize,
) -> Option<RegPos>
    requires { first + count ≤ 64 }
    ensures { result ≡ furthest (pos_in row) scratch first count None }
{
    let mut best = None;
    let stop = first + count;
    let mut r = first;
    // `step_by(4)` was tried: it proves, and the scan takes 6 in a hundred more instructions
    while r < stop {
        let last = stop - 1;
        let entries = [
            entry_of(&row, r),
            entry_of(&row, (r + 1).min(last)),
            entry_of(&row, (r + 2).min(last)),
            entry_of(&row, (r + 3).min(last)),
        ];
        best = furthest_in(&entries, scratch, best);
        if is_never(best) {
            return best;
        }
        r += 4;
    }
    best
}
