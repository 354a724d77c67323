// A piece's safepoints: how many stay at a split, and the first. They ascend, so the walk stops at the first that answers.
ghost use Rattle.std.specs.Prelude.{◌≡◌};
ghost use Rattle.words.specs.Packed.{part};
ghost use Rattle.uses.specs.Runs.{Ascending, Kept};
ghost use Rattle.uses.specs.Safepoints.{head_of, use_below};

use words::Range;

// A safepoint stays at a split at p: its Use point is below p. In u64 the Use point of any word is a number.
fn use_below(s: u32, p: u16) -> bool
    ensures { result ≡ use_below p s }
{
    2 * (s as u64) < (p as u64)
}

// How many safepoints of a run stay at a split at p, as `staying_mentions` counts.
pub fn staying_safepoints(safepoints: &[u32], range: Range, p: u16) -> u16
    requires { Ascending range safepoints.now }
    ensures { Kept (use_below p) range safepoints.now result }
{
    let from = range.index as usize;
    for n in 0..range.count as usize {
        if !use_below(safepoints[from + n], p) {
            return n as u16;
        }
    }
    range.count
}

// The first safepoint of a run.
pub fn first_safepoint(safepoints: &[u32], range: Range) -> Option<u16>
    requires { Ascending range safepoints.now }
    ensures { result ≡ head_of (part range safepoints.now) }
{
    if range.count == 0 {
        return None;
    }
    Some(safepoints[range.index as usize] as u16)
}
