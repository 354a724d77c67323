// Binary search in a table whose words ascend: fragments, mentions and safepoints do, as plain words.
#![tactic(auto)]

ghost use Rattle.std.specs.Prelude.{length};
ghost use Rattle.seek.specs.Seek.{Rising, Lower};

// The first index of lo..hi whose word is at least x, or hi. x is a u64, for it may lie above every word.
// std's `partition_point` in table[lo..hi] proves the same, but took an eighth to a quarter longer in parts of 4 to 64 words, so the loop stays.
pub fn lower(table: &[u32], lo: usize, hi: usize, x: u64) -> usize
    requires { Rising table.now lo hi }
    ensures { Lower table.now lo hi x result }
{
    let mut from = lo;
    let mut to = hi;
    while from < to {
        let middle = from + (to - from) / 2;
        if (table[middle] as u64) < x {
            from = middle + 1;
        } else {
            to = middle;
        }
    }
    from
}
