// The tests that several checks share. `range_good`, as the tests of an interval or a mention, joins by `&` and `|`: with `&&` and `||` each is a branch, and the checks took up to half as long again. `ascends` needs its `||`.
ghost use Rattle.std.specs.Prelude.{◌≡◌, ℕ, ◌<◌, ◌≤◌};
ghost use Rattle.words.specs.Points.{within};
ghost use Rattle.rules.specs.Sound.{ascends, range_end, range_good, leftovers};

use std::ops;
use words::Range;

// The place of a refusal that names no entry.
const NOWHERE: u16 = 65535;

// A point of a word of 32 bits may be beyond every point of a table.
pub(crate) fn is_within(a: u16, e: u16, p: u64) -> bool
    ensures { result ≡ within a e p }
{
    (a as u64..=e as u64).contains(&p)
}

// The indices of the entries of range r.
pub(crate) fn indices(r: Range) -> ops::Range<usize>
    ensures start { result.start ≡ r.index }
    ensures end { result.end ≡ range_end r }
{
    r.index as usize..r.end()
}

// Range k of n begins where the one before it ends, and ends inside a table of `len` entries, at its end if it is the last.
pub(crate) fn range_good<F: Fn(usize) -> Range>(range_at: F, n: usize, len: usize, k: usize) -> bool
    requires one { k < n }
    requires callable { (j : ℕ) → j < n → F.pre range_at j }
    ensures { (ranges : ℕ → _) → ((j : ℕ) (r : _) → j < n → F.post range_at j r → r ≡ ranges j) → result ≡ range_good ranges n len k }
{
    let range = range_at(k);
    let before = if k == 0 { 0 } else { range_at(k - 1).end() };
    let end = range.end();
    (range.index as usize == before) & (end <= len) & ((k + 1 < n) | (end == len))
}

// Entry j of range r is above the one before it.
pub(crate) fn ascends<F: Fn(usize) -> u32>(entry_at: F, r: Range, j: usize) -> bool
    requires { (k : ℕ) → k ≤ j → F.pre entry_at k }
    ensures { (f : ℕ → ℕ) → ((k x : ℕ) → k ≤ j → F.post entry_at k x → x ≡ f k) → result ≡ ascends f r j }
{
    j <= r.index as usize || entry_at(j - 1) < entry_at(j)
}

pub(crate) fn left_over(n: usize, len: usize) -> Option<u16>
    ensures { result ≡ leftovers n len }
{
    if 0 < n || len == 0 {
        None
    } else {
        Some(NOWHERE)
    }
}
