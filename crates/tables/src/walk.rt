// The walk of a table, lowest index first, which the checks share.
ghost use Rattle.std.specs.Prelude.{◌≡◌, ℕ, Bool, ◌-◌, ◌<◌, ◌≤◌, Option};
ghost use Rattle.rules.specs.Sound.{first, bad_unless};

use std::ops::Range;

// What `find` finds first at some of the indices.
// A `for`: `indices.find_map(find)` was tried and its proof did not close, for std's clauses of it speak of an iterator's runs, and no lemma brings them to a range.
pub(crate) fn first_found<F: Fn(usize) -> Option<u16>>(
    indices: Range<usize>,
    find: F,
) -> Option<u16>
    requires { (k : ℕ) → indices.start ≤ k → k < indices.end → F.pre find k }
    ensures { (f : ℕ → Option ℕ) → ((k : ℕ) (r : Option ℕ) → indices.start ≤ k → k < indices.end → F.post find k r → r ≡ f k) → result ≡ first f indices.start (indices.end - indices.start) }
{
    for k in indices.start..indices.end {
        if let Some(j) = find(k) {
            return Some(j);
        }
    }
    None
}

// The first of the indices that is not `good`.
pub(crate) fn first_bad<F: Fn(usize) -> bool>(indices: Range<usize>, good: F) -> Option<u16>
    requires few { indices.end ≤ 65536 }
    requires callable { (k : ℕ) → indices.start ≤ k → k < indices.end → F.pre good k }
    ensures { (t : ℕ → Bool) → ((k : ℕ) (b : Bool) → indices.start ≤ k → k < indices.end → F.post good k b → b ≡ t k) → result ≡ first (λ k. bad_unless (t k) k) indices.start (indices.end - indices.start) }
{
    first_found(indices, |k| if good(k) { None } else { Some(k as u16) })
}
