// 8: fixed table bad.
ghost use Rattle.std.specs.Prelude.{◌≡◌, ◌+◌, ◌<◌, ◌≤◌, length, get_or};
ghost use Rattle.words.specs.Packed.{part};
ghost use Rattle.rules.specs.Lent.{tables_of};
ghost use Rattle.rules.specs.Sound.{range_end, fragments_good, register_good, bad_fixed};
ghost use Rattle.tables.specs.Entries.{fragment_good, between};

use crate::{tests, walk};
use rules::Tables;
use words::{Range, read};

// Fragment f is ordered, below the limit, and ends before the next one of f..end begins.
fn fragment_good(limit: u32, fragments: &[u32], f: usize, end: usize) -> bool
    requires { (f < end) × (end ≤ length fragments.now) }
    ensures { result ≡ fragment_good limit (get_or fragments.now f 0) (between (f + 1) end fragments.now) }
{
    let a = read::fragment_at(fragments, f);
    let good = a.first <= a.last && (a.last as u32) < limit;
    if f + 1 < end {
        let b = read::fragment_at(fragments, f + 1);
        return good && a.last < b.first;
    }
    good
}

fn fragments_good(limit: u32, fragments: &[u32], q: Range) -> bool
    requires { range_end q ≤ length fragments.now }
    ensures { result ≡ fragments_good limit (part q fragments.now) }
{
    let end = q.end();
    (q.index as usize..end).all(|f| fragment_good(limit, fragments, f, end))
}

fn register_good(tables: &Tables, r: usize) -> bool
    requires { (tables.now.instructions ≤ 32768) × (r < length tables.now.registers.now) }
    ensures { result ≡ register_good (tables_of tables.now) r }
{
    let at = |k| read::register_at(tables.registers, k);
    let q = at(r);
    tests::range_good(at, tables.registers.len(), tables.fragments.len(), r)
        && fragments_good(2 * tables.instructions, tables.fragments, q)
}

pub(crate) fn bad_fixed(tables: &Tables) -> Option<u16>
    requires { (tables.now.instructions ≤ 32768) × (length tables.now.registers.now ≤ 64) }
    ensures { result ≡ bad_fixed (tables_of tables.now) }
{
    let n = tables.registers.len();
    let unused = tests::left_over(n, tables.fragments.len());
    walk::first_bad(0..n, |r| register_good(tables, r)).or(unused)
}
