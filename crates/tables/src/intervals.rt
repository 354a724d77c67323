// 5: interval bad.
ghost use Rattle.std.specs.Prelude.{◌≡◌, ◌<◌, ◌≤◌};
ghost use Rattle.words.specs.Packed.{interval_count};
ghost use Rattle.rules.specs.Lent.{tables_of};
ghost use Rattle.rules.specs.Sound.{interval_good, bad_interval};
ghost use Rattle.tables.specs.Entries.{extent_good};

use crate::{tests, walk};
use rules::Tables;
use words::{Interval, read};

fn extent_good(limit: u32, classes: usize, i: Interval) -> bool
    ensures { result ≡ extent_good limit classes i }
{
    (i.spare == 0) & ((i.class as usize) < classes) & (i.start <= i.end) & ((i.end as u32) < limit)
}

fn interval_good(tables: &Tables, v: usize) -> bool
    requires { (tables.now.instructions ≤ 32768) × (v < interval_count tables.now.intervals.now) }
    ensures { result ≡ interval_good (tables_of tables.now) v }
{
    let n = read::interval_count(tables.intervals);
    let at = |k| read::interval_at(tables.intervals, k);
    extent_good(2 * tables.instructions, tables.classes.len(), at(v))
        & tests::range_good(|k| at(k).mentions, n, tables.mentions.len(), v)
        & tests::range_good(|k| at(k).safepoints, n, tables.safepoints.len(), v)
}

pub(crate) fn bad_interval(tables: &Tables) -> Option<u16>
    requires { (tables.now.instructions ≤ 32768) × (interval_count tables.now.intervals.now ≤ 4096) }
    ensures { result ≡ bad_interval (tables_of tables.now) }
{
    let n = read::interval_count(tables.intervals);
    walk::first_bad(0..n, |v| interval_good(tables, v))
        .or(tests::left_over(n, tables.mentions.len()))
        .or(tests::left_over(n, tables.safepoints.len()))
}
