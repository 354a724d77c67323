// 6: mention bad, interval by interval.
ghost use Rattle.std.specs.Prelude.{◌≡◌, ◌<◌, ◌≤◌, length};
ghost use Rattle.words.specs.Points.{within};
ghost use Rattle.rules.specs.Lent.{tables_of};
ghost use Rattle.rules.specs.Uses.{points_in};
ghost use Rattle.rules.specs.Sound.{every, range_end, mention_good, bad_mention};
ghost use Rattle.tables.specs.Entries.{Ranged, mention_find};

use crate::{tests, walk};
use rules::Tables;
use words::{Interval, Mention, read};

// Every point of mention m is in a..e.
fn points_inside(a: u16, e: u16, m: Mention) -> bool
    ensures { result ≡ every (within a e) (points_in m) }
{
    let p = 2 * (m.instruction as u64);
    (!(m.uses | m.mods) | tests::is_within(a, e, p))
        & (!(m.mods | m.defs) | tests::is_within(a, e, p + 1))
}

fn mention_good(tables: &Tables, i: Interval, j: usize) -> bool
    requires { j < length tables.now.mentions.now }
    ensures { result ≡ mention_good (tables_of tables.now) i j }
{
    let m = read::mention_at(tables.mentions, j);
    (m.spare == 0)
        & (m.uses | m.mods | m.defs)
        & points_inside(i.start, i.end, m)
        & tests::ascends(
            |k| read::mention_at(tables.mentions, k).instruction as u32,
            i.mentions,
            j,
        )
}

// The first bad mention of an interval.
fn first_mention(tables: &Tables, i: Interval) -> Option<u16>
    requires { (range_end i.mentions ≤ length tables.now.mentions.now) × (length tables.now.mentions.now ≤ 16384) }
    ensures { result ≡ mention_find (tables_of tables.now) i }
{
    let indices = tests::indices(i.mentions);
    walk::first_bad(indices, |j| mention_good(tables, i, j))
}

pub(crate) fn bad_mention(tables: &Tables) -> Option<u16>
    requires { (Ranged (tables_of tables.now)) × (length tables.now.mentions.now ≤ 16384) }
    ensures { result ≡ bad_mention (tables_of tables.now) }
{
    walk::first_found(0..read::interval_count(tables.intervals), |v| {
        first_mention(tables, read::interval_at(tables.intervals, v))
    })
}
