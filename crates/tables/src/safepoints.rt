// 7: safepoint bad, interval by interval.
ghost use Rattle.std.specs.Prelude.{◌≡◌, ◌<◌, ◌≤◌, length};
ghost use Rattle.words.specs.Points.{use_point};
ghost use Rattle.words.specs.Packed.{part};
ghost use Rattle.rules.specs.Lent.{tables_of};
ghost use Rattle.rules.specs.Sound.{every, range_end, not_used_alone, safepoint_good, bad_safepoint};
ghost use Rattle.tables.specs.Entries.{Ascending, Placed, safepoint_find};

use crate::{tests, walk};
use rules::Tables;
use seek;
use words::{Interval, Range, read};

// What a mention word has below its instruction.
const BELOW_INSTRUCTION: u64 = 131072;

// The Use point of a safepoint's word, which may be beyond every point of a table.
fn use_of(s: u32) -> u64
    ensures { result ≡ use_point s }
{
    2 * (s as u64)
}

// No mention of range q is a use alone at instruction s. The mentions ascend, so at most one is at s.
fn never_alone(q: Range, mentions: &[u32], s: u32) -> bool
    requires { Ascending mentions.now q }
    ensures { result ≡ every (not_used_alone s) (part q mentions.now) }
{
    let end = q.end();
    let k = seek::lower(
        mentions,
        q.index as usize,
        end,
        s as u64 * BELOW_INSTRUCTION,
    );
    if end <= k {
        return true;
    }
    let m = read::mention_at(mentions, k);
    !(m.instruction as u32 == s && m.uses) || m.mods || m.defs
}

fn safepoint_good(tables: &Tables, i: Interval, j: usize) -> bool
    requires { (j < length tables.now.safepoints.now) × (Ascending tables.now.mentions.now i.mentions) }
    ensures { result ≡ safepoint_good (tables_of tables.now) i j }
{
    let s = tables.safepoints[j];
    i.reference
        && tests::ascends(|k| tables.safepoints[k], i.safepoints, j)
        && tests::is_within(i.start, i.end, use_of(s))
        && never_alone(i.mentions, tables.mentions, s)
}

// The first bad safepoint of an interval.
fn first_safepoint(tables: &Tables, i: Interval) -> Option<u16>
    requires { (range_end i.safepoints ≤ length tables.now.safepoints.now) × (length tables.now.safepoints.now ≤ 16384) × (Ascending tables.now.mentions.now i.mentions) }
    ensures { result ≡ safepoint_find (tables_of tables.now) i }
{
    let indices = tests::indices(i.safepoints);
    let place = walk::first_bad(indices, |j| safepoint_good(tables, i, j))?;
    // the place is its own index; it is taken out, so that a must-fail edit can turn what is answered alone
    Some(place)
}

pub(crate) fn bad_safepoint(tables: &Tables) -> Option<u16>
    requires { (Placed (tables_of tables.now)) × (length tables.now.safepoints.now ≤ 16384) }
    ensures { result ≡ bad_safepoint (tables_of tables.now) }
{
    walk::first_found(0..read::interval_count(tables.intervals), |v| {
        first_safepoint(tables, read::interval_at(tables.intervals, v))
    })
}
