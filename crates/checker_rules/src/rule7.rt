// Rule 7: a reference register record whose first safepoint is s holds Def s as a mention point.
// For each record one search for its first safepoint, one for the mention there.
ghost use Rattle.std.specs.Prelude.{◌≡◌, ℕ, ◌+◌, ◌*◌, ◌<◌, ◌≤◌, length, get_or};
ghost use Rattle.seek.specs.Seek.{Rising};
ghost use Rattle.checker_rules.specs.Says.{Says};
ghost use Rattle.checker_rules.specs.Housed.{Row, Rows};
ghost use Rattle.checker_rules.specs.Safe.{Defined, SafeIn, Safe, Points};
ghost use Rattle.checker_rules.specs.Decides.{Decides7};

use crate::entries::{INSTRUCTION_UNIT, Seats};
use words::{IN_REGISTER, Interval, Range, Record, read};

// Def s is a point of one of these mentions.
fn defines(mentions: &[u32], range: Range, s: u32) -> bool
    requires { Row mentions.now range.index (range.index + range.count) }
    ensures { Says result (Defined mentions.now range.index (range.index + range.count) s) }
{
    let x = s as u64 * INSTRUCTION_UNIT;
    let to = range.end();
    let j = seek::lower(mentions, range.index as usize, to, x);
    if to <= j {
        return false;
    }
    let m = read::mention_in(mentions[j]);
    m.instruction as u32 == s && (m.mods || m.defs)
}

// Of a record of interval i.
fn safe_in(safepoints: &[u32], mentions: &[u32], i: Interval, r: Record) -> bool
    requires { (Rising safepoints.now i.safepoints.index (i.safepoints.index + i.safepoints.count)) × (Row mentions.now i.mentions.index (i.mentions.index + i.mentions.count)) }
    ensures { Says result (SafeIn safepoints.now i.safepoints.index (i.safepoints.index + i.safepoints.count) mentions.now i.mentions.index (i.mentions.index + i.mentions.count) r.first r.last) }
{
    let x = (r.first as u64 + 1) / 2;
    let to = i.safepoints.end();
    let j = seek::lower(safepoints, i.safepoints.index as usize, to, x);
    if to <= j {
        return true;
    }
    let s = safepoints[j];
    // the Use point of its instruction, if it is one: a word may name any
    let d = s as u64 * 2;
    let l = r.last as u64;
    if l < d {
        return true;
    }
    d < l && defines(mentions, i.mentions, s)
}

fn safe_at(seats: Seats, mentions: &[u32], safepoints: &[u32], k: usize) -> bool
    requires tables { (Rows seats.intervals.now mentions.now) × (Points seats.intervals.now safepoints.now) }
    requires place { k < seats.records.count }
    ensures { Says result (Safe seats.entry.records.words.now seats.entry.intervals.now mentions.now safepoints.now k) }
{
    let r = seats.record(k);
    if r.kind != IN_REGISTER {
        return true;
    }
    let i = seats.interval(r);
    !i.reference || safe_in(safepoints, mentions, i, r)
}

pub fn rule7(seats: Seats, mentions: &[u32], safepoints: &[u32]) -> bool
    requires { (Rows seats.intervals.now mentions.now) × (Points seats.intervals.now safepoints.now) }
    ensures { Decides7 seats.entry.records.words.now seats.entry.records.count seats.entry.intervals.now mentions.now safepoints.now result }
{
    (0..seats.records.count).all(|k| safe_at(seats, mentions, safepoints, k))
}
