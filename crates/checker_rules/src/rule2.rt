// Rule 2: all points of one mention lie in one register record of its interval.
// A record that holds a point of a mention must be a register's and hold the mention whole; rule 1 says that some record holds each point. For each record: one search among its interval's mentions, then those that touch it.
ghost use Rattle.std.specs.Prelude.{◌≡◌, ℕ, ◌+◌, ◌*◌, ◌<◌, ◌≤◌, length, get_or};
ghost use Rattle.checker_rules.specs.Says.{Says};
ghost use Rattle.checker_rules.specs.Tiles.{Tiling};
ghost use Rattle.checker_rules.specs.Housed.{Pointed, Lowest, Highest, Whole, FitsIn, Row, Rows, Fits};
ghost use Rattle.checker_rules.specs.Decides.{Decides2};

use crate::entries::{INSTRUCTION_UNIT, Seats};
use words::{IN_REGISTER, Range, Record, read};

fn lowest(w: u32) -> u32
    requires { Pointed w }
    ensures { Lowest w result }
{
    let m = read::mention_in(w);
    let i = m.instruction as u32;
    if m.uses || m.mods { 2 * i } else { 2 * i + 1 }
}

fn highest(w: u32) -> u32
    requires { Pointed w }
    ensures { Highest w result }
{
    let m = read::mention_in(w);
    let i = m.instruction as u32;
    if m.mods || m.defs { 2 * i + 1 } else { 2 * i }
}

// Of a record and a mention's word.
fn whole(r: Record, w: u32) -> bool
    requires { (Pointed w) × (r.first ≤ r.last) }
    ensures { Says result (Whole r.kind r.first r.last w) }
{
    let a = lowest(w);
    let b = highest(w);
    let f = r.first as u32;
    let l = r.last as u32;
    if l < a || b < f {
        return true;
    }
    r.kind == IN_REGISTER && f <= a && b <= l
}

// Of a record and the mentions of a range.
fn fits_in(mentions: &[u32], range: Range, r: Record) -> bool
    requires { (Row mentions.now range.index (range.index + range.count)) × (r.first ≤ r.last) }
    ensures { Says result (FitsIn mentions.now range.index (range.index + range.count) r.kind r.first r.last) }
{
    let x = r.first as u64 / 2 * INSTRUCTION_UNIT;
    let to = range.end();
    let from = seek::lower(mentions, range.index as usize, to, x);
    for m in from..to {
        let w = mentions[m];
        if (r.last as u32) < lowest(w) {
            return true;
        }
        if !whole(r, w) {
            return false;
        }
    }
    true
}

fn fits(seats: Seats, mentions: &[u32], k: usize) -> bool
    requires tables { (Rows seats.intervals.now mentions.now) × (Tiling seats.records.words.now seats.records.count seats.intervals.now) }
    requires place { k < seats.records.count }
    ensures { Says result (Fits seats.entry.records.words.now seats.entry.intervals.now mentions.now k) }
{
    let r = seats.record(k);
    fits_in(mentions, seats.interval(r).mentions, r)
}

pub fn rule2(seats: Seats, mentions: &[u32]) -> bool
    requires { (Rows seats.intervals.now mentions.now) × (Tiling seats.records.words.now seats.records.count seats.intervals.now) }
    ensures { Decides2 seats.entry.records.words.now seats.entry.records.count seats.entry.intervals.now mentions.now result }
{
    (0..seats.records.count).all(|k| fits(seats, mentions, k))
}
