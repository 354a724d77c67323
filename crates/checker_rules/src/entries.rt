// The entries that the rules read: the records of a claim, and interval v of a table; and the numbers that more than one rule goes by.
ghost use Rattle.std.specs.Prelude.{◌≡◌, ℕ, ◌+◌, ◌*◌, ◌<◌, ◌≤◌, length};
ghost use Rattle.words.specs.Packed.{interval_count};
ghost use Rattle.checker_rules.specs.Entries.{Shown, Given};
ghost use Rattle.std.proofs.Props.{props};
ghost use Rattle.checker_rules.specs.Tiles.{Loose, Seated};
ghost use Rattle.checker_rules.specs.Kinds.{Known-prop};

use words::{Interval, Range, Record, read};

// An instruction stands above 17 bits of a mention's word.
pub const INSTRUCTION_UNIT: u64 = 131072;

pub const MOST_INTERVALS: usize = 4096;

pub const RECORD_WORDS: usize = 2;

// The records of a claim.
#[derive(Clone, Copy)]
pub struct Records<'a> {
    pub words: &'a [u32],
    pub count: usize,
    pub ghost there: { 2 * count ≤ length words.now },
}

impl<'a> Records<'a> {
    pub fn record(self, k: usize) -> Record
        requires { k < self.count }
        ensures { Shown self.entry.words.now k result }
    {
        let row = k * RECORD_WORDS;
        read::record_in(self.words[row], self.words[row + 1])
    }
}

// Records that each sit in one of these intervals.
#[derive(Clone, Copy)]
pub struct Seats<'a> {
    pub records: Records<'a>,
    pub intervals: &'a [u32],
    pub ghost loose: { Loose records.words.now records.count intervals.now } by { Prim.hlevel (props, Known-prop) },
}

impl<'a> Seats<'a> {
    pub fn record(self, k: usize) -> Record
        requires { k < self.records.count }
        ensures { Seated self.entry.records.words.now self.entry.intervals.now k result }
    {
        self.records.record(k)
    }

    // The interval that a record names.
    pub fn interval(self, r: Record) -> Interval
        requires { r.interval < interval_count self.intervals.now }
        ensures { Given self.entry.intervals.now r.interval result }
    {
        interval_at(self.intervals, r.interval as usize)
    }
}

pub fn interval_at(intervals: &[u32], v: usize) -> Interval
    requires { v < interval_count intervals.now }
    ensures { Given intervals.now v result }
{
    read::interval_at(intervals, v)
}
