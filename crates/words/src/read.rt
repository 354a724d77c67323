// Words read: the fields of each table's entry, most significant first, by its words and by its index in its table.
// Each entry's reader has a name of its own: `From<u32>` would not say as which entry a word is read, and `Range` and `Fragment` are packed alike.
ghost use Rattle.std.specs.Prelude.{◌≡◌, ◌+◌, ◌*◌, ◌<◌, ◌≤◌, length, get_or};
ghost use Rattle.words.specs.Field.{bits, flag};
ghost use Rattle.words.specs.Packed.{class_in, class_at, range_in, register_at, fragment_in, interval_in, interval_at, interval_count, interval_words, mention_in, record_in};

use crate::{Class, Fragment, Interval, Mention, Range, Record};

// So many words make an interval; every other entry of a table is one word.
pub const INTERVAL_WORDS: usize = 4;

pub fn class_in(w: u32) -> Class
    ensures { result ≡ class_in w }
{
    Class {
        first: (w / 16777216 % 256) as u16,
        count: (w / 65536 % 256) as u16,
        scratched: w / 32768 % 2 == 1,
        scratch: (w / 128 % 256) as u16,
        spare: (w % 128) as u16,
    }
}

pub fn range_in(w: u32) -> Range
    ensures { result ≡ range_in w }
{
    Range {
        index: (w / 65536 % 65536) as u16,
        count: (w % 65536) as u16,
    }
}

pub fn fragment_in(w: u32) -> Fragment
    ensures { result ≡ fragment_in w }
{
    Fragment {
        first: (w / 65536 % 65536) as u16,
        last: (w % 65536) as u16,
    }
}

// The first word of an interval also field by field: the assigner often wants one of them alone.
pub fn class_of(w0: u32) -> u16
    ensures { result ≡ bits 29 3 w0 }
{
    (w0 / 536870912 % 8) as u16
}

// It holds a reference.
pub fn is_reference(w0: u32) -> bool
    ensures { result ≡ flag 28 w0 }
{
    w0 / 268435456 % 2 == 1
}

// The size of its slot, as a power of two.
pub fn log_size_of(w0: u32) -> u16
    ensures { result ≡ bits 26 2 w0 }
{
    (w0 / 67108864 % 4) as u16
}

pub fn interval_in(w0: u32, w1: u32, w2: u32, w3: u32) -> Interval
    ensures { result ≡ interval_in w0 w1 w2 w3 }
{
    Interval {
        class: class_of(w0),
        reference: is_reference(w0),
        log_size: log_size_of(w0),
        spare: w0 % 67108864,
        start: (w1 / 65536 % 65536) as u16,
        end: (w1 % 65536) as u16,
        mentions: range_in(w2),
        safepoints: range_in(w3),
    }
}

pub fn mention_in(w: u32) -> Mention
    ensures { result ≡ mention_in w }
{
    Mention {
        instruction: (w / 131072 % 32768) as u16,
        spare: (w / 8 % 16384) as u16,
        uses: w / 4 % 2 == 1,
        mods: w / 2 % 2 == 1,
        defs: w % 2 == 1,
    }
}

pub fn record_in(w0: u32, w1: u32) -> Record
    ensures { result ≡ record_in w0 w1 }
{
    Record {
        kind: (w0 / 1073741824 % 4) as u16,
        interval: (w0 / 262144 % 4096) as u16,
        spare: (w0 / 65536 % 4) as u16,
        number: (w0 % 65536) as u16,
        first: (w1 / 65536 % 65536) as u16,
        last: (w1 % 65536) as u16,
    }
}

// The entries of the tables, by index.
pub fn class_at(classes: &[u32], c: usize) -> Class
    requires { c < length classes.now }
    ensures { result ≡ class_at classes.now c }
{
    class_in(classes[c])
}

pub fn register_at(registers: &[u32], r: usize) -> Range
    requires { r < length registers.now }
    ensures { result ≡ register_at registers.now r }
{
    range_in(registers[r])
}

pub fn fragment_at(fragments: &[u32], f: usize) -> Fragment
    requires { f < length fragments.now }
    ensures { result ≡ fragment_in (get_or fragments.now f 0) }
{
    fragment_in(fragments[f])
}

pub fn interval_count(intervals: &[u32]) -> usize
    ensures { result ≡ interval_count intervals.now }
{
    intervals.len() / INTERVAL_WORDS
}

pub fn interval_at(intervals: &[u32], v: usize) -> Interval
    requires { v * interval_words + interval_words ≤ length intervals.now }
    ensures { result ≡ interval_at intervals.now v }
{
    let at = v * INTERVAL_WORDS;
    interval_in(
        intervals[at],
        intervals[at + 1],
        intervals[at + 2],
        intervals[at + 3],
    )
}

pub fn mention_at(mentions: &[u32], j: usize) -> Mention
    requires { j < length mentions.now }
    ensures { result ≡ mention_in (get_or mentions.now j 0) }
{
    mention_in(mentions[j])
}
