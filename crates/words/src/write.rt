// Words written: the entries of each table packed, most significant field first. `read` gives them back (proofs/Packed); each writer has a name of its own, as its reader has.
ghost use Rattle.std.specs.Prelude.{◌≡◌, ℕ, ◌+◌, ◌*◌, ◌<◌, ◌≤◌};
ghost use Rattle.words.specs.Packed.{ClassFits, IntervalFits, MentionFits, RecordFits, class_word, range_word, fragment_word, kind_word, interval_row, mention_word, record_row};

use crate::{Class, Fragment, Interval, Mention, Range, Record};

pub fn class_word(c: Class) -> u32
    requires { ClassFits c }
    ensures { result ≡ class_word c }
{
    let upper = (c.first as u32) * 256 + (c.count as u32);
    let flagged = upper * 2 + u32::from(c.scratched);
    (flagged * 256 + (c.scratch as u32)) * 128 + (c.spare as u32)
}

pub fn range_word(r: Range) -> u32
    ensures { result ≡ range_word r }
{
    (r.index as u32) * 65536 + (r.count as u32)
}

pub fn fragment_word(f: Fragment) -> u32
    ensures { result ≡ fragment_word f }
{
    (f.first as u32) * 65536 + (f.last as u32)
}

// The first word of an interval.
fn kind_word(i: Interval) -> u32
    requires { IntervalFits i }
    ensures { result ≡ kind_word i }
{
    let kind = (i.class as u32) * 2 + u32::from(i.reference);
    (kind * 4 + (i.log_size as u32)) * 67108864 + i.spare
}

pub fn interval_row(i: Interval) -> [u32; 4]
    requires { IntervalFits i }
    ensures { result ≡ interval_row i }
{
    let m = i.mentions;
    let s = i.safepoints;
    [
        kind_word(i),
        (i.start as u32) * 65536 + (i.end as u32),
        (m.index as u32) * 65536 + (m.count as u32),
        (s.index as u32) * 65536 + (s.count as u32),
    ]
}

pub fn mention_word(m: Mention) -> u32
    requires { MentionFits m }
    ensures { result ≡ mention_word m }
{
    let upper = (m.instruction as u32) * 16384 + (m.spare as u32);
    let flags = (u32::from(m.uses) * 2 + u32::from(m.mods)) * 2 + u32::from(m.defs);
    upper * 8 + flags
}

pub fn record_row(r: Record) -> [u32; 2]
    requires { RecordFits r }
    ensures { result ≡ record_row r }
{
    let named = (r.kind as u32) * 4096 + (r.interval as u32);
    let w0 = (named * 4 + (r.spare as u32)) * 65536 + (r.number as u32);
    let w1 = (r.first as u32) * 65536 + (r.last as u32);
    [w0, w1]
}
