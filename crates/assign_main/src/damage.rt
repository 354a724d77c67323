// Damaged copies of done results, for the checker: each bit flipped, each pair of neighbouring bits flipped, a record dropped or doubled, a wrong total, no record at all, other words behind the claim.
ghost use Rattle.std.specs.Prelude.{◌<◌};

use crate::print::{Numbers, Told};
use rules::{Claim, Tables};
use std::io::Print;
use std::{fmt, io};
use temgurisk::Reply;

const RECORD_WORDS: usize = 2;

const DONE: u32 = 1;

const BROKEN: u32 = 14;
// 0 counts what is accepted, 1 to 7 the broken rules, 8 all else.
const KINDS: usize = 9;

const OTHER: usize = 8;

// The tables of the case `each-rule` in standard input.
const EACH_RULE: Tables<'static> = Tables {
    instructions: 16,
    classes: &[0x38100],
    registers: &[1, 0x10000, 0x10000],
    fragments: &[0x40005],
    intervals: &[
        0x10000000, 0x10011, 3, 2, 0, 0x19, 0x30003, 0x20000, 0, 0x1c001d, 0x60001, 0x20000,
    ],
    mentions: &[1, 0x80004, 0x100004, 4, 0x20004, 0x180004, 0x1c0001],
    safepoints: &[2, 6],
};

fn kind_of(r: Reply) -> usize
    ensures { result < 9 }
{
    match (r.number, r.place) {
        (DONE, _) => 0,
        (BROKEN, rule @ 0..=7) => rule as usize,
        _ => OTHER,
    }
}

// All flips of a claim's words by masks that move up, and how many of them get each kind of answer. Each word is put back.
fn all_flips(
    rt: &impl Print,
    label: &str,
    words: &mut [u32],
    count: u32,
    total: u32,
    mask: u32,
    masks: u32,
) -> io::Result<()> {
    let mut tally = [0u32; KINDS];
    for i in 0..words.len() {
        for b in 0..masks {
            let word = words[i];
            words[i] = word ^ mask.wrapping_shl(b);
            let kind = kind_of(checked(&EACH_RULE, words, count, total));
            words[i] = word;
            tally[kind] = tally[kind].wrapping_add(1);
        }
    }
    println!(rt; "{label}{}", Numbers(&tally))
}

// Every flip of a bit, and of two neighbouring bits, so that a register becomes a slot. The words are the result that the line of `each-rule` shows.
pub(crate) fn each_rule(rt: &impl Print) -> io::Result<()> {
    let mut words = [
        0x40000000, 0x10001, 0x40040001, 0x19, 0x40080000, 0x1c001d, 0x80000000, 0x20007,
        0x40000000, 0x80008, 0x80000000, 0x9000f, 0x40000000, 0x100011,
    ];
    let one = "each-rule, a bit flipped: accepted, by rule 1 to 7, other:";
    all_flips(rt, one, &mut words, 7, 1, 1, 32)?;
    let two = "each-rule, two bits flipped: accepted, by rule 1 to 7, other:";
    all_flips(rt, two, &mut words, 7, 1, 3, 31)
}

// What is done to a copy.
#[derive(Clone, Copy, Debug, Drop, PartialEq, Eq)]
enum Damage {
    Nothing,
    LastDropped,
    TotalLower,
    NoRecord,
    WordsBehind,
    FirstDoubled,
    LastBroken,
}

impl fmt::Display for Damage {
    fn fmt<W: fmt::Write>(&self, f: &mut fmt::Formatter<W>) -> fmt::Result {
        f.write_str(match self {
            Damage::Nothing => "  checked",
            Damage::LastDropped => "  last record dropped",
            Damage::TotalLower => "  total one lower",
            Damage::NoRecord => "  no record",
            Damage::WordsBehind => "  other words behind",
            Damage::FirstDoubled => "  first record doubled",
            Damage::LastBroken => "  last record broken",
        })
    }
}

// The copies, one after the other: what is done to the words stays.
const DAMAGES: [Damage; 7] = [
    Damage::Nothing,
    Damage::LastDropped,
    Damage::TotalLower,
    Damage::NoRecord,
    Damage::WordsBehind,
    Damage::FirstDoubled,
    Damage::LastBroken,
];

// The first record once more, behind the last, where there is room.
fn double(words: &mut [u32], count: u32) {
    let n = count as usize * RECORD_WORDS;
    if n + 1 < words.len() {
        words.copy_within(..RECORD_WORDS, n);
    }
}

// The last point of the last record moved by one.
fn break_last(words: &mut [u32], count: u32) {
    let n = count as usize * RECORD_WORDS;
    if 0 < n && n <= words.len() {
        words[n - 1] ^= 1;
    }
}

fn checked(tables: &Tables, words: &[u32], count: u32, total: u32) -> Reply {
    let claim = Claim {
        words,
        count,
        total,
    };
    temgurisk::temgurisk_check(tables, &claim)
}

// Damages a copy, and answers what the checker says of it.
fn judged(damage: Damage, tables: &Tables, words: &mut [u32], count: u32, total: u32) -> Reply {
    let (count, total) = match damage {
        Damage::Nothing => (count, total),
        Damage::LastDropped => (count.wrapping_sub(1), total),
        Damage::TotalLower => (count, total.wrapping_sub(1)),
        Damage::NoRecord => (0, 0),
        Damage::WordsBehind => {
            double(words, count);
            (count, total)
        }
        Damage::FirstDoubled => (count.wrapping_add(1), total),
        Damage::LastBroken => {
            break_last(words, count);
            (count, total)
        }
    };
    checked(tables, words, count, total)
}

// A done result is accepted as it is. Words behind the claim are ignored; all other damage is seen.
pub(crate) fn copies(
    rt: &impl Print,
    tables: &Tables,
    words: &mut [u32],
    count: u32,
    total: u32,
) -> io::Result<()> {
    for damage in DAMAGES {
        let reply = judged(damage, tables, words, count, total);
        println!(rt; "{damage}:{}", Told(reply))?;
    }
    Ok(())
}
