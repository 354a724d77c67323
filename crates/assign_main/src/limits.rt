// The limits of document 01: one short of each, at it, and one over it, which is 3. All by strategy 1, without partial splits. A label that begins with a number and a colon says which refusal is due; without, the call is done.
//
// A line shows the digest of the whole result area, which is filled with 77777777 before. Where asked for, the result is then checked, and damaged.
ghost use Rattle.std.specs.Prelude.{◌≤◌};

use crate::print::{Told, Words, digest};
use crate::{damage, fill};
use rules::{Options, Tables};
use std::io;
use std::io::Print;

const UNWRITTEN: u32 = 0x77777777;

// Room for a record more than the capacity's cap, and the work words for 16,384 records.
const RESULT_WORDS: usize = 32770;

const WORK_WORDS: usize = 131328;

// "One": registers 0 and 1, scratch 1.
const ONE: u32 = 0x28080;

const OPTIONS: Options = Options {
    strategy: 1,
    partial_split: false,
    partial_split_near_end: false,
};

// What follows a call: one of two things that are known here, so an enum and no closure over the areas that the call fills.
#[derive(Clone, Copy, Debug, PartialEq, Eq)]
enum Then {
    Stop,
    Damage,
}

fn called_in(
    rt: &impl Print,
    label: &str,
    then: Then,
    tables: &Tables,
    res: &mut [u32],
    work: &mut [u32],
) -> io::Result<()> {
    let reply = temgurisk::temgurisk_assign(OPTIONS, tables, res, work);
    println!(rt; "{label}:{} | digest{}", Told(reply), Words(&[digest(res)]))?;
    match then {
        Then::Stop => Ok(()),
        Then::Damage => damage::copies(rt, tables, res, reply.count, reply.total),
    }
}

fn called(rt: &impl Print, label: &str, then: Then, tables: &Tables) -> io::Result<()> {
    let mut result = [UNWRITTEN; RESULT_WORDS];
    let mut work = [0u32; WORK_WORDS];
    called_in(rt, label, then, tables, &mut result, &mut work)
}

// One value from point 0 to the last, with a use at instruction 0 and at the last: one record.
fn long(rt: &impl Print, label: &str, n: u32, span: u32, last: u32) -> io::Result<()> {
    let tables = Tables {
        instructions: n,
        classes: &[ONE],
        registers: &[0, 0],
        fragments: &[],
        intervals: &[0, span, 2, 0],
        mentions: &[4, last],
        safepoints: &[],
    };
    called(rt, label, Then::Stop, &tables)
}

pub(crate) fn instructions(rt: &impl Print) -> io::Result<()> {
    long(rt, "32767 instructions", 32767, 65533, 0xfffc0004)?;
    long(rt, "32768 instructions", 32768, 65535, 0xfffe0004)?;
    long(rt, "3: 32769 instructions", 32769, 65535, 0xfffe0004)
}

// Words of n rows.
fn of_rows(n: u16) -> usize {
    n as usize * 4
}

// n classes of two registers, and a value with use 0 in each: it is in its class's first register.
fn classed(rt: &impl Print, label: &str, n: u16) -> io::Result<()> {
    let mut classes = [0u32; 9];
    fill::words(&mut classes, ONE, 0x2000100);
    let mut intervals = [0u32; 36];
    fill::rows(&mut intervals, [0, 1, 1, 0], [0x20000000, 0, 0x10000, 0]);
    let tables = Tables {
        instructions: 1,
        classes: fill::part(&classes, n as usize),
        registers: fill::part(&[0; 18], n as usize * 2),
        fragments: &[],
        intervals: fill::part(&intervals, of_rows(n)),
        mentions: fill::part(&[4; 9], n as usize),
        safepoints: &[],
    };
    called(rt, label, Then::Stop, &tables)
}

pub(crate) fn classes(rt: &impl Print) -> io::Result<()> {
    classed(rt, "3: no class", 0)?;
    classed(rt, "7 classes", 7)?;
    classed(rt, "8 classes", 8)?;
    classed(rt, "3: 9 classes", 9)
}

// A class of n registers, the last its scratch, and m values with use 0.
fn crowded(rt: &impl Print, label: &str, class: u32, n: u16, m: u16) -> io::Result<()> {
    let mut intervals = [0u32; 256];
    fill::rows(&mut intervals, [0, 1, 1, 0], [0, 0, 0x10000, 0]);
    let tables = Tables {
        instructions: 1,
        classes: &[class],
        registers: fill::part(&[0; 65], n as usize),
        fragments: &[],
        intervals: fill::part(&intervals, of_rows(m)),
        mentions: fill::part(&[4; 64], m as usize),
        safepoints: &[],
    };
    called(rt, label, Then::Stop, &tables)
}

// With a value more than there are registers besides the scratch, 12 names the last one.
pub(crate) fn registers(rt: &impl Print) -> io::Result<()> {
    crowded(rt, "63 registers, 62 values", 0x3f9f00, 63, 62)?;
    crowded(rt, "64 registers, 63 values", 0x409f80, 64, 63)?;
    crowded(rt, "12: 64 registers, 64 values", 0x409f80, 64, 64)?;
    crowded(rt, "3: 65 registers, 64 values", 0x41a000, 65, 64)
}

// n values, one after the other: [2k,2k+1] with use k. All are in register 0.
fn in_a_row(
    rt: &impl Print,
    label: &str,
    then: Then,
    n: u16,
    res: &mut [u32],
    work: &mut [u32],
) -> io::Result<()> {
    let mut intervals = [0u32; 16388];
    fill::rows(&mut intervals, [0, 1, 1, 0], [0, 0x20002, 0x10000, 0]);
    let mut mentions = [0u32; 4097];
    fill::words(&mut mentions, 4, 0x20000);
    let tables = Tables {
        instructions: 4097,
        classes: &[ONE],
        registers: &[0, 0],
        fragments: &[],
        intervals: fill::part(&intervals, of_rows(n)),
        mentions: fill::part(&mentions, n as usize),
        safepoints: &[],
    };
    called_in(rt, label, then, &tables, res, work)
}

// .. in lent areas of R and W words.
fn in_room<const R: usize, const W: usize>(
    rt: &impl Print,
    label: &str,
    then: Then,
    n: u16,
) -> io::Result<()>
    requires { (R ≤ 32770) × (W ≤ 131328) }
{
    let mut result = [UNWRITTEN; R];
    let mut work = [0u32; W];
    in_a_row(rt, label, then, n, &mut result, &mut work)
}

fn many(rt: &impl Print, label: &str, then: Then, n: u16) -> io::Result<()> {
    in_room::<RESULT_WORDS, WORK_WORDS>(rt, label, then, n)
}

pub(crate) fn intervals(rt: &impl Print) -> io::Result<()> {
    many(rt, "4095 intervals", Then::Stop, 4095)?;
    many(rt, "4096 intervals", Then::Damage, 4096)?;
    many(rt, "3: 4097 intervals", Then::Stop, 4097)
}

// The lent areas: a record for each of 4,096 intervals and the work words for as many records, or a word less; and a word less than the most work words.
pub(crate) fn areas(rt: &impl Print) -> io::Result<()> {
    in_room::<8192, 33024>(rt, "8192 result words, 33024 work words", Then::Stop, 4096)?;
    in_room::<8191, 33024>(rt, "9: 8191 result words", Then::Stop, 4096)?;
    in_room::<8192, 33023>(rt, "9: 33023 work words", Then::Stop, 4096)?;
    in_room::<RESULT_WORDS, 131327>(rt, "9: 131327 work words", Then::Stop, 1)
}

// A reference of [0,32769] with def 0 to def n - 1, and safepoints 0 to m - 1. It is written at its first safepoint: one record.
fn written(rt: &impl Print, label: &str, n: u16, m: u16) -> io::Result<()> {
    let mut mentions = [0u32; 16385];
    fill::words(&mut mentions, 1, 0x20000);
    let mut safepoints = [0u32; 16385];
    fill::words(&mut safepoints, 0, 1);
    let tables = Tables {
        instructions: 16385,
        classes: &[ONE],
        registers: &[0, 0],
        fragments: &[],
        intervals: &[0x10000000, 32769, n as u32, m as u32],
        mentions: fill::part(&mentions, n as usize),
        safepoints: fill::part(&safepoints, m as usize),
    };
    called(rt, label, Then::Stop, &tables)
}

pub(crate) fn mentions(rt: &impl Print) -> io::Result<()> {
    written(rt, "16383 mentions", 16383, 0)?;
    written(rt, "16384 mentions", 16384, 0)?;
    written(rt, "3: 16385 mentions", 16385, 0)
}

pub(crate) fn safepoints(rt: &impl Print) -> io::Result<()> {
    written(rt, "16383 safepoints", 1, 16383)?;
    written(rt, "16384 safepoints and mentions", 16384, 16384)?;
    written(rt, "3: 16385 safepoints", 1, 16385)
}

// Register 0 has n fragments [8k+4,8k+5]. A value of [0,65529] with uses 0, 4, .. 32764 waits in slot 0 across each of 8,191 of them: 16,383 records. m - 1 more values, at the last two points and without a mention, have one record each.
fn between(rt: &impl Print, label: &str, then: Then, n: u16, m: u16) -> io::Result<()> {
    let mut fragments = [0u32; 8193];
    fill::words(&mut fragments, 0x40005, 0x80008);
    let mut mentions = [0u32; 8192];
    fill::words(&mut mentions, 4, 0x80000);
    let intervals = [
        0, 65529, 8192, 0, 0, 0xfffeffff, 0x20000000, 0, 0, 0xfffeffff, 0x20000000, 0,
    ];
    let tables = Tables {
        instructions: 32768,
        classes: &[ONE],
        registers: &[n as u32, n as u32 * 65536],
        fragments: fill::part(&fragments, n as usize),
        intervals: fill::part(&intervals, of_rows(m)),
        mentions: &mentions,
        safepoints: &[],
    };
    called(rt, label, then, &tables)
}

pub(crate) fn fragments(rt: &impl Print) -> io::Result<()> {
    between(rt, "8191 fragments, 16383 records", Then::Stop, 8191, 1)?;
    between(rt, "8192 fragments, 16383 records", Then::Stop, 8192, 1)?;
    between(rt, "3: 8193 fragments", Then::Stop, 8193, 1)
}

// One over: a 16,385th record would be due, and the area has room for it, but the capacity has not. The two words past the capacity stay.
pub(crate) fn records(rt: &impl Print) -> io::Result<()> {
    between(rt, "16384 records", Then::Damage, 8192, 2)?;
    between(rt, "10: 16385 records are needed", Then::Stop, 8192, 3)
}
