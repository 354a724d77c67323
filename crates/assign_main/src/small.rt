// The cases of standard input: a line for each, with the whole result area, 77777777 where nothing was written. Where a case is refused at entry, also the digest of the work area before and after the call. Where a case has a claim, the result is checked with its count and total, and then damaged.
use crate::print::{Told, Words, digest};
use crate::{damage, fill};
use cases::{Case, Cursor, reader};
use rules::{Options, Tables};
use std::io;
use std::io::Print;

const UNWRITTEN: u32 = 0x77777777;

const UNTOUCHED: u32 = 0x11223344;

const MOST_CASES: usize = 100;

const DONE: u32 = 1;

const LAST_AT_ENTRY: u32 = 9;
// Count and total.
const CLAIM_WORDS: usize = 2;
// Words of a small table.
const SHORT: usize = 8;

const LONG: usize = 24;
// The most room that a case may ask for.
const RESULT_WORDS: usize = 16;

const WORK_WORDS: usize = 320;

// A case, called on areas that are filled, and what it leaves.
fn called(
    rt: &impl Print,
    name: &[u8],
    options: Options,
    tables: &Tables,
    res: &mut [u32],
    work: &mut [u32],
) -> io::Result<()> {
    let before = digest(work);
    let reply = temgurisk::temgurisk_assign(options, tables, res, work);
    rt.write_all(name)?;
    print!(rt; ":{} |{}", Told(reply), Words(res))?;
    if DONE < reply.number && reply.number <= LAST_AT_ENTRY {
        print!(rt; " | work{}", Words(&[before, digest(work)]))?;
    }
    println!(rt; "")
}

// .. with the room that it asks for, and where there is a claim, its result damaged. Where there is less room, no line is written.
fn shown(rt: &impl Print, name: &[u8], case: Case, lent: &cases::Tables) -> io::Result<()> {
    let Some(room) = case.room else {
        return Ok(());
    };
    let mut result = [UNWRITTEN; RESULT_WORDS];
    let mut work = [UNTOUCHED; WORK_WORDS];
    let area = room.result as usize;
    let space = room.work as usize;
    if result.len() < area || work.len() < space {
        return Ok(());
    }
    let res = &mut result[..area];
    let tables = Tables {
        instructions: case.options.instructions,
        classes: fill::part(lent.classes, case.counts.classes),
        registers: fill::part(lent.registers, case.counts.registers),
        fragments: fill::part(lent.fragments, case.counts.fragments),
        intervals: fill::part(lent.intervals, case.counts.intervals),
        mentions: fill::part(lent.mentions, case.counts.mentions),
        safepoints: fill::part(lent.safepoints, case.counts.safepoints),
    };
    let options = Options {
        strategy: case.options.strategy,
        partial_split: case.options.partial_split,
        partial_split_near_end: case.options.partial_split_near_end,
    };
    called(rt, name, options, &tables, res, &mut work[..space])?;
    if let (Some(_), [count, total]) = (case.claim, &lent.claim[..]) {
        damage::copies(rt, &tables, res, *count, *total)?;
    }
    Ok(())
}

// The next case. Where the one after it starts, unless there is none or this one cannot be read.
fn next(rt: &impl Print, text: &[u8], c: Cursor) -> io::Result<Option<Cursor>> {
    let mut lent = cases::Tables {
        classes: &mut [0; SHORT],
        registers: &mut [0; SHORT],
        fragments: &mut [0; SHORT],
        intervals: &mut [0; LONG],
        mentions: &mut [0; LONG],
        safepoints: &mut [0; SHORT],
        claim: &mut [0; CLAIM_WORDS],
    };
    let Some(Ok(case)) = reader::read(text, c, &mut lent) else {
        return Ok(None);
    };
    shown(rt, &text[case.name.from..case.name.to], case, &lent)?;
    Ok(Some(case.next))
}

pub(crate) fn cases(rt: &impl Print, text: &[u8]) -> io::Result<()> {
    let mut c = reader::start();
    for _ in 0..MOST_CASES {
        let Some(further) = next(rt, text, c)? else {
            return Ok(());
        };
        c = further;
    }
    Ok(())
}
