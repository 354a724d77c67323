// A case that was read: the call, and the line that says its answer.
ghost use Rattle.std.specs.Prelude.{◌≤◌, length};
ghost use Rattle.answers.specs.Lending.{Named};

use crate::lent::{Space, first, lent, record_words};
use crate::sink::Sink;
use crate::{STDOUT_FILENO, Way, show, trouble};
use cases::{Case, Key, Trouble, What};
use rules::{Claim, Options, Tables};
use std::fmt::Write;
use temgurisk::Reply;

// The claimed count and total stand before the claimed words.
const CLAIM_NUMBERS: usize = 2;

const DONE: u32 = 1;

// The line of an answer: its four numbers, then the words.
fn line(name: &[u8], reply: Reply, words: &[u32], out: &mut [u8]) {
    let Reply {
        number,
        place,
        count,
        total,
    } = reply;
    let mut sink = Sink::new(STDOUT_FILENO, out);
    sink.put(name);
    let _ = write!(sink, " {number} {place} {count} {total}");
    for word in words {
        let _ = write!(sink, " {word:08x}");
    }
    sink.end_line();
}

// The tables of the case: so many words of each of those that are lent.
fn tables_of<'t>(case: Case, lent: &Tables<'t>) -> Tables<'t> {
    let counts = case.counts;
    Tables {
        instructions: case.options.instructions,
        classes: first(lent.classes, counts.classes),
        registers: first(lent.registers, counts.registers),
        fragments: first(lent.fragments, counts.fragments),
        intervals: first(lent.intervals, counts.intervals),
        mentions: first(lent.mentions, counts.mentions),
        safepoints: first(lent.safepoints, counts.safepoints),
    }
}

// The assigner's answer, in the room that the case asks for.
fn assigned(case: Case, tables: &Tables, res: &mut [u32], work: &mut [u32]) -> Reply {
    let options = Options {
        strategy: case.options.strategy,
        partial_split: case.options.partial_split,
        partial_split_near_end: case.options.partial_split_near_end,
    };
    let space = lent(case.room, res.len(), work.len());
    temgurisk::temgurisk_assign(
        options,
        &tables_of(case, tables),
        &mut res[..space.result],
        &mut work[..space.work],
    )
}

// The checker's answer to a claim: its count and total, and the claimed words.
fn checked(case: Case, tables: &Tables, claim: &[u32]) -> Reply
    requires { 2 ≤ length claim.now }
{
    let claim = Claim {
        words: &claim[CLAIM_NUMBERS..],
        count: claim[0],
        total: claim[1],
    };
    temgurisk::temgurisk_check(&tables_of(case, tables), &claim)
}

// Assigns, and writes the answer in words or for a person. The words that follow it are the records of a done assignment.
fn assign_case(
    way: Way,
    name: &[u8],
    case: Case,
    tables: &Tables,
    res: &mut [u32],
    work: &mut [u32],
    out: &mut [u8],
) {
    let reply = assigned(case, tables, res, work);
    let n = if reply.number == DONE {
        record_words(reply.count, res.len())
    } else {
        0
    };
    if way == Way::Show {
        show::show(name, reply, &res[..n], out);
    } else {
        line(name, reply, &res[..n], out);
    }
}

// Checks the claim. A case without one is told as one that cannot be read, at the line before the next: that of the word `end`, where a claim was due.
fn check_case(text: &[u8], case: Case, tables: &Tables, claim: &[u32], out: &mut [u8])
    requires { Named (length text.now) (length claim.now) case }
{
    match case.claim {
        None => {
            let trouble = Trouble {
                name: case.name,
                line: case.next.line.saturating_sub(1),
                what: What::Expected(Key::Claim),
                next: case.next,
            };
            trouble::tell(text, trouble, out);
        }
        Some(n) => {
            let reply = checked(case, tables, &claim[..n]);
            line(&text[case.name.from..case.name.to], reply, &[], out);
        }
    }
}

// Answers one case, whose words are the first ones of the lent tables and of the lent claim.
pub fn answer(
    way: Way,
    text: &[u8],
    case: Case,
    tables: &Tables,
    claim: &[u32],
    res: &mut [u32],
    work: &mut [u32],
    out: &mut [u8],
)
    requires { Named (length text.now) (length claim.now) case }
{
    match way {
        Way::Check => check_case(text, case, tables, claim, out),
        Way::Assign | Way::Show => {
            let name = &text[case.name.from..case.name.to];
            assign_case(way, name, case, tables, res, work, out);
        }
    }
}
