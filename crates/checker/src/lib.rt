// The placement checker: whether a claim obeys the seven placement rules, for any tables and any claim. It shares the reading of tables and the checks at entry with the assigner, and nothing else.
#![tactic(auto)]

ghost use Rattle.std.specs.Prelude.{◌≡◌, ℕ, ◌+◌, ◌*◌, ◌<◌, ◌≤◌, length, get_or};
ghost use Rattle.rules.specs.Checker.{HoldBelow, Checks};
ghost use Rattle.rules.specs.Lent.{claim_of, tables_of};
ghost use Rattle.checker_rules.specs.Order.{Empty, Linked};
ghost use Rattle.checker.specs.Verdict.{claim, Ready, Judges, answer_of};

use checker_rules::entries::{RECORD_WORDS, Records, Seats};
use checker_rules::order::Order;
use checker_rules::{rule1, rule2, rule3, rule4, rule5, rule6, rule7};
use rules::{Claim, Done, Refusal, Tables};
use tables::check;

const MOST_RECORDS: u32 = 16384;

// An entry for each point; as a table of slot units it reaches past the last slot and its size.
const HEAD_ENTRIES: usize = 65544;

// The lowest rule that a claim breaks.
#[derive(Clone, Copy, Debug, PartialEq, Eq)]
pub struct Broken {
    pub rule: u16,
}

// Rules 4 to 7, where 1 to 3 hold.
fn last_four<'a, 'n>(
    tables: &Tables<'a>,
    records: Records<'a>,
    total: u32,
    head: &mut [u16],
    next: &'n [u16],
) -> Result<(), Broken>
    requires ready { Ready (tables_of tables.now) (claim records.words.now records.count total) }
    requires held { HoldBelow (tables_of tables.now) (claim records.words.now records.count total) 4 }
    requires chains { (65544 ≤ length head.old) × (Linked records.words.now records.count head.old next.now) }
    ensures { Judges (tables_of tables.now) (claim records.entry.words.now records.entry.count total) result }
{
    let order = Order {
        records,
        head: &head[..],
        next,
        points: tables.instructions as usize * 2,
    };
    if !rule4::rule4(order) {
        return Err(Broken { rule: 4 });
    }
    if !rule5::rule5(records, tables.registers, tables.fragments) {
        return Err(Broken { rule: 5 });
    }
    rule6::disown(head);
    let seats = Seats {
        records,
        intervals: tables.intervals,
    };
    if !rule6::rule6(seats, head, total) {
        return Err(Broken { rule: 6 });
    }
    if !rule7::rule7(seats, tables.mentions, tables.safepoints) {
        return Err(Broken { rule: 7 });
    }
    Ok(())
}

// Rules 1 to 3, and then the others. The tables of the order come empty.
fn all_seven<'a>(
    tables: &Tables<'a>,
    records: Records<'a>,
    total: u32,
    head: &mut [u16],
    next: &mut [u16],
) -> Result<(), Broken>
    requires ready { Ready (tables_of tables.now) (claim records.words.now records.count total) }
    requires room { (65544 ≤ length head.old) × (16384 ≤ length next.old) × (Empty head.old) }
    ensures { Judges (tables_of tables.now) (claim records.entry.words.now records.entry.count total) result }
{
    let points = tables.instructions as usize * 2;
    if !rule1::rule1(records, tables.intervals, points, head, next) {
        return Err(Broken { rule: 1 });
    }
    let seats = Seats {
        records,
        intervals: tables.intervals,
    };
    if !rule2::rule2(seats, tables.mentions) {
        return Err(Broken { rule: 2 });
    }
    if !rule3::rule3(seats, tables.classes) {
        return Err(Broken { rule: 3 });
    }
    last_four(tables, records, total, head, &next[..])
}

// The verdict on a claim, the tables being sound.
fn judge(tables: &Tables, records: Records, total: u32) -> Result<(), Broken>
    requires { Ready (tables_of tables.now) (claim records.words.now records.count total) }
    ensures { Judges (tables_of tables.now) (claim records.entry.words.now records.entry.count total) result }
{
    let mut head = [0u16; HEAD_ENTRIES];
    let mut next = [0u16; MOST_RECORDS as usize];
    all_seven(tables, records, total, &mut head, &mut next)
}

// Accepted as done, or refused with the rule.
fn answer(verdict: Result<(), Broken>, count: u32, total: u32) -> Result<Done, Refusal>
    ensures { result ≡ answer_of verdict count total }
{
    match verdict {
        Ok(()) => Ok(Done { count, total }),
        Err(broken) => Err(Refusal::BrokenRule(broken.rule)),
    }
}

// Does nothing when it runs: it tells the check that the numbers of a slice are words, which it forgets of a slice in a struct behind a reference.
// The searches in mentions and in fragments lean on it.
fn are_words(words: &[u32])
    ensures { (i : ℕ) → get_or words.now i 0 < 4294967296 }
{}

// 3 for a claim that is too long or beyond its slice, 3 to 8 for tables that are not sound, 14 with the lowest broken rule, else 1 with the claimed count and total.
pub fn check(tables: &Tables, claim: &Claim) -> Result<Done, Refusal>
    ensures { Checks (tables_of tables.now) (claim_of claim.now) result }
{
    let count = claim.count as usize;
    if MOST_RECORDS < claim.count || claim.words.len() < count * RECORD_WORDS {
        return Err(Refusal::OverLimit);
    }
    check::check_tables(tables)?;
    are_words(tables.mentions);
    are_words(tables.fragments);
    let records = Records {
        words: claim.words,
        count,
    };
    let verdict = judge(tables, records, claim.total);
    answer(verdict, claim.count, claim.total)
}
