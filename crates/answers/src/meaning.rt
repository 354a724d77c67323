// What an answer means, in a sentence.
use std::fmt;

// The place of an answer that names none.
const NOWHERE: u32 = 65535;

const BROKEN_RULE: u32 = 14;

// An answer's number and place. Its text is the sentence without its end.
#[derive(Clone, Copy, Debug, Drop, PartialEq, Eq)]
pub(crate) struct Meaning {
    pub number: u32,
    pub place: u32,
}

// What the place of an answer counts.
fn noun(number: u32) -> &'static str {
    match number {
        4 => ", class",
        5 => ", interval",
        6 => ", mention",
        7 => ", safepoint",
        8 => ", register",
        10 | 11 | 12 | 13 => ", record",
        14 => ", rule",
        _ => " with the place",
    }
}

// Entries that are left over where there is nothing to have them.
fn nowhere(number: u32) -> &'static str {
    match number {
        5 => ", with no interval at all",
        8 => ", with no register at all",
        _ => "",
    }
}

// Why it was given: 2 to 9 at entry or at the end, 10 to 13 during a run, and 14 by the checker.
fn cause(number: u32) -> &'static str {
    match number {
        1 => "done, every value has a place at each of its points",
        2 => "the strategy is none of 1 to 7",
        3 =>
            "a count is over its limit, there is no class, the interval words are not four to each, or a claim counts more records than it has",
        4 => "the class is not sound in its registers, its scratch register or its spare bits",
        5 =>
            "the interval is not sound in its class, its points, its spare bits, or its mentions and safepoints do not follow on",
        6 =>
            "the mention has no flag or a spare bit, lies outside its interval, or does not come after the one before",
        7 =>
            "the safepoint is not on a reference, lies outside its interval, does not come after the one before, or meets a mere use",
        8 =>
            "the fixed fragments of the register are not in order, not inside the program, or do not follow on",
        9 =>
            "the room is too small, either fewer result records than intervals or too few work words",
        10 => "the record has to be split, and all result records are used",
        11 => "the record has a mention, and its class has no register besides scratch",
        12 =>
            "out of registers, since the record is used at its start and every register is needed there",
        13 =>
            "the record is mentioned at the very point where a fixed fragment of its register begins",
        14 => "the claimed placement breaks this rule and none below it",
        _ => "there is no such answer, since they are numbered 1 to 14",
    }
}

// The placement rules, by number.
fn rule(rule: u32) -> &'static str {
    match rule {
        1 => ": each point of an interval lies in exactly one of its records",
        2 => ": all points of a mention lie in one register record",
        3 => ": a register is of the interval's class, and never scratch",
        4 => ": records that share a register do not overlap",
        5 => ": a record does not meet a fixed fragment of its register",
        6 => ": each value has one slot, slots do not meet, and the total is the end of the last",
        7 => ": a reference in a register at its first safepoint is written there",
        _ => ", but the rules are numbered 1 to 7",
    }
}

impl fmt::Display for Meaning {
    fn fmt<W: fmt::Write>(&self, f: &mut fmt::Formatter<W>) -> fmt::Result {
        let number = self.number;
        let place = self.place;
        write!(f, "answer {number}")?;
        if place == NOWHERE {
            f.write_str(nowhere(number))?;
        } else {
            write!(f, "{} {place}", noun(number))?;
        }
        write!(f, ": {}", cause(number))?;
        if number == BROKEN_RULE {
            f.write_str(rule(place))?;
        }
        Ok(())
    }
}
