// Tables as text: a reader of cases. Whatever the bytes are, what is read lies inside the text and inside the lent tables, and the reader moves on.
//
//     case NAME
//     opts STRATEGY PARTIAL NEAR_END        decimal; the flags 0 or 1
//     insts N
//     classes W W ..                        a table's words in hex; an empty table is the keyword alone
//     regs .. / frags .. / intervals .. / mentions .. / safepoints ..
//     room RESULT_WORDS WORK_WORDS          optional
//     claim COUNT TOTAL W W ..              optional; two numbers in decimal, then hex
//     end
//
// The lines stand in this order. `#` starts a comment; lines with nothing on them are passed over.
#![tactic(auto)]

mod body;
mod keyed;
mod lines;
mod numbers;
pub mod reader;
mod scan;
mod told;

// Where a reader stands: at a byte, on a line. Lines are counted from 1.
#[derive(Clone, Copy, Debug, PartialEq, Eq)]
pub struct Cursor {
    pub at: usize,
    pub line: u32,
}

// The bytes from..to of the text.
#[derive(Clone, Copy, Debug, PartialEq, Eq)]
pub struct Span {
    pub from: usize,
    pub to: usize,
}

// The first words of a line.
#[derive(Clone, Copy, Debug, PartialEq, Eq)]
pub enum Key {
    Case,
    Opts,
    Insts,
    Classes,
    Regs,
    Frags,
    Intervals,
    Mentions,
    Safepoints,
    Room,
    Claim,
    End,
}

// What is wrong with a line.
#[derive(Clone, Copy, Debug, PartialEq, Eq)]
pub enum What {
    // Another first word was due.
    Expected(Key),
    // A case needs a name, of one word.
    BadName,
    // A word that is no number where a number is due, or is none of its base.
    NotANumber,
    // A number beyond 32 bits, or a word of more than 8 digits.
    TooLarge,
    // More words than the line, or the lent table, has room for.
    TooMany,
    // Fewer numbers than the line needs.
    TooFew,
    // A flag is 0 or 1.
    NotAFlag,
}

// The lent words: each table of a case is read into its own, and the claim into the last.
#[derive(Drop)]
pub struct Tables<'t> {
    pub classes: &'t mut [u32],
    pub registers: &'t mut [u32],
    pub fragments: &'t mut [u32],
    pub intervals: &'t mut [u32],
    pub mentions: &'t mut [u32],
    pub safepoints: &'t mut [u32],
    pub claim: &'t mut [u32],
}

// How many words of each lent table the case has.
#[derive(Clone, Copy, Debug, PartialEq, Eq)]
pub struct Counts {
    pub classes: usize,
    pub registers: usize,
    pub fragments: usize,
    pub intervals: usize,
    pub mentions: usize,
    pub safepoints: usize,
}

// The room that a case asks for, in words.
#[derive(Clone, Copy, Debug, PartialEq, Eq)]
pub struct Room {
    pub result: u32,
    pub work: u32,
}

#[derive(Clone, Copy, Debug, PartialEq, Eq)]
pub struct Options {
    pub strategy: u32,
    pub partial_split: bool,
    pub partial_split_near_end: bool,
    pub instructions: u32,
}

#[derive(Clone, Copy, Debug, PartialEq, Eq)]
pub struct Case {
    pub name: Span,
    pub options: Options,
    pub counts: Counts,
    // The most room there is, where the case asks for none.
    pub room: Option<Room>,
    // So many words of the lent table, the claimed count and total first.
    pub claim: Option<usize>,
    pub next: Cursor,
}

// A case that cannot be read. Its name is empty where not even that was read.
#[derive(Clone, Copy, Debug, PartialEq, Eq)]
pub struct Trouble {
    pub name: Span,
    pub line: u32,
    pub what: What,
    pub next: Cursor,
}
