// The assigner: the main loop of document 01, and the public call. Any words at all get an answer.
#![tactic(auto)]

use store::Counts;
use words::Class;

pub mod call;
mod entry;
mod fronts;
mod run;
mod settling;

// A popped record, the interval that it is of, where it starts, and the counts after step 1.
#[derive(Clone, Copy)]
struct Start {
    record: usize,
    interval: usize,
    start: u16,
    counts: Counts,
}

// .. with its class, by number and as read.
#[derive(Clone, Copy)]
struct Front {
    record: usize,
    index: usize,
    class: Class,
    start: u16,
    counts: Counts,
}
