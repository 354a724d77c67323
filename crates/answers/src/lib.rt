// A case answered: the assigner or the checker is asked, and a line says the answer, for a program or for a person. A case that cannot be read gets a line on standard error.
#![tactic(auto)]

pub mod answer;
pub mod explain;
mod lent;
mod meaning;
mod show;
mod sink;
pub mod trouble;

// Where answers go, and where it is told what went wrong.
pub const STDOUT_FILENO: i32 = 1;

pub const STDERR_FILENO: i32 = 2;

// What is done with each case. The ways are these three, and each writes other lines, so it is an enum and no closure.
#[derive(Clone, Copy, Debug, PartialEq, Eq)]
pub enum Way {
    // Assign, and write the answer's words.
    Assign,
    // Check the case's claim, and write the answer's words.
    Check,
    // Assign, and write the answer for a person.
    Show,
}
