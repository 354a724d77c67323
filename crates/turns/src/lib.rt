// A text of cases, one by one: each turn reads a case and has it answered. It is safe on any bytes, and ends, since every turn moves on in the text.
#![tactic(auto)]

mod each;
mod input;
pub mod run;
