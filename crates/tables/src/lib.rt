// The six tables: the checks 3 to 8 at entry, which the assigner and the checker share.
#![tactic(auto)]

pub mod check;
mod classes;
mod fixed;
mod intervals;
mod limits;
mod mentions;
mod safepoints;
mod tests;
mod walk;
