// The choice of a register: positions by register, as arrays by value, one row for each class, and the furthest of a row, looked for over a lent slice.
#![tactic(auto)]

pub mod held;
pub mod positions;
pub mod rows;

// Limits: 8 classes.
pub const CLASSES: usize = 8;
