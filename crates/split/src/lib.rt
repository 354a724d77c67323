// Splits and spills of the pieces in the work area: `split`, `spill`, `split_and_spill` of the Rust module, over document 01's definitions.
#![tactic(auto)]

pub mod spilling;
pub mod spills;
pub mod splits;
