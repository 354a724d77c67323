// Steps 2 to 4 of document 01 for the popped record, over the work area: `try_allocate_reg` and `allocate_blocked_reg` of the Rust module.
#![tactic(auto)]

pub mod allocate;
pub mod blocked;
mod holders;
mod taking;
mod weighing;

// What a piece gets of a register: all of it, or up to a split.
#[derive(Clone, Copy)]
enum Grant {
    Whole(u16),
    Part { register: u16, at: u16 },
}
