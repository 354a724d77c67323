// The lent work area. `cells` alone knows how the words lie; `state` reads and writes them as the state of `rules`; `area` fills the work area from the
// tables, and the result area from the work area.
#![tactic(auto)]

pub mod area;
pub mod cells;
pub mod state;

// How much of each list is in use: the intervals, the records, the queue, the active records; and the slot total.
#[derive(Clone, Copy)]
pub struct Counts {
    pub intervals: usize,
    pub records: usize,
    pub queued: usize,
    pub active: usize,
    pub total: u32,
}

// The record that a pop took, and the counts after it.
#[derive(Clone, Copy)]
pub struct Popped {
    pub record: usize,
    pub counts: Counts,
}
