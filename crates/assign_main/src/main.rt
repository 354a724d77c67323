// Runs of the proved calls for what no theorem says by itself: an answer of each number, the lent areas, the strategies, damaged results, the limits.
#![tactic(auto)]

mod damage;
mod fill;
mod limits;
mod print;
mod small;

use std::io::Print;

fn shown(rt: &impl Print, text: &[u8]) -> std::io::Result<()> {
    small::cases(rt, text)?;
    damage::each_rule(rt)?;
    limits::instructions(rt)?;
    limits::classes(rt)?;
    limits::registers(rt)?;
    limits::intervals(rt)?;
    limits::areas(rt)?;
    limits::mentions(rt)?;
    limits::safepoints(rt)?;
    limits::fragments(rt)?;
    limits::records(rt)
}

// The status is 0 also where a line cannot be written.
fn main() {
    let mut space = io::large_buffer();
    let n = io::read_full(0, &mut space);
    let _ = shown(&print::Out, &space[..n]);
}
