// What the active pieces put into a class's row. The holder of a register is the first active record in it, so the walks go from the last to the first, and the first has the last word.
ghost use Rattle.std.specs.Prelude.{◌≡◌, ℕ, ◌+◌, ◌<◌, ◌≤◌};
ghost use Rattle.words.specs.Choose.{choose};
ghost use Rattle.words.specs.Packed.{part};
ghost use Rattle.rules.specs.declared.Pos.TheVariants.{Blocked};
ghost use Rattle.rules.specs.Uses.{mention_points, next_use};
ghost use Rattle.rules.specs.Steps.{pos_of_use};
ghost use Rattle.store.specs.StateOf.{Ready, state_of};
ghost use Rattle.uses.specs.Runs.{Rising};
ghost use Rattle.activity.specs.Cursors.{Facing};
ghost use Rattle.choice.specs.Holding.{FreeRow, HeldMask, HolderRow, OpenRow, Runs, UnfixedRow, next_pos, seat_of};

use activity::{REGISTERS, Tracker, bits, fixed};
use rules::{Piece, Place, Pos};
use std::cmp::min;
use store::{Counts, state};
use uses::mentions as points;
use words::{Class, Range, read};

#[tactic(auto, unfolding(crate::specs::Holding::seat_of))]
fn seat_of(place: Place, first: usize, stop: usize) -> Option<usize>
    ensures { result ≡ seat_of first stop place }
{
    match place {
        Place::Register(x) if first <= x as usize && (x as usize) < stop => Some(x as usize),
        _ => None,
    }
}

// The registers that active pieces hold, a bit for each.
fn held_mask(work: &[u32], cap: usize, counts: Counts) -> u64
    requires { Ready cap work.now counts }
    ensures { HeldMask (state_of cap work.now counts) result }
{
    let mut mask = 0;
    for i in (0..counts.active).rev() {
        let j = state::active_at(work, cap, counts, i);
        let q = state::piece(work, cap, counts, j);
        if let Some(r) = seat_of(q.place, 0, REGISTERS) {
            mask = bits::with_bit(mask, r);
        }
    }
    mask
}

fn unless_held(held: bool, p: Pos) -> Pos
    ensures { result ≡ choose «held» Blocked p }
{
    if held { Pos::Blocked } else { p }
}

// The registers of a class: blocked where they are held, else as their fragments say. The row that is given is written over, so that none need be made.
fn open_row(
    mut row: [Pos; REGISTERS],
    held: u64,
    tracker: Tracker,
    registers: &[u32],
    fragments: &[u32],
    class: Class,
    start: u16,
    end: u16,
) -> [Pos; REGISTERS]
    requires { Facing registers.now fragments.now start class.first class.count tracker }
    ensures { OpenRow registers.now fragments.now class.first class.count start end held result }
{
    let first = class.first as usize;
    let stop = first + class.count as usize;
    for r in first..stop {
        let range = read::range_in(registers[r]);
        let p = fixed::fixed_position(fragments, range, tracker.cursors[r], start, end);
        row[r] = unless_held(bits::has_bit(held, r), p);
    }
    row
}

// .. where none of them has a fragment ahead.
fn unfixed_row(mut row: [Pos; REGISTERS], held: u64, class: Class) -> [Pos; REGISTERS]
    requires { class.first + class.count ≤ 64 }
    ensures { UnfixedRow class.first class.count held result }
{
    let first = class.first as usize;
    let stop = first + class.count as usize;
    for r in first..stop {
        row[r] = unless_held(bits::has_bit(held, r), Pos::Never);
    }
    row
}

// Step 2: free-until, for each register of the popped piece's class. Every register of the class is written anew in its row.
pub fn free_until(
    row: [Pos; REGISTERS],
    work: &[u32],
    cap: usize,
    counts: Counts,
    tracker: Tracker,
    registers: &[u32],
    fragments: &[u32],
    class: Class,
    q: Piece,
) -> [Pos; REGISTERS]
    requires ready { Ready cap work.now counts }
    requires facing { Facing registers.now fragments.now q.start class.first class.count tracker }
    ensures { FreeRow registers.now fragments.now (state_of cap work.now counts) q class.first class.count result }
{
    let held = held_mask(work, cap, counts);
    if bits::none_set(tracker.ahead, class.first as usize, class.count as usize) {
        return unfixed_row(row, held, class);
    }
    open_row(
        row, held, tracker, registers, fragments, class, q.start, q.end,
    )
}

// The next use from `start`, as a position.
fn use_position(mentions: &[u32], range: Range, start: u16) -> Pos
    requires { Rising range mentions.now }
    ensures { result ≡ pos_of_use (next_use start (mention_points (part range mentions.now))) }
{
    match points::next_use(mentions, range, start) {
        Some(p) => Pos::At(p),
        None => Pos::Never,
    }
}

// Step 4: the next uses of the active pieces, below what their registers' fragments say: `block` is the class's fixed row.
pub fn next_use_row(
    block: [Pos; REGISTERS],
    work: &[u32],
    cap: usize,
    counts: Counts,
    mentions: &[u32],
    class: Class,
    start: u16,
) -> [Pos; REGISTERS]
    requires ready { Ready cap work.now counts }
    requires count_bound { class.first + class.count ≤ 64 }
    requires runs { Runs (state_of cap work.now counts) mentions.now }
    ensures { HolderRow (next_pos mentions.now (state_of cap work.now counts) start block) (state_of cap work.now counts) class.first class.count result }
{
    let mut next = block;
    let first = class.first as usize;
    let stop = first + class.count as usize;
    for i in (0..counts.active).rev() {
        let j = state::active_at(work, cap, counts, i);
        let q = state::piece(work, cap, counts, j);
        if let Some(r) = seat_of(q.place, first, stop) {
            next[r] = min(use_position(mentions, q.mentions, start), block[r]);
        }
    }
    next
}
