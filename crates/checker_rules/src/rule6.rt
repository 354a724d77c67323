// Rule 6: a virtual register has one slot, a multiple of its size; slot extents of two do not meet; the total is the greatest slot plus size, or 0.
// `slots` has each interval's slot plus one, 0 where it has none yet; `owner` has for each slot unit the interval that has it plus one, 0 where nobody has. Only this file knows that. In `owner` an `Option` in each entry would take twice the room, of memory that is fixed; `slots` follows it.
ghost use Rattle.std.specs.Prelude.{◌≡◌, ℕ, ◌+◌, ◌*◌, ◌<◌, ◌≤◌, length, get_or};
ghost use Rattle.words.specs.Packed.{interval_count};
ghost use Rattle.checker_rules.specs.Says.{Says};
ghost use Rattle.checker_rules.specs.Order.{Empty};
ghost use Rattle.checker_rules.specs.Slots.{Sized, Placed, Unowned, Owned, PutBy};
ghost use Rattle.checker_rules.specs.Decides.{Decides6};

use crate::entries::{MOST_INTERVALS, Seats};
use words::IN_SLOT;

// The size that a logarithm below 4 stands for: 1, 2, 4, 8.
fn size_of(log: u16) -> u32
    requires { log < 4 }
    ensures { Sized log result }
{
    1 << log
}

// Nobody has a unit of a..b.
fn unowned(owner: &[u16], a: usize, b: usize) -> bool
    requires { b ≤ length owner.now }
    ensures { Says result (Unowned owner.now a b) }
{
    (a..b).all(|u| owner[u] == 0)
}

// The units of a..b get this entry.
fn own(owner: &mut [u16], a: usize, b: usize, entry: u16)
    requires { (a ≤ b) × (b ≤ length owner.old) }
    ensures { Owned owner.old owner.new a b entry }
{
    owner[a..b].fill(entry);
}

// The table of owners, empty again: the point table of the order serves, once rule 4 is done with it.
pub fn disown(owner: &mut [u16])
    ensures { Empty owner.new }
{
    owner.fill(0);
}

// Record k, where those before it reach `top`: a slot of an interval that has none yet takes its units. The greatest slot plus size, or nothing where the record breaks the rule.
fn settle(seats: Seats, k: usize, slots: &mut [u32], owner: &mut [u16], top: u32) -> Option<u32>
    requires room { (interval_count seats.intervals.now ≤ length slots.old) × (65544 ≤ length owner.old) × (interval_count seats.intervals.now ≤ 4096) }
    requires place { k < seats.records.count }
    requires placed { Placed seats.records.words.now k seats.intervals.now slots.old owner.old top }
    ensures { PutBy seats.entry.records.words.now seats.entry.records.count (k + 1) seats.entry.intervals.now slots.new owner.new result }
{
    let r = seats.record(k);
    if r.kind != IN_SLOT {
        return Some(top);
    }
    let v = r.interval as usize;
    let s = r.number as u32;
    let z = size_of(seats.interval(r).log_size);
    if s % z != 0 {
        return None;
    }
    let old = slots[v];
    if old != 0 {
        return if old == s + 1 { Some(top) } else { None };
    }
    let a = s as usize;
    let e = s + z;
    let b = e as usize;
    if !unowned(&owner[..], a, b) {
        return None;
    }
    own(owner, a, b, (v + 1) as u16);
    slots[v] = s + 1;
    Some(top.max(e))
}

// The same of all records.
fn settled(seats: Seats, slots: &mut [u32], owner: &mut [u16]) -> Option<u32>
    requires room { (interval_count seats.intervals.now ≤ length slots.old) × (65544 ≤ length owner.old) × (interval_count seats.intervals.now ≤ 4096) }
    requires empty { (Empty slots.old) × (Empty owner.old) }
    ensures { PutBy seats.entry.records.words.now seats.entry.records.count seats.entry.records.count seats.entry.intervals.now slots.new owner.new result }
{
    let mut top = 0;
    for k in 0..seats.records.count {
        top = settle(seats, k, slots, owner, top)?;
    }
    Some(top)
}

// `owner` comes empty, and is longer than any slot plus size.
pub fn rule6(seats: Seats, owner: &mut [u16], total: u32) -> bool
    requires room { (65544 ≤ length owner.old) × (interval_count seats.intervals.now ≤ 4096) }
    requires empty { Empty owner.old }
    ensures { Decides6 seats.entry.records.words.now seats.entry.records.count seats.entry.intervals.now total result }
{
    let mut slots = [0u32; MOST_INTERVALS];
    // the top is told apart from none, not compared as an `Option`: so a must-fail edit can turn the comparison alone
    let Some(top) = settled(seats, &mut slots, owner) else {
        return false;
    };
    top == total
}
