// Rule 3: registers are of the class, never scratch.
ghost use Rattle.std.specs.Prelude.{◌≡◌, ℕ, ◌+◌, ◌*◌, ◌<◌, ◌≤◌, length, get_or};
ghost use Rattle.checker_rules.specs.Says.{Says};
ghost use Rattle.checker_rules.specs.Usable.{Usable, Suits, Classes};
ghost use Rattle.checker_rules.specs.Decides.{Decides3};

use crate::entries::Seats;
use words::{IN_REGISTER, read};

fn usable(w: u32, number: u16) -> bool
    ensures { Says result (Usable w number) }
{
    let c = read::class_in(w);
    c.first <= number && number < c.first + c.count && number != c.scratch
}

fn suits(seats: Seats, classes: &[u32], k: usize) -> bool
    requires { (Classes seats.intervals.now classes.now) × (k < seats.records.count) }
    ensures { Says result (Suits seats.entry.records.words.now seats.entry.intervals.now classes.now k) }
{
    let r = seats.record(k);
    if r.kind != IN_REGISTER {
        return true;
    }
    let c = seats.interval(r).class as usize;
    usable(classes[c], r.number)
}

pub fn rule3(seats: Seats, classes: &[u32]) -> bool
    requires { Classes seats.intervals.now classes.now }
    ensures { Decides3 seats.entry.records.words.now seats.entry.records.count seats.entry.intervals.now classes.now result }
{
    (0..seats.records.count).all(|k| suits(seats, classes, k))
}
