// Rule 4: records sharing a register do not overlap.
// In the order of first points each register record must find its register free at its first point; it is free again after the record's last.
ghost use Rattle.std.specs.Prelude.{◌≡◌, ℕ, ◌+◌, ◌*◌, ◌<◌, ◌≤◌, length, get_or};
ghost use Rattle.checker_rules.specs.Says.{Says};
ghost use Rattle.checker_rules.specs.Order.{Empty};
ghost use Rattle.checker_rules.specs.Lanes.{Lanes, Registers, Entered};
ghost use Rattle.checker_rules.specs.Decides.{Decides4};

use crate::order::Order;
use words::{IN_REGISTER, Record};

const MOST_REGISTERS: usize = 64;

// A register record takes its register, if that is free at its first point.
fn enter(free: &mut [u32], r: Record) -> bool
    requires { (64 ≤ length free.old) × (r.kind ≡ 1 → r.number < 64) }
    ensures { Entered free.old free.new r result }
{
    if r.kind != IN_REGISTER {
        return true;
    }
    let q = r.number as usize;
    if (r.first as u32) < free[q] {
        return false;
    }
    free[q] = r.last as u32 + 1;
    true
}

// In the order of first points, each register record finds its register free.
fn entered(order: Order, free: &mut [u32]) -> bool
    requires registers { Registers order.records.words.now order.records.count 64 }
    requires empty { (64 ≤ length free.old) × Empty free.old }
    ensures { Says result (Lanes order.entry.records.words.now order.entry.records.count) }
{
    let mut turn = order.from(0);
    while let Some(k) = turn {
        if !enter(free, order.records.record(k)) {
            return false;
        }
        turn = order.following(k);
    }
    true
}

pub fn rule4(order: Order) -> bool
    requires { Registers order.records.words.now order.records.count 64 }
    ensures { Decides4 order.entry.records.words.now order.entry.records.count result }
{
    let mut free = [0u32; MOST_REGISTERS];
    entered(order, &mut free)
}
