// Rule 1: records are well packed; each names an interval; each interval's points lie each in exactly one of its records, which never leave it.
// In the order of first points each record must start where its interval's record before it ended, and the last must end where the interval does.
ghost use Rattle.std.specs.Prelude.{◌≡◌, ℕ, ◌+◌, ◌*◌, ◌<◌, ◌≤◌, length, get_or};
ghost use Rattle.words.specs.Packed.{interval_count};
ghost use Rattle.checker_rules.specs.Says.{Says};
ghost use Rattle.checker_rules.specs.Order.{Empty};
ghost use Rattle.checker_rules.specs.Kinds.{Known};
ghost use Rattle.checker_rules.specs.Tiles.{Sits, Loose, Tiled, Within, Started, Fronted, Joined, Judged};

use crate::entries::{self, MOST_INTERVALS, Records, Seats};
use crate::order::{self, Order};
use words::{IN_REGISTER, IN_SLOT, read};

fn known(kind: u16) -> bool
    ensures { Says result (Known kind) }
{
    kind == IN_REGISTER || kind == IN_SLOT
}

// Record k is well packed, names an interval and stays inside it.
fn sits(records: Records, intervals: &[u32], k: usize) -> bool
    requires { k < records.count }
    ensures { Says result (Sits records.entry.words.now intervals.now k) }
{
    let r = records.record(k);
    let v = r.interval as usize;
    if read::interval_count(intervals) <= v {
        return false;
    }
    let i = entries::interval_at(intervals, v);
    known(r.kind) && r.spare == 0 && i.start <= r.first && r.first <= r.last && r.last <= i.end
}

// Each record does.
fn loose(records: Records, intervals: &[u32]) -> bool
    ensures { Says result (Loose records.entry.words.now records.entry.count intervals.now) }
{
    (0..records.count).all(|k| sits(records, intervals, k))
}

// The points that the first records have to start at.
fn starts(intervals: &[u32], expect: &mut [u32])
    requires { interval_count intervals.now ≤ length expect.old }
    ensures { Started intervals.now expect.new }
{
    for v in 0..read::interval_count(intervals) {
        expect[v] = entries::interval_at(intervals, v).start as u32;
    }
}

// In the order of first points, each record starts where its interval's record before it ended.
fn joined(order: Order, intervals: &[u32], expect: &mut [u32]) -> bool
    requires loose { Loose order.records.words.now order.records.count intervals.now }
    requires within { Within intervals.now order.points }
    requires started { Started intervals.now expect.old }
    ensures { Joined order.entry.records.words.now order.entry.records.count intervals.now expect.new result }
{
    let seats = Seats {
        records: order.records,
        intervals,
    };
    let mut turn = order.from(0);
    while let Some(k) = turn {
        let r = seats.record(k);
        let v = r.interval as usize;
        if expect[v] != r.first as u32 {
            return false;
        }
        expect[v] = r.last as u32 + 1;
        turn = order.following(k);
    }
    true
}

// Each interval's last record ended where the interval does.
fn ended(records: Records, intervals: &[u32], expect: &[u32]) -> bool
    requires { Fronted records.words.now records.count intervals.now expect.now }
    ensures { Says result (Tiled records.entry.words.now records.entry.count intervals.now) }
{
    (0..read::interval_count(intervals)).all(|v| {
        let i = entries::interval_at(intervals, v);
        expect[v] == i.end as u32 + 1
    })
}

// Each interval's points lie each in exactly one of its records.
fn tiled(order: Order, intervals: &[u32]) -> bool
    requires loose { Loose order.records.words.now order.records.count intervals.now }
    requires within { (interval_count intervals.now ≤ 4096) × Within intervals.now order.points }
    ensures { Says result (Tiled order.entry.records.words.now order.entry.records.count intervals.now) }
{
    let mut expect = [0u32; MOST_INTERVALS];
    starts(intervals, &mut expect);
    joined(order, intervals, &mut expect) && ended(order.records, intervals, &expect)
}

// Rule 1; where it holds, the chains are there for rule 4.
pub fn rule1(
    records: Records,
    intervals: &[u32],
    points: usize,
    head: &mut [u16],
    next: &mut [u16],
) -> bool
    requires room { (records.count ≤ 16384) × (65536 ≤ length head.old) × (records.count ≤ length next.old) }
    requires empty { Empty head.old }
    requires within { (interval_count intervals.now ≤ 4096) × Within intervals.now points }
    ensures { Judged records.entry.words.now records.entry.count intervals.now head.new next.new result }
{
    if !loose(records, intervals) {
        return false;
    }
    order::link(records, head, next);
    let order = Order {
        records,
        head: &head[..],
        next: &next[..],
        points,
    };
    tiled(order, intervals)
}
