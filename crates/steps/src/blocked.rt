// Step 4: no register is free for long enough.
ghost use Rattle.std.specs.Prelude.{◌≡◌, ℕ, ◌+◌, ◌*◌, ◌<◌, ◌≤◌, length, replicate, Some};
ghost use Rattle.words.specs.Packed.{class_at, interval_at, interval_count};
ghost use Rattle.rules.specs.declared.Pos.TheVariants.{Never};
ghost use Rattle.rules.specs.State.{piece};
ghost use Rattle.rules.specs.Steps as rule;
ghost use Rattle.store.specs.StateOf.{state_of, Ready};
ghost use Rattle.activity.specs.Cursors.{Facing};
ghost use Rattle.choice.specs.Row.{pos_in, FixedRow};
ghost use Rattle.split.specs.Turns.{Held};
ghost use Rattle.steps.specs.Stepping.{class_for, Contending, DidIn, first_use, HasClass, NumberedOf, stepping_of, SteppingIn, Weighed, Weighing};

use crate::weighing;
use activity::{REGISTERS, Tracker};
use choice::{held, positions, rows};
use rules::{Mode, Pos, Refusal, RegPos, Tables};
use split::spills;
use store::{Counts, state};
use words::{Class, read};

// A class, with its number.
#[derive(Clone, Copy)]
struct NumberedClass {
    number: usize,
    class: Class,
}

// Block positions by register, held by class: blocked, or the first fragment start, or never.
fn block_row(
    tracker: Tracker,
    tables: &Tables,
    kind: NumberedClass,
    start: u16,
    end: u16,
) -> [Pos; REGISTERS]
    requires number_bound { kind.number < 8 }
    requires facing { Facing tables.now.registers.now tables.now.fragments.now start kind.class.first kind.class.count tracker }
    ensures { FixedRow tables.now.registers.now tables.now.fragments.now kind.class.first kind.class.count start end (replicate 64 Never) result }
{
    let mut block = rows::never_rows();
    block[kind.number] = rows::fixed_row(
        rows::never_row(),
        tracker,
        tables.registers,
        tables.fragments,
        kind.class,
        start,
        end,
    );
    block[kind.number]
}

// Next-use positions by register, held by class in the same way, and the furthest of them.
fn furthest_use(row: [Pos; REGISTERS], kind: NumberedClass) -> Option<RegPos>
    requires number_bound { kind.number < 8 }
    requires count_bound { kind.class.first + kind.class.count ≤ 64 }
    ensures { result ≡ rule.furthest (pos_in row) kind.class.scratch kind.class.first kind.class.count None }
{
    let mut next = rows::never_rows();
    next[kind.number] = row;
    let class = kind.class;
    positions::furthest_of(
        next[kind.number],
        class.first as usize,
        class.count as usize,
        class.scratch as usize,
    )
}

// The holders' next uses, and the furthest of them weighed against the first use f.
fn weigh_uses(
    mode: Mode,
    tables: &Tables,
    work: &mut [u32],
    cap: usize,
    counts: Counts,
    k: usize,
    f: u16,
    start: u16,
    kind: NumberedClass,
    block: [Pos; REGISTERS],
) -> Result<Counts, Refusal>
    requires { Weighing cap tables.now.intervals.now tables.now.mentions.now tables.now.safepoints.now work.old counts k kind.number kind.class }
    ensures { Weighed cap mode tables.now.intervals.now tables.now.mentions.now tables.now.safepoints.now work.old work.new counts k f start kind.class block result }
{
    let next = held::next_use_row(block, work, cap, counts, tables.mentions, kind.class, start);
    let choice = furthest_use(next, kind);
    weighing::weigh(mode, tables, work, cap, counts, k, f, block, choice)
}

// The block positions of the class, and the weighing.
fn steal_or_spill(
    mode: Mode,
    tables: &Tables,
    work: &mut [u32],
    cap: usize,
    counts: Counts,
    tracker: Tracker,
    k: usize,
    f: u16,
    kind: NumberedClass,
) -> Result<Counts, Refusal>
    requires { Contending cap tables.now.classes.now tables.now.registers.now tables.now.fragments.now tables.now.intervals.now tables.now.mentions.now tables.now.safepoints.now work.old counts tracker k kind.number kind.class }
    ensures { DidIn cap tables.now work.old work.new counts result (rule.weigh (stepping_of mode tables.now cap) (state_of cap work.old counts) k f (rule.furthest_of (class_for tables.now.classes.now tables.now.intervals.now (state_of cap work.old counts) k) (rule.next_use_pos (stepping_of mode tables.now cap) (state_of cap work.old counts) (piece (state_of cap work.old counts) k)))) }
{
    let q = state::piece(work, cap, counts, k);
    let block = block_row(tracker, tables, kind, q.start, q.end);
    weigh_uses(mode, tables, work, cap, counts, k, f, q.start, kind, block)
}

// The class of interval v.
fn class_of_interval(classes: &[u32], intervals: &[u32], v: usize) -> NumberedClass
    requires { HasClass classes.now intervals.now v }
    ensures { NumberedOf classes.now intervals.now v result }
{
    let number = read::class_of(intervals[v * read::INTERVAL_WORDS]) as usize;
    NumberedClass {
        number,
        class: read::class_in(classes[number]),
    }
}

// The class of record k.
fn class_of_record(
    tables: &Tables,
    work: &[u32],
    cap: usize,
    counts: Counts,
    k: usize,
) -> NumberedClass
    requires ready { Ready cap work.now counts }
    requires k_lt_records { k < counts.records }
    requires has_class { HasClass tables.now.classes.now tables.now.intervals.now (piece (state_of cap work.now counts) k).interval }
    ensures { NumberedOf tables.now.classes.now tables.now.intervals.now (piece (state_of cap work.now counts) k).interval result }
{
    let q = state::piece(work, cap, counts, k);
    class_of_interval(tables.classes, tables.intervals, q.interval as usize)
}

// No register but scratch: 11. Else the first use f is weighed.
fn contend(
    mode: Mode,
    tables: &Tables,
    work: &mut [u32],
    cap: usize,
    counts: Counts,
    tracker: Tracker,
    k: usize,
    f: u16,
) -> Result<Counts, Refusal>
    requires { SteppingIn cap tables.now work.old counts tracker k }
    ensures { DidIn cap tables.now work.old work.new counts result (rule.blocked_by (stepping_of mode tables.now cap) (state_of cap work.old counts) k (Some f)) }
{
    let kind = class_of_record(tables, work, cap, counts, k);
    if kind.class.count <= 1 {
        return Err(Refusal::NoRegister(k as u16));
    }
    steal_or_spill(mode, tables, work, cap, counts, tracker, k, f, kind)
}

// The first use of record k.
fn first_use(tables: &Tables, work: &[u32], cap: usize, counts: Counts, k: usize) -> Option<u16>
    requires { Held cap tables.now.mentions.now tables.now.safepoints.now work.now counts k }
    ensures { result ≡ first_use tables.now.mentions.now (piece (state_of cap work.now counts) k) }
{
    let q = state::piece(work, cap, counts, k);
    uses::mentions::next_use(tables.mentions, q.mentions, q.start)
}

// No mention: spill whole. Else the first use is weighed.
pub fn allocate_blocked_reg(
    mode: Mode,
    tables: &Tables,
    work: &mut [u32],
    cap: usize,
    counts: Counts,
    tracker: Tracker,
    k: usize,
) -> Result<Counts, Refusal>
    requires { SteppingIn cap tables.now work.old counts tracker k }
    ensures { DidIn cap tables.now work.old work.new counts result (rule.allocate_blocked (stepping_of mode tables.now cap) (state_of cap work.old counts) k) }
{
    let Some(f) = first_use(tables, work, cap, counts, k) else {
        return Ok(spills::spill(tables.intervals, work, cap, counts, k));
    };
    contend(mode, tables, work, cap, counts, tracker, k, f)
}
