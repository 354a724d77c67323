// The activity tracker: how many records are active, and for each register a cursor into its fragments, before which all end before the last start, and a bit, clear only where no fragment is ahead. Cursors only rise, so that of a register's fragments only the one at the cursor is ever looked at, and none where the class's bits are clear.
#![tactic(auto)]

use words::read;

pub mod bits;
pub mod ended;
pub mod fixed;

ghost use Rattle.std.specs.Prelude.{◌≡◌, ℕ, ◌+◌, ◌<◌, ◌≤◌, length};
ghost use Rattle.activity.specs.Cursors.{Moved, Ready, advanced, fresh_of, left_of};

// Limits: 64 registers.
pub const REGISTERS: usize = 64;

#[derive(Clone, Copy)]
pub struct Tracker {
    pub active: u16,
    pub ahead: u64,
    pub cursors: [u16; REGISTERS],
}

// Nothing is active, and every cursor stands at its register's first fragment.
pub fn fresh(registers: &[u32]) -> Tracker
    requires { length registers.now ≤ 64 }
    ensures { result ≡ fresh_of registers.now }
{
    let mut t = Tracker {
        active: 0,
        ahead: u64::MAX,
        cursors: [0; REGISTERS],
    };
    for r in 0..registers.len() {
        t.cursors[r] = read::range_in(registers[r]).index;
    }
    t
}

// The first fragment of from..stop that does not end before `start`.
fn moved_past(fragments: &[u32], from: u16, stop: usize, start: u16) -> usize
    requires { (from ≤ stop) × (stop ≤ length fragments.now) }
    ensures { Moved fragments.now from stop start result }
{
    for f in from as usize..stop {
        if start <= read::fragment_in(fragments[f]).last {
            return f;
        }
    }
    stop
}

// A register whose cursor stands past its fragments has none ahead.
#[tactic(auto, unfolding(crate::specs::Cursors::left_of))]
fn left(ahead: u64, r: usize, f: usize, stop: usize) -> u64
    requires { r < 64 }
    ensures { result ≡ left_of ahead r f stop }
{
    if f == stop {
        bits::without_bit(ahead, r)
    } else {
        ahead
    }
}

// For the popped piece's class, at each start: so many records are active, and the cursors of its registers move.
pub fn update(
    t: &mut Tracker,
    registers: &[u32],
    fragments: &[u32],
    first: usize,
    count: usize,
    start: u16,
    active: u16,
)
    requires { Ready registers.now fragments.now t.old first count }
    ensures { t.new ≡ advanced registers.now fragments.now t.old first count start active }
{
    t.active = active;
    if bits::none_set(t.ahead, first, count) {
        return;
    }
    for r in first..first + count {
        let range = read::range_in(registers[r]);
        let stop = range.index as usize + range.count as usize;
        let f = moved_past(fragments, t.cursors[r], stop, start);
        t.cursors[r] = f as u16;
        t.ahead = left(t.ahead, r, f, stop);
    }
}
