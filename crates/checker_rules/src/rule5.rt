// Rule 5: register records do not meet the fragments of their register.
// Of the fragments that start at the record's last point or before, only the last one can reach the record: one search for each record.
ghost use Rattle.std.specs.Prelude.{◌≡◌, ℕ, ◌+◌, ◌*◌, ◌<◌, ◌≤◌, length, get_or};
ghost use Rattle.checker_rules.specs.Says.{Says};
ghost use Rattle.checker_rules.specs.Lanes.{Registers};
ghost use Rattle.checker_rules.specs.Fixed.{Run, Runs, Meets, Clear};
ghost use Rattle.checker_rules.specs.Decides.{Decides5};

use crate::entries::Records;
use words::{IN_REGISTER, Range, Record, read};

// The first point stands above 16 bits of a fragment's word.
const FIRST_UNIT: u64 = 65536;

// Of a record and the fragments of a range.
fn meets(fragments: &[u32], range: Range, r: Record) -> bool
    requires { (Run fragments.now range.index (range.index + range.count)) × (r.first ≤ r.last) }
    ensures { Says result (Meets fragments.now range.index (range.index + range.count) r.first r.last) }
{
    let x = (r.last as u64 + 1) * FIRST_UNIT;
    let from = range.index as usize;
    let j = seek::lower(fragments, from, range.end(), x);
    from < j && r.first <= read::fragment_in(fragments[j - 1]).last
}

fn clear(records: Records, registers: &[u32], fragments: &[u32], k: usize) -> bool
    requires tables { (Runs registers.now fragments.now) × (Registers records.words.now records.count (length registers.now)) }
    requires place { k < records.count }
    ensures { Says result (Clear records.entry.words.now registers.now fragments.now k) }
{
    let r = records.record(k);
    if r.kind != IN_REGISTER {
        return true;
    }
    let q = r.number as usize;
    !meets(fragments, read::range_in(registers[q]), r)
}

pub fn rule5(records: Records, registers: &[u32], fragments: &[u32]) -> bool
    requires { (Runs registers.now fragments.now) × (Registers records.words.now records.count (length registers.now)) }
    ensures { Decides5 records.entry.words.now records.entry.count registers.now fragments.now result }
{
    (0..records.count).all(|k| clear(records, registers, fragments, k))
}
