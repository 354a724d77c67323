// 4: class bad.
ghost use Rattle.std.specs.Prelude.{◌≡◌, ◌<◌, ◌≤◌, length};
ghost use Rattle.rules.specs.Lent.{tables_of};
ghost use Rattle.rules.specs.Sound.{scratch_good, class_good, bad_class};
ghost use Rattle.tables.specs.Entries.{Summed};

use rules::Tables;
use words::{Class, read};

fn scratch_good(c: Class) -> bool
    ensures { result ≡ scratch_good c }
{
    if 0 < c.count {
        c.scratched && c.first <= c.scratch && (c.scratch as u32) < c.first as u32 + c.count as u32
    } else {
        !c.scratched && c.scratch == 0
    }
}

// Class k, where `sum` is the sum of the counts before it: with its own count that is the sum of all if it is the last.
fn class_good(tables: &Tables, k: usize, sum: usize) -> bool
    requires { (k < length tables.now.classes.now) × (length tables.now.classes.now ≤ 8) × (Summed tables.now.classes.now k sum) }
    ensures { result ≡ class_good (tables_of tables.now) k }
{
    let c = read::class_at(tables.classes, k);
    let all = sum + c.count as usize;
    c.spare == 0
        && c.first as usize == sum
        && scratch_good(c)
        && (k + 1 < tables.classes.len() || all == tables.registers.len())
}

pub(crate) fn bad_class(tables: &Tables) -> Option<u16>
    requires { length tables.now.classes.now ≤ 8 }
    ensures { result ≡ bad_class (tables_of tables.now) }
{
    // Not `walk::first_bad`: the test of a class needs the sum of the counts before it, which the walk carries.
    let mut sum: usize = 0;
    for k in 0..tables.classes.len() {
        if !class_good(tables, k, sum) {
            return Some(k as u16);
        }
        let c = read::class_at(tables.classes, k);
        sum += c.count as usize;
    }
    None
}
