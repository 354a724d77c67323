// Rows of positions, one for each class, and what a class's fragments put into its row.
ghost use Rattle.std.specs.Prelude.{◌≡◌, replicate};
ghost use Rattle.rules.specs.declared.Pos.TheVariants.{Never};
ghost use Rattle.activity.specs.Cursors.{Facing};
ghost use Rattle.choice.specs.Row.{FixedRow};

use crate::CLASSES;
use activity::{REGISTERS, Tracker, fixed};
use rules::Pos;
use words::{Class, read};

pub fn never_row() -> [Pos; REGISTERS]
    ensures { result ≡ replicate 64 Never }
{
    [Pos::Never; REGISTERS]
}

// The rows of all classes, before anything is popped.
pub fn never_rows() -> [[Pos; REGISTERS]; CLASSES]
    ensures { result ≡ replicate 8 (replicate 64 Never) }
{
    [[Pos::Never; REGISTERS]; CLASSES]
}

// The registers of a class get the positions that their fragments give.
pub fn fixed_row(
    mut row: [Pos; REGISTERS],
    tracker: Tracker,
    registers: &[u32],
    fragments: &[u32],
    class: Class,
    start: u16,
    end: u16,
) -> [Pos; REGISTERS]
    requires { Facing registers.now fragments.now start class.first class.count tracker }
    ensures { FixedRow registers.now fragments.now class.first class.count start end row result }
{
    let first = class.first as usize;
    let stop = first + class.count as usize;
    for r in first..stop {
        let range = read::range_in(registers[r]);
        row[r] = fixed::fixed_position(fragments, range, tracker.cursors[r], start, end);
    }
    row
}
