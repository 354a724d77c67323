// 3: a count exceeds its limit, no class, or interval words not a multiple of 4.
ghost use Rattle.std.specs.Prelude.{◌≡◌};
ghost use Rattle.rules.specs.Lent.{tables_of};
ghost use Rattle.rules.specs.Sound.{in_limits, check_limits};

use rules::{Refusal, Tables};
use words::read;

const INSTRUCTIONS: u32 = 32768;

const CLASSES: usize = 8;

const REGISTERS: usize = 64;

const FRAGMENTS: usize = 8192;

const INTERVALS: usize = 4096;

const MENTIONS: usize = 16384;

const SAFEPOINTS: usize = 16384;

fn in_limits(tables: &Tables) -> bool
    ensures { result ≡ in_limits (tables_of tables.now) }
{
    tables.instructions <= INSTRUCTIONS
        && (1..=CLASSES).contains(&tables.classes.len())
        && tables.registers.len() <= REGISTERS
        && tables.fragments.len() <= FRAGMENTS
        && read::interval_count(tables.intervals) <= INTERVALS
        && tables.mentions.len() <= MENTIONS
        && tables.safepoints.len() <= SAFEPOINTS
        && tables.intervals.len() % read::INTERVAL_WORDS == 0
}

pub(crate) fn check_limits(tables: &Tables) -> Result<(), Refusal>
    ensures { result ≡ check_limits (tables_of tables.now) }
{
    if in_limits(tables) {
        Ok(())
    } else {
        Err(Refusal::OverLimit)
    }
}
