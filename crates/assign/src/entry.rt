// What is settled before the run: the capacity, the room, and the checks 3 to 9 in order.
ghost use Rattle.std.specs.Prelude.{◌≡◌, ℕ, ◌≤◌, min};
ghost use Rattle.words.specs.Packed.{interval_count};
ghost use Rattle.rules.specs.Room.{capacity, check_room};
ghost use Rattle.rules.specs.Call.{check as checkOf};
ghost use Rattle.rules.specs.Lent.{tables_of};

use rules::{Refusal, Tables};
use tables::check;
use words::read;

const RECORD_WORDS: usize = 2;

const MOST_RECORDS: usize = 16384;

// The work area: so many words for each record of capacity, and some besides.
const WORK_WORDS: usize = 8;

const WORK_BESIDES: usize = 256;

// The records that a result area holds: half its length, at most 16,384.
pub(crate) fn capacity_of(res: &[u32]) -> usize
    ensures { result ≡ capacity res.now }
{
    (res.len() / RECORD_WORDS).min(MOST_RECORDS)
}

// 9: a record for each interval, and a work area long enough for the capacity.
#[tactic(auto, unfolding(rules::specs::Room::check_room))]
fn check_room(intervals: usize, cap: usize, work: usize) -> Result<(), Refusal>
    requires { cap ≤ 16384 }
    ensures { result ≡ check_room intervals cap work }
{
    if cap < intervals || work < WORK_WORDS * cap + WORK_BESIDES {
        return Err(Refusal::NoRoom);
    }
    Ok(())
}

// 3 to 8, then 9; the first refusal is the answer.
pub(crate) fn check(tables: &Tables, cap: usize, work: usize) -> Result<(), Refusal>
    requires { cap ≤ 16384 }
    ensures { result ≡ checkOf (tables_of tables.now) cap work }
{
    check::check_tables(tables)?;
    check_room(read::interval_count(tables.intervals), cap, work)
}
