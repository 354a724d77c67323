// How much of the lent words a case gets.
ghost use Rattle.std.specs.Prelude.{◌≡◌, ◌≤◌, take};
ghost use Rattle.answers.specs.Lending.{Lends};

use cases::Room;

// So many words of the result area, and of the work area.
#[derive(Clone, Copy)]
pub(crate) struct Space {
    pub result: usize,
    pub work: usize,
}

// The room that was asked for, cut to what there is: more than the most changes no answer.
pub(crate) fn lent(room: Option<Room>, area: usize, work: usize) -> Space
    ensures { Lends area work result }
{
    match room {
        None => Space { result: area, work },
        Some(room) => Space {
            result: area.min(room.result as usize),
            work: work.min(room.work as usize),
        },
    }
}

// The words of so many records, as far as the result area goes.
pub(crate) fn record_words(count: u32, len: usize) -> usize
    ensures { result ≤ len }
{
    len.min(count as usize * 2)
}

// The first n words of a table, or all where there are fewer.
pub(crate) fn first(table: &[u32], n: usize) -> &[u32]
    ensures { result.now ≡ take n table.now }
{
    &table[..n.min(table.len())]
}
