// What stands between the first line of a case and its end. Where a line cannot be read, the cursor stays before it, and nothing is read after it.
ghost use Rattle.std.specs.Prelude.{◌≡◌, ◌+◌, ◌<◌, ◌≤◌, length, IfOk, OnOk};
ghost use Rattle.cases.specs.Bounds.{ClaimFits};
ghost use Rattle.cases.specs.Parts.{SameRoom, Fitting, Whole};

use crate::{Counts, Cursor, Key, Options, Room, Tables, What, keyed, lines};

// The claimed count and total.
const CLAIM_NUMBERS: usize = 2;

#[derive(Clone, Copy)]
pub(crate) struct Body {
    pub options: Options,
    pub counts: Counts,
    pub room: Option<Room>,
    pub claim: Option<usize>,
}

fn flag(n: u32) -> Result<bool, What> {
    match n {
        0 => Ok(false),
        1 => Ok(true),
        _ => Err(What::NotAFlag),
    }
}

// The lines `opts` and `insts`.
fn options_of(text: &[u8], c: &mut Cursor) -> Result<Options, What>
    ensures { OnOk result (c.new.at ≤ length text.now) }
{
    let mut after = *c;
    let mut asked = [0; 3];
    let read = lines::words_of(text, &mut after, Key::Opts, asked.len(), &mut asked);
    // A wrong flag is told first, also where the line has too many or too few numbers.
    let [strategy, partial, near_end] = asked;
    let partial_split = flag(partial)?;
    let partial_split_near_end = flag(near_end)?;
    read?;
    *c = after;
    let [instructions] = lines::numbers_of::<1>(text, c, Key::Insts)?;
    Ok(Options {
        strategy,
        partial_split,
        partial_split_near_end,
        instructions,
    })
}

// The six tables, one after the other.
fn tables_of(text: &[u8], c: &mut Cursor, tables: &mut Tables) -> Result<Counts, What>
    ensures fits { IfOk result (Fitting tables.old) }
    ensures within { OnOk result (c.new.at ≤ length text.now) }
    ensures lent { SameRoom tables.old tables.new }
{
    Ok(Counts {
        classes: lines::words_of(text, c, Key::Classes, 0, tables.classes)?,
        registers: lines::words_of(text, c, Key::Regs, 0, tables.registers)?,
        fragments: lines::words_of(text, c, Key::Frags, 0, tables.fragments)?,
        intervals: lines::words_of(text, c, Key::Intervals, 0, tables.intervals)?,
        mentions: lines::words_of(text, c, Key::Mentions, 0, tables.mentions)?,
        safepoints: lines::words_of(text, c, Key::Safepoints, 0, tables.safepoints)?,
    })
}

// The line `room`, if it is there.
fn room_of(text: &[u8], c: &mut Cursor) -> Result<Option<Room>, What>
    requires { c.old.at ≤ length text.now }
    ensures { OnOk result (c.new.at ≤ length text.now) }
{
    if keyed::line_of(text, *c, Key::Room).is_none() {
        return Ok(None);
    }
    let [result, work] = lines::numbers_of::<2>(text, c, Key::Room)?;
    Ok(Some(Room { result, work }))
}

// The line `claim`, if it is there.
fn claim_of(text: &[u8], c: &mut Cursor, claim: &mut [u32]) -> Result<Option<usize>, What>
    requires { c.old.at ≤ length text.now }
    ensures fits { IfOk result (ClaimFits (length claim.old)) }
    ensures within { OnOk result (c.new.at ≤ length text.now) }
{
    if keyed::line_of(text, *c, Key::Claim).is_none() {
        return Ok(None);
    }
    Ok(Some(lines::words_of(text, c, Key::Claim, CLAIM_NUMBERS, claim)?))
}

// The lines of a case after the first, to its end.
pub(crate) fn body_of(text: &[u8], c: &mut Cursor, tables: &mut Tables) -> Result<Body, What>
    ensures whole { IfOk result (Whole tables.old) }
    ensures within { OnOk result (c.new.at ≤ length text.now) }
    ensures lent { SameRoom tables.old tables.new }
{
    let options = options_of(text, c)?;
    let counts = tables_of(text, c, tables)?;
    let room = room_of(text, c)?;
    let claim = claim_of(text, c, tables.claim)?;
    lines::numbers_of::<0>(text, c, Key::End)?;
    Ok(Body {
        options,
        counts,
        room,
        claim,
    })
}
