// One case after the other.
ghost use Rattle.std.specs.Prelude.{◌≤◌, length, IfSome};
ghost use Rattle.answers.specs.Lending.{Named};
ghost use Rattle.turns.specs.Turns.{Onto};

use answers::{Way, answer, trouble};
use cases::{Case, Cursor, Tables};

// Answers a case by the tables that it was read into.
fn answer_read(
    way: Way,
    text: &[u8],
    case: Case,
    tables: &Tables,
    res: &mut [u32],
    work: &mut [u32],
    out: &mut [u8],
)
    requires { Named (length text.now) (length tables.now.claim.now) case }
{
    let lent = rules::Tables {
        instructions: case.options.instructions,
        classes: tables.classes,
        registers: tables.registers,
        fragments: tables.fragments,
        intervals: tables.intervals,
        mentions: tables.mentions,
        safepoints: tables.safepoints,
    };
    answer::answer(way, text, case, &lent, tables.claim, res, work, out);
}

// One turn: reads the next case into the lent tables, and answers it, or tells what is wrong with it. Where the next turn starts, unless the text is over.
fn turn(
    way: Way,
    text: &[u8],
    c: Cursor,
    tables: &mut Tables,
    res: &mut [u32],
    work: &mut [u32],
    out: &mut [u8],
) -> Option<Cursor>
    ensures { IfSome result (Onto c.at (length text.now)) }
{
    match cases::reader::read(text, c, tables)? {
        Ok(case) => {
            answer_read(way, text, case, tables, res, work, out);
            Some(case.next)
        }
        Err(trouble) => {
            trouble::tell(text, trouble, out);
            Some(trouble.next)
        }
    }
}

// Every case of a text.
pub(crate) fn all(
    way: Way,
    text: &[u8],
    tables: &mut Tables,
    res: &mut [u32],
    work: &mut [u32],
    out: &mut [u8],
) {
    let mut c = cases::reader::start();
    while let Some(next) = turn(way, text, c, tables, res, work, out) {
        c = next;
    }
}
