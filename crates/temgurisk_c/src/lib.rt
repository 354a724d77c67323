// The C face: the two calls of `temgurisk`, their slices as pointer and count. include/temgurisk.h declares it. Its archive is the one that C and Rust link.
#![tactic(auto)]

ghost use Rattle.tables.specs.Given.{tables};
ghost use Rattle.assign.specs.Calling.{options};
ghost use Rattle.checker.specs.Verdict.{claim};
ghost use Rattle.temgurisk.specs.Replies.{Replied, Reviewed};

use rules::{Claim, Options, Tables};
use temgurisk::Reply;

// `temgurisk::temgurisk_assign`, for C.
#[unsafe(no_mangle)]
pub extern "C" fn temgurisk_assign(
    strategy: u32,
    partial_split: bool,
    partial_split_near_end: bool,
    instructions: u32,
    classes: &[u32],
    registers: &[u32],
    fragments: &[u32],
    intervals: &[u32],
    mentions: &[u32],
    safepoints: &[u32],
    res: &mut [u32],
    work: &mut [u32],
) -> Reply
    ensures { Replied (options strategy partial_split partial_split_near_end) (tables instructions classes.now registers.now fragments.now intervals.now mentions.now safepoints.now) res.old res.new work.old work.new result }
{
    let options = Options {
        strategy,
        partial_split,
        partial_split_near_end,
    };
    let tables = Tables {
        instructions,
        classes,
        registers,
        fragments,
        intervals,
        mentions,
        safepoints,
    };
    temgurisk::temgurisk_assign(options, &tables, res, work)
}

// `temgurisk::temgurisk_check`, for C.
#[unsafe(no_mangle)]
pub extern "C" fn temgurisk_check(
    instructions: u32,
    classes: &[u32],
    registers: &[u32],
    fragments: &[u32],
    intervals: &[u32],
    mentions: &[u32],
    safepoints: &[u32],
    words: &[u32],
    count: u32,
    total: u32,
) -> Reply
    ensures { Reviewed (tables instructions classes.now registers.now fragments.now intervals.now mentions.now safepoints.now) (claim words.now count total) result }
{
    let tables = Tables {
        instructions,
        classes,
        registers,
        fragments,
        intervals,
        mentions,
        safepoints,
    };
    let claim = Claim {
        words,
        count,
        total,
    };
    temgurisk::temgurisk_check(&tables, &claim)
}
