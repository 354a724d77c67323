// The two calls, their answers as four words. `temgurisk_c` exports them to C with flat parameters, and include/temgurisk.h declares them.
#![tactic(auto)]

ghost use Rattle.std.specs.Prelude.{◌≡◌, Err};
ghost use Rattle.rules.specs.Call.{Assigned};
ghost use Rattle.rules.specs.Checker.{Checks};
ghost use Rattle.rules.specs.Lent.{claim_of, tables_of};
ghost use Rattle.temgurisk.specs.Replies.{reply_of, Replied, Reviewed};

use rules::{Claim, Done, Options, Refusal, Tables};

// An answer by document 01's numbers.
#[repr(C)]
#[derive(Clone, Copy)]
pub struct Reply {
    pub number: u32,
    pub place: u32,
    pub count: u32,
    pub total: u32,
}

// The place of an answer that names none.
const NOWHERE: u16 = 65535;

// A refusal's number and place; its count and total are 0.
fn refused(refusal: Refusal) -> Reply
    ensures { result ≡ reply_of (Err refusal) }
{
    let (number, place) = match refusal {
        Refusal::BadStrategy => (2, NOWHERE),
        Refusal::OverLimit => (3, NOWHERE),
        Refusal::BadClass(k) => (4, k),
        Refusal::BadInterval(k) => (5, k),
        Refusal::BadMention(k) => (6, k),
        Refusal::BadSafepoint(k) => (7, k),
        Refusal::BadFixed(k) => (8, k),
        Refusal::NoRoom => (9, NOWHERE),
        Refusal::NoRecord(k) => (10, k),
        Refusal::NoRegister(k) => (11, k),
        Refusal::OutOfRegisters(k) => (12, k),
        Refusal::FixedClash(k) => (13, k),
        Refusal::BrokenRule(j) => (14, j),
    };
    Reply {
        number,
        place: place as u32,
        count: 0,
        total: 0,
    }
}

// The four words of an answer.
impl From<Result<Done, Refusal>> for Reply {
    ghost from_gives = { λ answer reply. reply ≡ reply_of answer };

    fn from(answer: Result<Done, Refusal>) -> Reply {
        match answer {
            Ok(done) => Reply {
                number: 1,
                place: NOWHERE as u32,
                count: done.count,
                total: done.total,
            },
            Err(refusal) => refused(refusal),
        }
    }
}

// `assign::call::assign`, which says what both areas hold afterwards.
pub fn temgurisk_assign(
    options: Options,
    tables: &Tables,
    res: &mut [u32],
    work: &mut [u32],
) -> Reply
    ensures { Replied options (tables_of tables.now) res.old res.new work.old work.new result }
{
    assign::call::assign(options, tables, res, work).into()
}

// `checker::check`, which writes nothing.
pub fn temgurisk_check(tables: &Tables, claim: &Claim) -> Reply
    ensures { Reviewed (tables_of tables.now) (claim_of claim.now) result }
{
    checker::check(tables, claim).into()
}
