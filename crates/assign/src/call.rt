// The public call, and how a run's end is written out.
ghost use Rattle.rules.specs.Call.{Assigned, run_for};
ghost use Rattle.split.specs.Turns.{outcome_of};
ghost use Rattle.rules.specs.Lent.{tables_of};
ghost use Rattle.assign.specs.Calling.{Allowed, Closing, Concluded};

use crate::{entry, run};
use rules::{Done, Mode, Options, Refusal, Strategy, Tables};
use store::{Counts, area};

// The records of a run that is done; zeros for one that was refused.
fn conclude(
    work: &[u32],
    res: &mut [u32],
    turn: Result<Counts, Refusal>,
    cap: usize,
) -> Result<Done, Refusal>
    requires { Closing cap work.now res.old turn }
    ensures { Concluded (outcome_of cap work.now turn) res.old res.new result }
{
    match turn {
        Ok(counts) => {
            area::emit(work, res, cap, counts);
            Ok(Done {
                count: counts.records as u32,
                total: counts.total,
            })
        }
        Err(refusal) => {
            area::zero(res, cap);
            Err(refusal)
        }
    }
}

// The run, on tables and room that passed the checks.
fn assign_checked(
    mode: Mode,
    tables: &Tables,
    res: &mut [u32],
    work: &mut [u32],
    cap: usize,
) -> Result<Done, Refusal>
    requires { Allowed (tables_of tables.now) cap work.old res.old }
    ensures { Concluded (run_for mode (tables_of tables.now) cap) res.old res.new result }
{
    let begun = area::load(tables.intervals, work, cap);
    let ended = run::run(mode, tables, work, cap, begun);
    conclude(work, res, ended, cap)
}

// Any words at all get an answer, and both areas hold what it says.
pub fn assign(
    options: Options,
    tables: &Tables,
    res: &mut [u32],
    work: &mut [u32],
) -> Result<Done, Refusal>
    ensures { Assigned options (tables_of tables.now) res.old res.new work.old work.new result }
{
    let strategy = Strategy::try_from(options.strategy)?;
    let cap = entry::capacity_of(res);
    // not by `?`: so a must-fail edit can turn the answer alone, and is refused for what it answers
    if let Err(refusal) = entry::check(tables, cap, work.len()) {
        return Err(refusal);
    }
    let mode = Mode {
        strategy,
        partial_split: options.partial_split,
        partial_split_near_end: options.partial_split_near_end,
    };
    assign_checked(mode, tables, res, work, cap)
}
