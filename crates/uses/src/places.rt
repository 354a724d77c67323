// Where a split falls: the strategies' picks, and the partial split.
ghost use Rattle.std.specs.Prelude.{◌≡◌, Some};
ghost use Rattle.words.specs.Packed.{part};
ghost use Rattle.rules.specs.Uses.{mention_points};
ghost use Rattle.rules.specs.Split.{or_from, or_start, if_above, near_end, near_use, partial_place};
ghost use Rattle.rules.specs.Split as split;
ghost use Rattle.uses.specs.Runs.{Rising};

use crate::mentions;
use rules::{Mode, Strategy};
use words::{Range, points};

// No candidate, or one outside from..to, becomes from.
fn or_from(from: u16, to: u16, candidate: Option<u32>) -> u16
    ensures { result ≡ or_from from to candidate }
{
    match candidate {
        Some(p) if from as u32 <= p && p <= to as u32 => p as u16,
        _ => from,
    }
}

// The strategy's candidate. A sum of points is no point perhaps, so candidates are counted in u32.
#[tactic(auto, unfolding(rules::specs::Split::candidate), using(crate::proofs::PlaceLaws::one_before, crate::proofs::PlaceLaws::two_before))]
fn candidate(strategy: Strategy, from: u16, to: u16) -> Option<u32>
    ensures { result ≡ split.candidate from to strategy }
{
    let low = from as u32;
    let high = to as u32;
    match strategy {
        Strategy::From => Some(low),
        Strategy::To => Some(high),
        Strategy::NextFrom => Some(low + 1),
        Strategy::NextNextFrom => Some(low + 2),
        Strategy::Mid => Some(2 * ((low / 2 + high / 2) / 2)),
        Strategy::PrevTo => high.checked_sub(1),
        Strategy::PrevPrevTo => high.checked_sub(2),
    }
}

// The strategy's pick in from..to.
#[tactic(auto, unfolding(rules::specs::Split::pick))]
pub fn pick(strategy: Strategy, from: u16, to: u16) -> u16
    ensures { result ≡ split.pick strategy from to }
{
    or_from(from, to, candidate(strategy, from, to))
}

// A place, if above v.
fn if_above(v: u16, p: u16) -> Option<u16>
    ensures { result ≡ if_above v (Some p) }
{
    (v < p).then_some(p)
}

// The Use two points before a Use a, or one before a Def a, if above v.
fn near_end(v: u16, a: u16) -> Option<u16>
    ensures { result ≡ near_end v a }
{
    if !points::is_use(a) {
        if_above(v, a - 1)
    } else if a < 2 {
        None
    } else {
        if_above(v, a - 2)
    }
}

// The next Use after v, if below a.
fn near_use(v: u16, a: u16) -> Option<u16>
    ensures { result ≡ near_use v a }
{
    let p = 2 * (v as u32 / 2 + 1);
    if p < a as u32 { Some(p as u16) } else { None }
}

// Where the partial split at a falls, if it works.
pub fn partial_place(mode: Mode, start: u16, mentions: &[u32], range: Range, a: u16) -> Option<u16>
    requires { Rising range mentions.now }
    ensures { result ≡ partial_place mode start (mention_points (part range mentions.now)) a }
{
    if mode.partial_split {
        let v = mentions::last_use(mentions, range, a).unwrap_or(start);
        if mode.partial_split_near_end {
            near_end(v, a)
        } else {
            near_use(v, a)
        }
    } else {
        None
    }
}
