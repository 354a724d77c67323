// A piece's mentions: the next use, the last use, and how many stay at a split. They ascend, so each walk stops at the first that answers.
ghost use Rattle.std.specs.Prelude.{◌≡◌};
ghost use Rattle.words.specs.Packed.{mention_in, part};
ghost use Rattle.rules.specs.Uses.{at_use, at_def, points_in, mention_points, is_point, next_use, last_use};
ghost use Rattle.uses.specs.Runs.{Rising, Kept};
ghost use Rattle.uses.specs.Mentions.{Numbered, dot, stays_below};

use words::{Range, points, read};

// A use or mod has the Use point, (`|`: with `||` the flags were compiled to a shift by a variable, and the walks took up to a third longer)
fn at_use(w: u32) -> bool
    ensures { result ≡ at_use (mention_in w) }
{
    let m = read::mention_in(w);
    m.uses | m.mods
}

// a mod or def the Def point.
fn at_def(w: u32) -> bool
    ensures { result ≡ at_def (mention_in w) }
{
    let m = read::mention_in(w);
    m.mods | m.defs
}

fn instruction_in(w: u32) -> u16
    ensures { Numbered w result }
{
    read::mention_in(w).instruction
}

// A point that is there, if at or after p.
#[tactic(auto, unfolding(rules::specs::Uses::next_use))]
fn point_from(there: bool, x: u16, p: u16) -> Option<u16>
    ensures { result ≡ next_use p (dot there x) }
{
    (p <= x && there).then_some(x)
}

// A point that is there, if at or before p.
#[tactic(auto, unfolding(rules::specs::Uses::last_use))]
fn point_until(there: bool, x: u16, p: u16) -> Option<u16>
    ensures { result ≡ last_use p (dot there x) }
{
    (x <= p && there).then_some(x)
}

// The first point of a mention at or after p: the Use point, else the Def point. By `match` the Def point is asked for only where there is no Use point;
// with `or` the walk took longer. Next and last mirror one another, but for the early answer of last: one function of both would test the direction at each step, and be no plainer.
fn next_in(w: u32, p: u16) -> Option<u16>
    ensures { result ≡ next_use p (points_in (mention_in w)) }
{
    let i = instruction_in(w);
    match point_from(at_use(w), points::use_point(i), p) {
        Some(x) => Some(x),
        None => point_from(at_def(w), points::def_point(i), p),
    }
}

// The last point of a mention at or before p: the Def point, else the Use point. A walk from the end passes those whose Use point is after p by one test.
fn last_in(w: u32, p: u16) -> Option<u16>
    ensures { result ≡ last_use p (points_in (mention_in w)) }
{
    let i = instruction_in(w);
    let use_at = points::use_point(i);
    if p < use_at {
        return None;
    }
    match point_until(at_def(w), points::def_point(i), p) {
        Some(x) => Some(x),
        None => point_until(at_use(w), use_at, p),
    }
}

// A mention stays at a split at p: a point of it is below p.
fn stays(w: u32, p: u16) -> bool
    ensures { result ≡ stays_below p w }
{
    let i = instruction_in(w);
    if at_use(w) {
        points::use_point(i) < p
    } else {
        at_def(w) && points::def_point(i) < p
    }
}

// The least mention point of a run at or after p.
pub fn next_use(mentions: &[u32], range: Range, p: u16) -> Option<u16>
    requires { Rising range mentions.now }
    ensures { result ≡ next_use p (mention_points (part range mentions.now)) }
{
    let from = range.index as usize;
    for n in 0..range.count as usize {
        if let Some(x) = next_in(mentions[from + n], p) {
            return Some(x);
        }
    }
    None
}

// The greatest mention point of a run at or before p, from its end.
pub fn last_use(mentions: &[u32], range: Range, p: u16) -> Option<u16>
    requires { Rising range mentions.now }
    ensures { result ≡ last_use p (mention_points (part range mentions.now)) }
{
    let from = range.index as usize;
    for n in (0..range.count as usize).rev() {
        if let Some(x) = last_in(mentions[from + n], p) {
            return Some(x);
        }
    }
    None
}

// p is a mention point of a run: the next use from p is p.
pub fn is_mention_point(mentions: &[u32], range: Range, p: u16) -> bool
    requires { Rising range mentions.now }
    ensures { result ≡ is_point p (mention_points (part range mentions.now)) }
{
    next_use(mentions, range, p) == Some(p)
}

// How many mentions of a run stay at a split at p: the index of the first that does not. std's `partition_point` proves the same, but took up to a third
// longer in runs of up to 32, and most are short.
pub fn staying_mentions(mentions: &[u32], range: Range, p: u16) -> u16
    requires { Rising range mentions.now }
    ensures { Kept (stays_below p) range mentions.now result }
{
    let from = range.index as usize;
    for n in 0..range.count as usize {
        if !stays(mentions[from + n], p) {
            return n as u16;
        }
    }
    range.count
}
