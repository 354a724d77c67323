// A split at p: the parent ends before p and keeps what has a point below p, the child starts at p and has the rest.
ghost use Rattle.std.specs.Prelude.{◌≡◌, ◌-◌};
ghost use Rattle.rules.specs.Split.{first_of, rest_of};
ghost use Rattle.uses.specs.Runs.{Orderly, Room};
ghost use Rattle.uses.specs.Cuts.{parent_by, child_by, Cut};

use crate::{Halves, mentions, safepoints};
use rules::{Piece, Place};
use words::Range;

fn first_of(n: u16, r: Range) -> Range
    ensures { result ≡ first_of n r }
{
    Range { count: n, ..r }
}

fn rest_of(n: u16, r: Range) -> Range
    requires { Room n r }
    ensures { result ≡ rest_of n r }
{
    Range {
        index: r.index + n,
        count: r.count - n,
    }
}

// The parent, of which m mentions and s safepoints stay. On accepted tables no split is at point 0, which has none before it; the definitions end the
// parent at 0 there.
fn parent_of(q: Piece, p: u16, m: u16, s: u16) -> Piece
    ensures { result ≡ parent_by q p m s }
{
    Piece {
        end: p.saturating_sub(1),
        mentions: first_of(m, q.mentions),
        safepoints: first_of(s, q.safepoints),
        ..q
    }
}

// The child, which lies nowhere yet.
fn child_of(q: Piece, p: u16, m: u16, s: u16) -> Piece
    requires mentions { Room m q.mentions }
    requires safepoints { Room s q.safepoints }
    ensures { result ≡ child_by q p m s }
{
    Piece {
        place: Place::Nowhere,
        start: p,
        mentions: rest_of(m, q.mentions),
        safepoints: rest_of(s, q.safepoints),
        ..q
    }
}

// Both halves of a split at p.
pub fn cut(mentions: &[u32], safepoints: &[u32], q: Piece, p: u16) -> Halves
    requires { Orderly q mentions.now safepoints.now }
    ensures { Cut mentions.now safepoints.now q p result }
{
    let m = mentions::staying_mentions(mentions, q.mentions, p);
    let s = safepoints::staying_safepoints(safepoints, q.safepoints, p);
    Halves {
        parent: parent_of(q, p, m, s),
        child: child_of(q, p, m, s),
    }
}
