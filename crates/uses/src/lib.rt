// Uses: the next and the last use of a piece, what of it stays at a split, and where a split falls. By value and over lent tables, no work area.
#![tactic(auto)]

use rules::Piece;

pub mod cuts;
pub mod mentions;
pub mod places;
pub mod safepoints;

// The two pieces that a split makes of one.
#[derive(Clone, Copy)]
pub struct Halves {
    pub parent: Piece,
    pub child: Piece,
}
