// The active piece of a register.
ghost use Rattle.store.specs.StateOf.{Ready};
ghost use Rattle.steps.specs.Stepping.{HolderOf};

use rules::Place;
use store::{Counts, state};

// The first active record in register r.
pub(crate) fn holder_of(work: &[u32], cap: usize, counts: Counts, r: u16) -> Option<u16>
    requires { Ready cap work.now counts }
    ensures { HolderOf cap work.now counts r result }
{
    for i in 0..counts.active {
        let j = state::active_at(work, cap, counts, i);
        let q = state::piece(work, cap, counts, j);
        if q.place == Place::Register(r) {
            return Some(j as u16);
        }
    }
    None
}
