// The position that a register's fragments give, by its cursor.
ghost use Rattle.std.specs.Prelude.{◌≡◌};
ghost use Rattle.words.specs.Packed.{part};
ghost use Rattle.activity.specs.Fixed.{Faced, fixed_pos};

use rules::Pos;
use words::{Range, read};

// Blocked if a fragment contains `start`, else the first fragment start in start..end, else never.
pub fn fixed_position(fragments: &[u32], range: Range, cursor: u16, start: u16, end: u16) -> Pos
    requires { Faced fragments.now range cursor start }
    ensures { result ≡ fixed_pos start end (part range fragments.now) }
{
    let at = cursor as usize;
    let stop = range.index as usize + range.count as usize;
    if stop <= at {
        return Pos::Never;
    }
    let fragment = read::fragment_in(fragments[at]);
    if fragment.first <= start {
        return Pos::Blocked;
    }
    if fragment.first <= end {
        return Pos::At(fragment.first);
    }
    Pos::Never
}
