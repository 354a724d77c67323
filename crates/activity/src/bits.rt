// A word of 64 bits, one for each register.
ghost use Rattle.std.specs.Prelude.{◌≡◌, ℕ, ◌+◌, ◌<◌, ◌≤◌};
ghost use Rattle.activity.specs.Bits.{has_bit, without_bit, WithBit, NoneSet};

const ONE: u64 = 1;

const BITS: usize = 64;

pub fn has_bit(mask: u64, r: usize) -> bool
    requires { r < 64 }
    ensures { result ≡ has_bit mask r }
{
    (mask >> r) & ONE == ONE
}

pub fn with_bit(mask: u64, r: usize) -> u64
    requires { r < 64 }
    ensures { WithBit mask r result }
{
    mask | (ONE << r)
}

pub(crate) fn without_bit(mask: u64, r: usize) -> u64
    requires { r < 64 }
    ensures { result ≡ without_bit mask r }
{
    mask & !(ONE << r)
}

// None of `count` bits from `first` on.
pub fn none_set(mask: u64, first: usize, count: usize) -> bool
    requires { first + count ≤ 64 }
    ensures { NoneSet mask first count result }
{
    count == 0 || (mask >> first) << (BITS - count) == 0
}
