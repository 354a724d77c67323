// Points: instruction i has Use point 2i and Def point 2i+1.
ghost use Rattle.std.specs.Prelude.{◌≡◌, ℕ, ◌+◌, ◌*◌, ◌<◌, ◌≤◌};
ghost use Rattle.words.specs.Points.{use_point, def_point, next, previous, instruction_of, is_use};

pub fn use_point(i: u16) -> u16
    requires { i < 32768 }
    ensures { result ≡ use_point i }
{
    2 * i
}

pub fn def_point(i: u16) -> u16
    requires { i < 32768 }
    ensures { result ≡ def_point i }
{
    2 * i + 1
}

pub fn instruction_of(p: u16) -> u16
    ensures { result ≡ instruction_of p }
{
    p / 2
}

pub fn is_use(p: u16) -> bool
    ensures { result ≡ is_use p }
{
    p % 2 == 0
}

// Point 65,535 has a next in the definitions, 65,536, which is a number and no point of a table.
pub fn next_of(p: u16) -> u32
    ensures { result ≡ next p }
{
    p as u32 + 1
}

// Point 0 has no previous.
pub fn previous_of(p: u16) -> Option<u16>
    ensures { result ≡ previous p }
{
    if p == 0 {
        return None;
    }
    Some(p - 1)
}
