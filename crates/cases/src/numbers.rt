// Numbers of a line, in decimal and in hex.
ghost use Rattle.std.specs.Prelude.{◌+◌, ◌<◌, ◌≤◌, length, IfOk};

use crate::What;
use crate::scan::is_blank;

#[derive(Clone, Copy)]
pub(crate) enum Base {
    Ten,
    Sixteen,
}

impl Base {
    fn radix(self) -> u32
        ensures { (2 ≤ result) × (result ≤ 16) }
    {
        match self {
            Base::Ten => 10,
            Base::Sixteen => 16,
        }
    }

    // Zeros in front are digits too.
    fn most_digits(self) -> usize {
        match self {
            Base::Ten => 10,
            Base::Sixteen => 8,
        }
    }
}

// The number that a word spells. `from_str_radix` would also take a sign.
fn number_in(word: &[u8], base: Base) -> Result<u32, What> {
    if base.most_digits() < word.len() {
        return Err(What::TooLarge);
    }
    let radix = base.radix();
    let mut value = 0u32;
    for b in word {
        let digit = char::from(*b).to_digit(radix).ok_or(What::NotANumber)?;
        let scaled = value.checked_mul(radix).ok_or(What::TooLarge)?;
        value = scaled.checked_add(digit).ok_or(What::TooLarge)?;
    }
    Ok(value)
}

// Reads the numbers of a line into `out`, the first `decimals` of them in decimal and the others in hex.
pub(crate) fn words_in(line: &[u8], decimals: usize, out: &mut [u32]) -> Result<usize, What>
    ensures { IfOk result (λ n. n ≤ length out.old) }
{
    let mut n = 0;
    for word in line.split(|b| is_blank(*b)).filter(|word| !word.is_empty()) {
        if n == out.len() {
            return Err(What::TooMany);
        }
        let base = if n < decimals {
            Base::Ten
        } else {
            Base::Sixteen
        };
        out[n] = number_in(word, base)?;
        n += 1;
    }
    Ok(n)
}
