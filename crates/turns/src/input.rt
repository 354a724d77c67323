// The input, read whole into lent bytes.
ghost use Rattle.std.specs.Prelude.{◌≤◌, length, IfOk};

use std::io::Read;

// Why the input could not be had.
#[derive(Clone, Copy, Debug, PartialEq, Eq)]
pub(crate) enum InputError {
    // There is more than the lent bytes but one can hold.
    TooLong,
    // A read failed.
    Failed,
}

impl InputError {
    // The line that tells it.
    pub(crate) fn line(self) -> &'static [u8] {
        match self {
            InputError::TooLong => b"the input is longer than 4194304 bytes\n",
            InputError::Failed => b"the input could not be read\n",
        }
    }
}

// How many bytes came. The last of the lent bytes is never used: once all are full, there may be more to come.
pub(crate) fn fill<R: Read>(from: &mut R, text: &mut [u8]) -> Result<usize, InputError>
    ensures { IfOk result (λ n. n ≤ length text.old) }
{
    let mut n = 0;
    while n < text.len() {
        let more = from.read(&mut text[n..]).map_err(|_| InputError::Failed)?;
        if more == 0 {
            return Ok(n);
        }
        n += more;
    }
    Err(InputError::TooLong)
}
