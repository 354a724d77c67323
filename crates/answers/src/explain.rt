// What the words of a command ask of an answer.
ghost use Rattle.std.specs.Prelude.{◌≤◌};

use crate::STDOUT_FILENO;
use crate::meaning::Meaning;
use crate::sink::Sink;
use std::fmt::Write;

// Up to here a number can take one more digit.
const MOST_BEFORE: u32 = 429496728;

// A word that should be a number is none, so that no sentence was written.
#[derive(Clone, Copy, Debug, Drop, PartialEq, Eq)]
pub struct NotANumber;

// The number that a word spells in decimal. The library's `parse` would also take a sign.
fn number_in(word: &[u8]) -> Result<u32, NotANumber> {
    if word.is_empty() {
        return Err(NotANumber);
    }
    let mut value = 0u32;
    for b in word {
        let digit = char::from(*b).to_digit(10).ok_or(NotANumber)?;
        if MOST_BEFORE < value {
            return Err(NotANumber);
        }
        value = value * 10 + digit;
    }
    Ok(value)
}

// Writes on standard output what the answer of this number and place means.
pub fn explain(number: &[u8], place: &[u8]) -> Result<(), NotANumber> {
    let number = number_in(number)?;
    let place = number_in(place)?;
    let mut out = [0u8; 512];
    let mut sink = Sink::new(STDOUT_FILENO, &mut out);
    let _ = sink.write(Meaning { number, place });
    sink.end_line();
    Ok(())
}
