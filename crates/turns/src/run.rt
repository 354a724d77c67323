// The whole of it: the input is read, and every case in it answered.
use crate::{each, input};
use answers::{STDERR_FILENO, Way};
use cases::Tables;
use std::io::Read;

// The tables are one entry longer than their limits, so that a table over its limit can still be read and is answered 3.
fn answer_text(way: Way, text: &[u8]) {
    let mut tables = Tables {
        classes: &mut [0; 9],
        registers: &mut [0; 65],
        fragments: &mut [0; 8193],
        intervals: &mut [0; 16388],
        mentions: &mut [0; 16385],
        safepoints: &mut [0; 16385],
        claim: &mut [0; 32772],
    };
    let mut result = [0u32; 32768];
    let mut work = [0u32; 131328];
    let mut out = [0u8; 65536];
    each::all(way, text, &mut tables, &mut result, &mut work, &mut out);
}

// Reads the input into the lent bytes, whose last has to stay free, and answers it.
fn answer_in<R: Read>(way: Way, from: &mut R, text: &mut [u8]) {
    match input::fill(from, text) {
        Ok(n) => answer_text(way, &text[..n]),
        Err(error) => {
            io::write_all(STDERR_FILENO, error.line());
        }
    }
}

// The bytes as a slice, apart from where they are made: the prover runs out of stack where it meets four million zeros.
fn answer_room<R: Read>(way: Way, from: &mut R, text: &mut [u8; 4194305]) {
    answer_in(way, from, text);
}

// Answers every case of the input, which is standard input in the programs, of at most 4,194,304 bytes. A longer one is refused whole.
pub fn answer_input<R: Read>(way: Way, from: &mut R) {
    let mut text = [0u8; 4194305];
    answer_room(way, from, &mut text);
}
