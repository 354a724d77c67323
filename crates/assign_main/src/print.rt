// Standard output; parts of a line: an answer's number, place, count and total, words in hex or numbers, each after a space; and a digest of words.
use std::fmt::Write;
use std::io::Print;
use std::{fmt, str};
use temgurisk::Reply;

const STDOUT_FILENO: i32 = 1;

const WORD_DIGITS: usize = 8;

// Standard output, each piece of a text a write of its own. A piece that cannot be written is passed over, and those after it still are.
#[derive(Clone, Copy, Drop)]
pub(crate) struct Out;

impl fmt::Write for Out {
    fn write_str(&mut self, s: &str) -> fmt::Result {
        io::write_all(STDOUT_FILENO, s.as_bytes());
        Ok(())
    }
}

impl Print for Out {
    fn print<D: fmt::Display + Drop>(&self, value: D) -> std::io::Result<()> {
        let mut out = Out;
        let _ = write!(out, "{value}");
        Ok(())
    }

    fn println<D: fmt::Display + Drop>(&self, value: D) -> std::io::Result<()> {
        let mut out = Out;
        let _ = write!(out, "{value}\n");
        Ok(())
    }

    fn write_all(&self, bytes: &[u8]) -> std::io::Result<()> {
        io::write_all(STDOUT_FILENO, bytes);
        Ok(())
    }
}

#[derive(Clone, Copy, Drop)]
pub(crate) struct Told(pub Reply);

impl fmt::Display for Told {
    fn fmt<W: fmt::Write>(&self, f: &mut fmt::Formatter<W>) -> fmt::Result {
        let Reply {
            number,
            place,
            count,
            total,
        } = self.0;
        write!(f, " {number} {place} {count} {total}")
    }
}

#[derive(Clone, Copy, Drop)]
pub(crate) struct Words<'w>(pub &'w [u32]);

impl fmt::Display for Words<'_> {
    fn fmt<W: fmt::Write>(&self, f: &mut fmt::Formatter<W>) -> fmt::Result {
        // the digits as one piece, where `{:08x}` makes two of them
        for word in self.0 {
            let mut digits = [0; 16];
            let n = io::hex(*word as u64, WORD_DIGITS, &mut digits);
            f.write_str(" ")?;
            f.write_str(str::from_utf8(&digits[..n]).unwrap_or_default())?;
        }
        Ok(())
    }
}

#[derive(Clone, Copy, Drop)]
pub(crate) struct Numbers<'n>(pub &'n [u32]);

impl fmt::Display for Numbers<'_> {
    fn fmt<W: fmt::Write>(&self, f: &mut fmt::Formatter<W>) -> fmt::Result {
        for number in self.0 {
            write!(f, " {number}")?;
        }
        Ok(())
    }
}

// The sum of the words, turned to the left by a bit before each one, so that their order counts too.
pub(crate) fn digest(words: &[u32]) -> u32 {
    words
        .iter()
        .fold(0u32, |sum, word| sum.rotate_left(1).wrapping_add(*word))
}
