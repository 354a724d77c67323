// Bytes for a file, collected in lent bytes and written where a line ends or no more would fit.
ghost use Rattle.std.specs.Prelude.{◌≤◌, length};

use crate::STDERR_FILENO;
use std::fmt;

#[derive(Drop)]
pub(crate) struct Sink<'b> {
    fd: i32,
    bytes: &'b mut [u8],
    // So many of them are put, and not written yet.
    at: usize,
    ghost in_range: { at ≤ length bytes.now },
}

fn write(fd: i32, bytes: &[u8]) {
    if !io::write_all(fd, bytes) {
        io::write_all(STDERR_FILENO, b"a line could not be written\n");
    }
}

impl<'b> Sink<'b> {
    pub(crate) fn new(fd: i32, bytes: &'b mut [u8]) -> Sink<'b> {
        Sink { fd, bytes, at: 0 }
    }

    // Writes what was put.
    fn flush(&mut self) {
        write(self.fd, &self.bytes[..self.at]);
        self.at = 0;
    }

    // Puts bytes. What is longer than all the lent bytes is written at once.
    pub(crate) fn put(&mut self, bytes: &[u8]) {
        if self.bytes.len() - self.at < bytes.len() {
            self.flush();
        }
        if self.bytes.len() - self.at < bytes.len() {
            write(self.fd, bytes);
            return;
        }
        let end = self.at + bytes.len();
        self.bytes[self.at..end].copy_from_slice(bytes);
        self.at = end;
    }

    // The end of a line.
    pub(crate) fn end_line(&mut self) {
        self.put(b"\n");
        self.flush();
    }
}

impl fmt::Write for Sink<'_> {
    // Takes every text: where one cannot be written, that is told on standard error.
    fn write_str(&mut self, s: &str) -> fmt::Result {
        self.put(s.as_bytes());
        Ok(())
    }
}
