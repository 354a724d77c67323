// A case that cannot be read: `NAME error line N: WHAT` on standard error.
ghost use Rattle.std.specs.Prelude.{◌≤◌, length};

use crate::STDERR_FILENO;
use crate::sink::Sink;
use cases::{Span, Trouble};
use std::fmt::Write;

// Writes that line, with a question mark where not even the name was read.
pub fn tell(text: &[u8], trouble: Trouble, out: &mut [u8])
    requires { (trouble.name.from ≤ trouble.name.to) × (trouble.name.to ≤ length text.now) }
{
    let Trouble {
        name: Span { from, to },
        line,
        what,
        next: _,
    } = trouble;
    let mut sink = Sink::new(STDERR_FILENO, out);
    if from == to {
        sink.put(b"?");
    } else {
        sink.put(&text[from..to]);
    }
    let _ = write!(sink, " error line {line}: {what}");
    sink.end_line();
}
