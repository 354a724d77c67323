// Lines and words of a text.
ghost use Rattle.std.specs.Prelude.{◌+◌, ◌<◌, ◌≤◌, length};
ghost use Rattle.cases.specs.Bounds.{Between, Inside, Ahead, Follows};

use crate::{Cursor, Span};

// A line that says something: its text, its number, and where the next one starts. It is empty only at the end of the input.
#[derive(Clone, Copy)]
pub(crate) struct Line {
    pub text: Span,
    pub number: u32,
    pub next: Cursor,
}

// The library's `is_ascii_whitespace` also takes a form feed, which is a byte of a word here.
pub(crate) fn is_blank(b: u8) -> bool {
    matches!(b, b' ' | b'\t' | b'\r')
}

// The first index of at..to whose byte is a stop, or to.
fn seek<F: Fn(u8) -> bool>(text: &[u8], at: usize, to: usize, stops: F) -> usize
    requires in_text { (at ≤ to) × (to ≤ length text.now) }
    requires callable { F.IsAlwaysCallable stops }
    ensures { Between at to result }
{
    text[at..to]
        .iter()
        .position(|b| stops(*b))
        .map_or(to, |k| at + k)
}

// The next word of at..to, empty where none is left.
pub(crate) fn next_word(text: &[u8], at: usize, to: usize) -> Span
    requires { (at ≤ to) × (to ≤ length text.now) }
    ensures { Inside at to result }
{
    let from = seek(text, at, to, |b| !is_blank(b));
    let end = seek(text, from, to, is_blank);
    Span { from, to: end }
}

// The line that starts at a cursor, which is not the end: its text without blanks in front and without the comment. It may be empty.
fn line_at(text: &[u8], c: Cursor) -> Line
    requires { c.at < length text.now }
    ensures { Ahead c.at (length text.now) result }
{
    let end = seek(text, c.at, text.len(), |b| b == b'\n');
    let to = seek(text, c.at, end, |b| b == b'#');
    let from = seek(text, c.at, to, |b| !is_blank(b));
    // Past the newline, or at the end of the text. A line number that would not fit stays.
    let next = Cursor {
        at: text.len().min(end + 1),
        line: c.line.saturating_add(1),
    };
    Line {
        text: Span { from, to },
        number: c.line,
        next,
    }
}

// The next line that says something, from a cursor on.
pub(crate) fn next_line(text: &[u8], c: Cursor) -> Line
    ensures { Follows c.at (length text.now) result }
{
    let mut at = c;
    while at.at < text.len() {
        let line = line_at(text, at);
        if line.text.from < line.text.to {
            return line;
        }
        at = line.next;
    }
    let end = text.len();
    Line {
        text: Span { from: end, to: end },
        number: at.line,
        next: Cursor {
            at: end,
            line: at.line,
        },
    }
}
