// The first word of a line.
ghost use Rattle.std.specs.Prelude.{◌+◌, ◌<◌, ◌≤◌, length, IfSome};
ghost use Rattle.cases.specs.Bounds.{Rest};

use crate::{Cursor, Key, Span, scan};

// The line that was due: what stands after its first word, and where the next line starts.
#[derive(Clone, Copy)]
pub(crate) struct Due {
    pub rest: Span,
    pub next: Cursor,
}

pub(crate) fn is_key(word: &[u8], key: Key) -> bool {
    word == key.word().as_bytes()
}

// The next line that says something, if its first word is the one that is due.
pub(crate) fn line_of(text: &[u8], c: Cursor, key: Key) -> Option<Due>
    ensures { IfSome result (Rest c.at (length text.now)) }
{
    let line = scan::next_line(text, c);
    let Span { from, to } = line.text;
    if from == to {
        return None;
    }
    let word = scan::next_word(text, from, to);
    if !is_key(&text[word.from..word.to], key) {
        return None;
    }
    Some(Due {
        rest: Span { from: word.to, to },
        next: line.next,
    })
}
