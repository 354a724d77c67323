// The reader: one case after the other. After one that cannot be read it goes on past its `end`, or at the next `case`.
ghost use Rattle.std.specs.Prelude.{◌≡◌, ℕ, ◌+◌, ◌<◌, ◌≤◌, length, MatchResult};
ghost use Rattle.cases.specs.Bounds.{Named};
ghost use Rattle.cases.specs.Parts.{SameRoom};
ghost use Rattle.cases.specs.Reading.{Told, Reads, Onward, Good};

use crate::{Case, Cursor, Key, Span, Tables, Trouble, What, body, keyed, lines, scan};

// The start of a text.
pub fn start() -> Cursor
    ensures at_value { result.at ≡ 0 }
    ensures line_value { result.line ≡ 1 }
{
    Cursor { at: 0, line: 1 }
}

// Where the next case may start: past the line `end`, or at the line `case`.
fn recovered(text: &[u8], c: Cursor) -> Cursor
    ensures { result.at ≤ length text.now }
{
    let mut at = c;
    loop {
        let line = scan::next_line(text, at);
        let Span { from, to } = line.text;
        if from == to {
            return line.next;
        }
        let word = scan::next_word(text, from, to);
        let word = &text[word.from..word.to];
        if keyed::is_key(word, Key::Case) {
            return at;
        }
        if keyed::is_key(word, Key::End) {
            return line.next;
        }
        at = line.next;
    }
}

// The one that is further on.
fn further(a: Cursor, b: Cursor) -> Cursor
    ensures { (n : ℕ) → a.at ≤ n → b.at ≤ n → (b.at ≤ result.at) × (result.at ≤ n) }
{
    if a.at < b.at { b } else { a }
}

// A case that could not be read, since something is wrong with the line that follows `from`.
fn trouble(text: &[u8], name: Span, what: What, from: Cursor, after: Cursor) -> Trouble
    requires { after.at ≤ length text.now }
    ensures { Told name after (length text.now) result }
{
    Trouble {
        name,
        line: scan::next_line(text, from).number,
        what,
        next: further(recovered(text, from), after),
    }
}

// What a case's lines after its first say: the case, or what is wrong with it.
fn case_of(text: &[u8], name: Span, after: Cursor, tables: &mut Tables) -> Result<Case, Trouble>
    requires { after.at ≤ length text.now }
    ensures told { (at : ℕ) → Named at (length text.now) name after → MatchResult result (Good at (length text.now) tables.old) (λ t. Onward at (length text.now) t.name t.next) }
    ensures lent { SameRoom tables.old tables.new }
{
    let mut at = after;
    match body::body_of(text, &mut at, tables) {
        Ok(body) => Ok(Case {
            name,
            options: body.options,
            counts: body.counts,
            room: body.room,
            claim: body.claim,
            next: further(at, after),
        }),
        Err(what) => Err(trouble(text, name, what, at, after)),
    }
}

// The next case, its tables in the lent words; or what is wrong with it; or nothing at the end of the text.
pub fn read(text: &[u8], c: Cursor, tables: &mut Tables) -> Option<Result<Case, Trouble>>
    ensures reads { Reads c.at (length text.now) tables.old result }
    ensures lent { SameRoom tables.old tables.new }
{
    let line = scan::next_line(text, c);
    let Span { from, to } = line.text;
    if from == to {
        return None;
    }
    let mut at = c;
    match lines::title_of(text, &mut at) {
        Ok(name) => Some(case_of(text, name, at, tables)),
        Err(what) => Some(Err(Trouble {
            name: Span { from, to: from },
            line: line.number,
            what,
            next: line.next,
        })),
    }
}
