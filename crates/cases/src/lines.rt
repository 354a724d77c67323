// Single lines of a case. A line that was read moves the cursor on; at one that was not it stays.
ghost use Rattle.std.specs.Prelude.{◌≡◌, ◌+◌, ◌<◌, ◌≤◌, length, IfOk, OnOk, OnErr};
ghost use Rattle.cases.specs.Bounds.{Named};

use crate::{Cursor, Key, Span, What, keyed, numbers, scan};

// A line of words, the first `decimals` of them in decimal and the others in hex: how many there are.
pub(crate) fn words_of(
    text: &[u8],
    c: &mut Cursor,
    key: Key,
    decimals: usize,
    out: &mut [u32],
) -> Result<usize, What>
    ensures fits { IfOk result (λ n. (decimals ≤ n) × (n ≤ length out.old)) }
    ensures within { OnOk result (c.new.at ≤ length text.now) }
    ensures stays { OnErr result (c.new ≡ c.old) }
{
    let due = keyed::line_of(text, *c, key).ok_or(What::Expected(key))?;
    let n = numbers::words_in(&text[due.rest.from..due.rest.to], decimals, out)?;
    if n < decimals {
        return Err(What::TooFew);
    }
    *c = due.next;
    Ok(n)
}

// A line of so many numbers in decimal.
pub(crate) fn numbers_of<const N: usize>(
    text: &[u8],
    c: &mut Cursor,
    key: Key,
) -> Result<[u32; N], What>
    ensures within { OnOk result (c.new.at ≤ length text.now) }
    ensures stays { OnErr result (c.new ≡ c.old) }
{
    let mut numbers = [0; N];
    words_of(text, c, key, N, &mut numbers)?;
    Ok(numbers)
}

// The first line of a case: its name, one word.
pub(crate) fn title_of(text: &[u8], c: &mut Cursor) -> Result<Span, What>
    ensures named { IfOk result (λ s. Named c.old.at (length text.now) s c.new) }
    ensures stays { OnErr result (c.new ≡ c.old) }
{
    let due = keyed::line_of(text, *c, Key::Case).ok_or(What::Expected(Key::Case))?;
    let Span { from, to } = due.rest;
    let name = scan::next_word(text, from, to);
    if name.from == name.to {
        return Err(What::BadName);
    }
    let more = scan::next_word(text, name.to, to);
    if more.from < more.to {
        return Err(What::BadName);
    }
    *c = due.next;
    Ok(name)
}
