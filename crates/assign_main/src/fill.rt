// Tables that are filled by steps, and parts of tables.

// Four words in a row, as those of an interval.
pub(crate) type Row = [u32; 4];

// Each row is the one before plus a step, modulo 2^32.
pub(crate) fn rows(t: &mut [u32], first: Row, step: Row) {
    let mut row = first;
    for words in t.chunks_mut(4) {
        for (word, value) in words.iter_mut().zip(row) {
            *word = value;
        }
        for (value, more) in row.iter_mut().zip(step) {
            *value = value.wrapping_add(more);
        }
    }
}

// Each word is the one before plus a step, modulo 2^32.
pub(crate) fn words(t: &mut [u32], first: u32, step: u32) {
    let mut next = first;
    for word in t {
        *word = next;
        next = next.wrapping_add(step);
    }
}

// The first n words, or all where there are fewer.
pub(crate) fn part(t: &[u32], n: usize) -> &[u32] {
    &t[..n.min(t.len())]
}
