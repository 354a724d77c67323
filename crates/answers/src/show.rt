// An answer for a person: what became of the case, and where each record lies.
use crate::STDOUT_FILENO;
use crate::meaning::Meaning;
use crate::sink::Sink;
use std::fmt::Write;
use temgurisk::Reply;
use words::{IN_REGISTER, IN_SLOT, Record};

const DONE: u32 = 1;

// A record's line: its interval, its points, and its register or slot by the kind.
fn put_record(sink: &mut Sink, r: Record) {
    let Record {
        kind,
        interval,
        number,
        first,
        last,
        spare: _,
    } = r;
    let _ = write!(sink, "  interval {interval}  points {first}..{last}");
    let _ = match kind {
        IN_REGISTER => write!(sink, "  register {number}"),
        IN_SLOT => write!(sink, "  slot {number}"),
        _ => Ok(()),
    };
    sink.end_line();
}

// The first line, and a line for each record of a done assignment.
pub(crate) fn show(name: &[u8], reply: Reply, words: &[u32], out: &mut [u8]) {
    let Reply {
        number,
        place,
        count,
        total,
    } = reply;
    let mut sink = Sink::new(STDOUT_FILENO, out);
    sink.put(name);
    if number == DONE {
        let _ = write!(sink, ": done, records {count}, slot total {total}");
        sink.end_line();
        let (records, _) = words.as_chunks::<2>();
        for [first, second] in records {
            put_record(&mut sink, words::read::record_in(*first, *second));
        }
    } else {
        let _ = write!(sink, ": {}", Meaning { number, place });
        sink.end_line();
    }
}
