// The words: the one place that knows how they lie. Of each record of capacity, 4 words hold a piece, 1 a key of the heap, 1 a home, 1 an active record.
ghost use Rattle.std.specs.Prelude.{◌≡◌, ℕ, ◌+◌, ◌*◌, ◌<◌, ◌≤◌, get_or, set, None};
ghost use Rattle.store.specs.Cells.{place_of, Packable, Unpacked, home_in, HomePacked, Cells, cells, with_pieces, with_homes, with_active, At, Becomes, PieceAt, HeapOpen, HeapFilled, KeyPushed, KeyPopped};

use rules::{Piece, Place};
use words::{IN_REGISTER, IN_SLOT, Record, read, write};

const PIECE_WORDS: usize = 4;

const HEAP: usize = 4;

const HOMES: usize = 5;

const ACTIVE: usize = 6;

const SPILLED: u32 = 65536;

fn place_of(kind: u16, number: u16) -> Place
    ensures { result ≡ place_of kind number }
{
    match kind {
        IN_REGISTER => Place::Register(number),
        IN_SLOT => Place::Slot(number),
        _ => Place::Nowhere,
    }
}

// The result record of a piece: its first two words.
pub(crate) fn record_for(q: Piece) -> Record
    requires { q.interval < 4096 }
    ensures { Packable q result }
{
    let (kind, number) = match q.place {
        Place::Nowhere => (0, 0),
        Place::Register(r) => (IN_REGISTER, r),
        Place::Slot(t) => (IN_SLOT, t),
    };
    Record {
        kind,
        interval: q.interval,
        spare: 0,
        number,
        first: q.start,
        last: q.end,
    }
}

fn piece_in(w0: u32, w1: u32, w2: u32, w3: u32) -> Piece
    ensures { Unpacked w0 w1 w2 w3 result }
{
    let record = read::record_in(w0, w1);
    Piece {
        interval: record.interval,
        place: place_of(record.kind, record.number),
        start: record.first,
        end: record.last,
        mentions: read::range_in(w2),
        safepoints: read::range_in(w3),
    }
}

pub fn piece_at(work: &[u32], cap: usize, k: usize) -> Piece
    requires { At cap work.now k }
    ensures { PieceAt cap work.now k result }
{
    let b = k * PIECE_WORDS;
    piece_in(work[b], work[b + 1], work[b + 2], work[b + 3])
}

pub fn put_piece(work: &mut [u32], cap: usize, k: usize, q: Piece)
    requires at { At cap work.old k }
    requires interval_bound { q.interval < 4096 }
    ensures { Becomes cap work.old work.new (with_pieces (set (cells cap work.old).pieces k q) (cells cap work.old)) }
{
    let row = write::record_row(record_for(q));
    let b = k * PIECE_WORDS;
    work[b] = row[0];
    work[b + 1] = row[1];
    work[b + 2] = write::range_word(q.mentions);
    work[b + 3] = write::range_word(q.safepoints);
}

fn home_in(w: u32) -> Option<u16>
    ensures { result ≡ home_in w }
{
    if w / SPILLED == 0 {
        None
    } else {
        Some((w % SPILLED) as u16)
    }
}

fn home_word(home: Option<u16>) -> u32
    ensures { HomePacked home result }
{
    match home {
        None => 0,
        Some(t) => SPILLED + t as u32,
    }
}

pub fn home_at(work: &[u32], cap: usize, k: usize) -> Option<u16>
    requires { At cap work.now k }
    ensures { result ≡ get_or (cells cap work.now).homes k None }
{
    home_in(work[cap * HOMES + k])
}

pub fn put_home(work: &mut [u32], cap: usize, k: usize, home: Option<u16>)
    requires { At cap work.old k }
    ensures { Becomes cap work.old work.new (with_homes (set (cells cap work.old).homes k home) (cells cap work.old)) }
{
    work[cap * HOMES + k] = home_word(home);
}

pub fn active_at(work: &[u32], cap: usize, k: usize) -> usize
    requires { At cap work.now k }
    ensures { result ≡ get_or (cells cap work.now).active k 0 }
{
    work[cap * ACTIVE + k] as usize
}

pub fn put_active(work: &mut [u32], cap: usize, k: usize, j: usize)
    requires at { At cap work.old k }
    requires j_bound { j < 16384 }
    ensures { Becomes cap work.old work.new (with_active (set (cells cap work.old).active k j) (cells cap work.old)) }
{
    work[cap * ACTIVE + k] = j as u32;
}

// `put_piece`, `put_home` and `put_active` differ in how many words an entry takes and in how it is packed: one generic function would want a trait of
// packings with its laws, which is longer than the three.

// The heap's part of the area is lent to `queue`, with what lies behind it.
pub fn push_key(work: &mut [u32], cap: usize, n: usize, key: u32)
    requires { HeapOpen cap work.old n }
    ensures { KeyPushed cap work.old work.new n key }
{
    queue::push(&mut work[cap * HEAP..], n, key);
}

pub fn pop_key(work: &mut [u32], cap: usize, n: usize) -> u32
    requires { HeapFilled cap work.old n }
    ensures { KeyPopped cap work.old work.new n result }
{
    queue::pop(&mut work[cap * HEAP..], n)
}
