// Claims at the edges of each placement rule, for one set of tables: a line for each, with the answer and the lowest broken rule.
//
// The tables: 8 instructions; registers 0 and 1, scratch 1, fragment [8,9] on register 0; interval 0 is a reference of size 2, [0,7], def 0, safepoint 0; interval 1 is [4,15], use 5.
#![tactic(auto)]

use rules::{Claim, Refusal, Tables};

const STDOUT_FILENO: i32 = 1;

// Interval 0 in register 0, then in slot 0; interval 1 in slot 2, then in register 0.
const WHOLE: [u32; 8] = [
    0x40000000, 3, 0x80000000, 0x40007, 0x80040002, 0x40009, 0x40040000, 0xa000f,
];

// The digit of a rule, which is 1 to 7.
fn digit(rule: u16) -> u8 {
    char::from_digit(rule as u32, 10).map_or(b'?', |c| c as u8)
}

// A line is one write. Where it cannot be written, it is passed over, and the next ones still are.
fn put(line: &[u8]) {
    io::write_all(STDOUT_FILENO, line);
}

fn claim(words: &[u32], count: u32, total: u32) {
    let tables = Tables {
        instructions: 8,
        classes: &[0x28080],
        registers: &[1, 0x10000],
        fragments: &[0x80009],
        intervals: &[0x14000000, 7, 1, 1, 0, 0x4000f, 0x10001, 0x10000],
        mentions: &[1, 0xa0004],
        safepoints: &[0],
    };
    let claim = Claim {
        words,
        count,
        total,
    };
    match checker::check(&tables, &claim) {
        Ok(_) => put(b"1\n"),
        Err(Refusal::OverLimit) => put(b"3\n"),
        Err(Refusal::BrokenRule(rule)) => put(&[b'1', b'4', b' ', digit(rule), b'\n']),
        Err(_) => put(b"another\n"),
    }
}

fn obeyed() {
    // words after the claim are ignored
    let longer = [
        0x40000000, 3, 0x80000000, 0x40007, 0x80040002, 0x40009, 0x40040000, 0xa000f, 7, 7,
    ];
    claim(&longer, 4, 3);
    // up to the point before the fragment
    let edge = [
        0x40000000, 3, 0x80000000, 0x40007, 0x40040000, 0x40007, 0x80040002, 0x80009, 0x40040000,
        0xa000f,
    ];
    claim(&edge, 5, 3);
}

fn one_to_three() {
    // a gap at point 10
    let gap = [
        0x40000000, 3, 0x80000000, 0x40007, 0x80040002, 0x40009, 0x40040000, 0xb000f,
    ];
    claim(&gap, 4, 3);
    // the use at 5 in a slot
    let slot = [
        0x40000000, 3, 0x80000000, 0x40007, 0x80040002, 0x40009, 0x80040002, 0xa000f,
    ];
    claim(&slot, 4, 3);
    // the scratch register
    let scratch = [
        0x40000000, 3, 0x80000000, 0x40007, 0x80040002, 0x40009, 0x40040001, 0xa000f,
    ];
    claim(&scratch, 4, 3);
}

fn four_and_five() {
    // both in register 0 from point 4 on
    let both = [
        0x40000000, 3, 0x40000000, 0x40007, 0x40040000, 0x40009, 0x40040000, 0xa000f,
    ];
    claim(&both, 4, 0);
    // into the fragment
    let meets = [
        0x40000000, 3, 0x80000000, 0x40007, 0x40040000, 0x40008, 0x80040002, 0x90009, 0x40040000,
        0xa000f,
    ];
    claim(&meets, 5, 3);
}

fn six_and_seven() {
    // a greater total
    claim(&WHOLE, 4, 4);
    // slot 1 is one of interval 0's
    let shared = [
        0x40000000, 3, 0x80000000, 0x40007, 0x80040001, 0x40009, 0x40040000, 0xa000f,
    ];
    claim(&shared, 4, 2);
    // the safepoint's record ends before Def 0
    let early = [
        0x40000000, 0, 0x40000000, 0x10003, 0x80000000, 0x40007, 0x80040002, 0x40009, 0x40040000,
        0xa000f,
    ];
    claim(&early, 5, 3);
}

fn no_claim() {
    claim(&WHOLE, 0, 0);
    claim(&WHOLE, 5, 3);
    claim(&WHOLE, 16385, 3);
}

// The status is 0 also where a line cannot be written.
fn main() {
    obeyed();
    one_to_three();
    four_and_five();
    six_and_seven();
    no_claim();
}
