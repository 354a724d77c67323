// Tables as text on standard input, answers on standard output. `temgurisk_run` alone prints how to use it; crates/cases/src/lib.rt has the form of a case.
#![tactic(auto)]

ghost use Rattle.std.specs.Prelude.{◌≤◌, length};

use answers::{STDERR_FILENO, Way};
use std::env::{Env, FillError};

// More words than any command has, the program's own name among them.
const MANY: usize = 5;

// No word of a command is longer.
const WORD_BYTES: usize = 16;

const USAGE: &[u8] = b"\
temgurisk_run assign < TABLES     a line for each case: NAME NUMBER PLACE COUNT TOTAL, then the result words
temgurisk_run check < TABLES      the same for the claim of each case
temgurisk_run show < TABLES       assigns, and tells where each value lies
temgurisk_run explain-answer NUMBER PLACE     what an answer means
";

// What the program's words ask for.
#[derive(Clone, Copy, Debug, PartialEq, Eq)]
enum Command {
    Cases(Way),
    Sentence,
}

// The command of so many words whose first is this, if there is one.
fn command_of(word: &[u8], count: usize) -> Option<Command> {
    match (word, count) {
        (b"assign", 2) => Some(Command::Cases(Way::Assign)),
        (b"check", 2) => Some(Command::Cases(Way::Check)),
        (b"show", 2) => Some(Command::Cases(Way::Show)),
        (b"explain-answer", 4) => Some(Command::Sentence),
        _ => None,
    }
}

fn print_usage() {
    io::write_all(STDERR_FILENO, USAGE);
}

// The argument, in the lent bytes. One that is missing or too long is an empty word.
fn arg<'w, R: Env>(rt: &R, i: usize, word: &'w mut [u8; WORD_BYTES]) -> &'w [u8]
    ensures { length result.now ≤ 16 }
{
    match rt.arg(i, word) {
        Ok(n) => &word[..n],
        Err(_) => &[],
    }
}

// How many words the command has. More than the longest command has are not told apart.
fn arg_count<R: Env>(rt: &R) -> usize {
    let mut word = [0; WORD_BYTES];
    for i in 0..MANY {
        if let Err(FillError::NotPresent) = rt.arg(i, &mut word) {
            return i;
        }
    }
    MANY
}

// An empty word is no number.
fn explain<R: Env>(rt: &R) {
    let mut number = [0; WORD_BYTES];
    let mut place = [0; WORD_BYTES];
    let said = answers::explain::explain(arg(rt, 2, &mut number), arg(rt, 3, &mut place));
    if said.is_err() {
        print_usage();
    }
}

fn main(rt: HostRuntime) {
    let mut word = [0; WORD_BYTES];
    match command_of(arg(&rt, 1, &mut word), arg_count(&rt)) {
        Some(Command::Cases(way)) => turns::run::answer_input(way, &mut rt.stdin()),
        Some(Command::Sentence) => explain(&rt),
        None => print_usage(),
    }
}
