// The words of a case, and what is wrong with one, as text.
use crate::{Key, What};
use std::fmt;

impl Key {
    // The word that the line begins with.
    pub(crate) fn word(self) -> &'static str {
        match self {
            Key::Case => "case",
            Key::Opts => "opts",
            Key::Insts => "insts",
            Key::Classes => "classes",
            Key::Regs => "regs",
            Key::Frags => "frags",
            Key::Intervals => "intervals",
            Key::Mentions => "mentions",
            Key::Safepoints => "safepoints",
            Key::Room => "room",
            Key::Claim => "claim",
            Key::End => "end",
        }
    }
}

impl fmt::Display for What {
    fn fmt<W: fmt::Write>(&self, f: &mut fmt::Formatter<W>) -> fmt::Result {
        match self {
            What::Expected(key) => write!(f, "expected the word {}", key.word()),
            What::BadName => write!(f, "a case needs a name of one word"),
            What::NotANumber => write!(f, "a word is not a number"),
            What::TooLarge => write!(f, "a number is too large"),
            What::TooMany => write!(f, "too many words"),
            What::TooFew => write!(f, "too few numbers"),
            What::NotAFlag => write!(f, "a flag is 0 or 1"),
        }
    }
}
