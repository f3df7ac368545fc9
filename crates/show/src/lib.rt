// Answers in words, for the programs that people read.
#![tactic(auto)]

pub mod refusal;
mod unsound;
mod wrong;

use pool::Answer;
use std::fmt;

// An answer in words.
#[derive(Clone, Copy, Debug, PartialEq, Eq)]
pub struct InWords(pub Answer);

impl fmt::Display for InWords {
    fn fmt<W: fmt::Write>(&self, f: &mut fmt::Formatter<W>) -> fmt::Result {
        match self.0 {
            Answer::Accepted => write!(f, "accepted"),
            Answer::Yes => write!(f, "yes"),
            Answer::No => write!(f, "no"),
            Answer::At(label) => write!(f, "to {label}"),
            Answer::Hired(guard) => write!(f, "guard {}", guard.0),
            Answer::NoneFound => write!(f, "none found"),
            Answer::Fired => write!(f, "fired"),
            Answer::Posted => write!(f, "posted"),
            Answer::Back(count) => write!(f, "handed back {count}"),
            Answer::Count(n) => write!(f, "{n}"),
            Answer::Clear => write!(f, "clear"),
            Answer::Fault(id, places) => write!(f, "buffer {} has places {places}", id.0),
            Answer::Refused(refusal, place) => write!(
                f,
                "refused {} at place {place}",
                refusal.number()
            ),
        }
    }
}

// The ids of a list, each after a space.
#[derive(Clone, Copy, Debug, PartialEq, Eq)]
pub struct Ids<'a>(pub &'a [u32]);

impl fmt::Display for Ids<'_> {
    fn fmt<W: fmt::Write>(&self, f: &mut fmt::Formatter<W>) -> fmt::Result {
        for id in self.0 {
            write!(f, " {id}")?;
        }
        Ok(())
    }
}
