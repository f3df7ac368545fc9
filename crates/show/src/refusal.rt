// Every refusal in words.
use crate::InWords;
use crate::unsound::Soundness;
use pool::{Answer, Pool, Refusal};
use std::fmt;

// Why a call was refused that left this record.
#[derive(Clone, Copy, Debug, PartialEq, Eq)]
pub struct Reason<'a> {
    pub pool: &'a Pool,
    pub refusal: Refusal,
}

impl fmt::Display for Reason<'_> {
    fn fmt<W: fmt::Write>(&self, f: &mut fmt::Formatter<W>) -> fmt::Result {
        let pool = self.pool;
        match self.refusal {
            Refusal::SizesOutOfRange => {
                write!(f, "W is not 1 to 8, G is not 1 to 32 or B is not 1 to 256")
            }
            Refusal::NoSuchWorker => write!(f, "there is no such worker: W is {}", pool.w),
            Refusal::WorkerNotIdle => write!(f, "the worker is not idle"),
            Refusal::WorkerIdle => write!(f, "the worker is idle"),
            Refusal::NoSuchGuard => write!(f, "there is no such guard: G is {}", pool.g),
            Refusal::GuardNotEmployed => {
                write!(f, "the guard's employer is another worker or none")
            }
            Refusal::GuardPosted => write!(f, "the guard's posted id is not 0"),
            Refusal::NoSuchBuffer => write!(f, "there is no such buffer: B is {}", pool.b),
            Refusal::BufferRepeated => write!(f, "the list names the buffer twice"),
            Refusal::BufferInWrongState => write!(
                f,
                "the buffer is not free to be taken, or not in service to be given up"
            ),
            Refusal::VersionsUsedUp => {
                write!(f, "the slot's version is the largest and cannot go up")
            }
            Refusal::ListTooShort => write!(f, "the lent list is shorter than the worker's set"),
            Refusal::MemberNotLeaving => write!(f, "a member of the worker's set is not leaving"),
            Refusal::CountsOutOfRange
            | Refusal::EntryBeyondCounts
            | Refusal::KindUnknown
            | Refusal::IdOutOfRange
            | Refusal::RegisterOutOfRange => write!(f, "{}", Soundness(pool)),
        }
    }
}

// The answer to a call that left this record; a refusal with its words.
#[derive(Clone, Copy, Debug, PartialEq, Eq)]
pub struct WithReason<'a> {
    pub pool: &'a Pool,
    pub answer: Answer,
}

impl fmt::Display for WithReason<'_> {
    fn fmt<W: fmt::Write>(&self, f: &mut fmt::Formatter<W>) -> fmt::Result {
        write!(f, "{}", InWords(self.answer))?;
        if let Answer::Refused(refusal, _) = self.answer {
            let pool = self.pool;
            write!(f, ", {}", Reason { pool, refusal })?;
        }
        Ok(())
    }
}
