// The answers in the paper's numbers, and what is answered of a call.
ghost use Rattle.std.specs.Prelude.{◌≡◌};
ghost use Rattle.pool.specs.Answers.{said, number_of};
ghost use Rattle.pool.specs.declared.Answer.TheVariants.{Refused as RefusedAt};
ghost use Rattle.pool.specs.ForProofs.Calls.{answered};

use crate::{Answer, Refusal, Refused};

impl Refusal {
    // Kept: a method with the paper's table, and no discriminants, since its contract and Demand1 (one_number) name it.
    pub fn number(self) -> u32
        ensures { result ≡ number_of self }
    {
        match self {
            Refusal::SizesOutOfRange => 1,
            Refusal::CountsOutOfRange => 21,
            Refusal::EntryBeyondCounts => 22,
            Refusal::KindUnknown => 23,
            Refusal::IdOutOfRange => 24,
            Refusal::RegisterOutOfRange => 25,
            Refusal::NoSuchWorker => 3,
            Refusal::WorkerNotIdle => 4,
            Refusal::WorkerIdle => 5,
            Refusal::NoSuchGuard => 6,
            Refusal::GuardNotEmployed => 7,
            Refusal::GuardPosted => 8,
            Refusal::NoSuchBuffer => 9,
            Refusal::BufferRepeated => 10,
            Refusal::BufferInWrongState => 11,
            Refusal::VersionsUsedUp => 12,
            Refusal::ListTooShort => 13,
            Refusal::MemberNotLeaving => 14,
        }
    }

    pub(crate) fn at(self, place: usize) -> Refused
        ensures refusal { number_of result.refusal ≡ number_of self }
        ensures place { result.place ≡ place }
    {
        Refused {
            refusal: self,
            place,
        }
    }
}

impl From<Refused> for Answer {
    ghost from_gives = { λ r a. a ≡ RefusedAt r.refusal r.place };

    fn from(refused: Refused) -> Answer {
        Answer::Refused(refused.refusal, refused.place)
    }
}

pub(crate) fn answer_of(done: Result<Answer, Refused>) -> Answer
    ensures { said result ≡ answered done }
{
    match done {
        Ok(answer) => answer,
        Err(refused) => Answer::from(refused),
    }
}
