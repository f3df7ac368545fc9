// Making a pool.
ghost use Rattle.std.specs.Prelude.{◌≡◌};
ghost use Rattle.pool.specs.Answers.{told};
ghost use Rattle.pool.specs.Make.{make_of};
ghost use Rattle.pool.specs.Record.{blank};

use crate::sound::in_range;
use crate::{Answer, Outcome, Pool, Refusal};
use idset::IdSet;
use worker::Worker;

impl Pool {
    // A fresh pool: all buffers free, no guard taken, every worker idle. Out of range, refusal 1 and the all-zero record, which is not
    // sound.
    #[tactic(auto, using(crate::proofs::Told::makes), unfolding(crate::specs::Make::make_of))]
    pub fn make(w: u32, g: u32, b: u32) -> Outcome
        ensures { told result ≡ make_of w g b }
    {
        if in_range(w, g, b) {
            Outcome {
                answer: Answer::Accepted,
                pool: Pool::blank(w, g, b),
            }
        } else {
            Outcome {
                answer: Answer::Refused(Refusal::SizesOutOfRange, 0),
                pool: Pool::blank(0, 0, 0),
            }
        }
    }

    // The record of these counts whose every other number is 0.
    pub fn blank(w: u32, g: u32, b: u32) -> Pool
        ensures { result ≡ blank w g b }
    {
        Pool {
            w,
            g,
            b,
            maxg: 0,
            taken: [false; 32],
            employer: [0; 32],
            posted: [0; 32],
            slot_id: [0; 32],
            slot_version: [0; 32],
            states: [0; 256],
            workers: [Worker::idle(); 8],
            sets: [IdSet::empty(); 8],
        }
    }
}
