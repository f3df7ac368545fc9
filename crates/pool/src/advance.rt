// One advance of a worker: the check, and the line of the label that it stands at.
ghost use Rattle.std.specs.Prelude.{◌≡◌};
ghost use Rattle.pool.specs.Answers.{told, answering};
ghost use Rattle.pool.specs.Steps.{advance_of, list_after};
ghost use Rattle.pool.specs.ForProofs.Calls.{answered};

use crate::answers::answer_of;
use crate::{Answer, Outcome, Pool, Refusal, Refused, WorkerNo};

impl Pool {
    // One smallest step of a worker. At label 32 the ids handed back go into the lent list, ascending from its start.
    pub fn advance(mut self, w: WorkerNo, out: &mut [u32]) -> Outcome
        ensures outcome { told result ≡ advance_of self w out.old }
        ensures list { out.new ≡ list_after self w out.old }
    {
        let answer = answer_of(self.step(w, out));
        Outcome { answer, pool: self }
    }

    fn step(&mut self, w: WorkerNo, out: &mut [u32]) -> Result<Answer, Refused>
        ensures outcome { answering (answered result) self.new ≡ advance_of self.old w out.old }
        ensures list { out.new ≡ list_after self.old w out.old }
    {
        let k = self.worker_check(w)?;
        if self.workers[k.at].label == 0 {
            return Err(Refusal::WorkerIdle.at(0));
        }
        self.line(k, out)
    }
}
