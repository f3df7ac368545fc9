// The begins, take and ask. Each works on the record where it stands, and a check that refuses leaves it so; the public call takes the
// record by value and hands it back.
ghost use Rattle.std.specs.Prelude.{◌≡◌};
ghost use Rattle.pool.specs.Answers.{told, answering};
ghost use Rattle.pool.specs.Begins.{hire_of, fire_of, post_of, give_up_of, take_of, ask_of};
ghost use Rattle.pool.specs.ForProofs.Calls.{answered};

use crate::answers::answer_of;
use crate::lists::leaving;
use crate::{Answer, BufferId, GuardNo, Outcome, Pool, Refused, WorkerNo};
use worker::Worker;

impl Pool {
    pub fn hire(mut self, w: WorkerNo) -> Outcome
        ensures { told result ≡ hire_of self w }
    {
        let answer = answer_of(self.begin_hire(w));
        Outcome { answer, pool: self }
    }

    #[tactic(auto, using(crate::proofs::Told::begins), unfolding(crate::specs::Begins::hire_of))]
    fn begin_hire(&mut self, w: WorkerNo) -> Result<Answer, Refused>
        ensures { answering (answered result) self.new ≡ hire_of self.old w }
    {
        let k = self.begin_check(w)?;
        self.workers[k.at] = Worker {
            i: 0,
            label: 2,
            ..self.workers[k.at]
        };
        Ok(Answer::Accepted)
    }

    pub fn fire(mut self, w: WorkerNo, g: GuardNo) -> Outcome
        ensures { told result ≡ fire_of self w g }
    {
        let answer = answer_of(self.begin_fire(w, g));
        Outcome { answer, pool: self }
    }

    #[tactic(auto, using(crate::proofs::Told::begins), unfolding(crate::specs::Begins::fire_of))]
    fn begin_fire(&mut self, w: WorkerNo, g: GuardNo) -> Result<Answer, Refused>
        ensures { answering (answered result) self.new ≡ fire_of self.old w g }
    {
        let (k, i) = self.fire_check(w, g)?;
        self.employer[i.at] = 0;
        self.workers[k.at] = Worker {
            i: g.0,
            label: 7,
            ..self.workers[k.at]
        };
        Ok(Answer::Accepted)
    }

    // Buffer 0 stands the guard down.
    pub fn post(mut self, w: WorkerNo, g: GuardNo, b: BufferId) -> Outcome
        ensures { told result ≡ post_of self w g b }
    {
        let answer = answer_of(self.begin_post(w, g, b));
        Outcome { answer, pool: self }
    }

    #[tactic(auto, using(crate::proofs::Told::begins), unfolding(crate::specs::Begins::post_of))]
    fn begin_post(&mut self, w: WorkerNo, g: GuardNo, b: BufferId) -> Result<Answer, Refused>
        ensures { answering (answered result) self.new ≡ post_of self.old w g b }
    {
        let k = self.post_check(w, g, b)?;
        self.workers[k.at] = Worker {
            i: g.0,
            v: b.0,
            label: 9,
            ..self.workers[k.at]
        };
        Ok(Answer::Accepted)
    }

    // The empty list is accepted: it collects what slots hold.
    pub fn give_up(mut self, w: WorkerNo, ids: &[u32]) -> Outcome
        ensures { told result ≡ give_up_of self w ids.now }
    {
        let answer = answer_of(self.begin_give_up(w, ids));
        Outcome { answer, pool: self }
    }

    fn begin_give_up(&mut self, w: WorkerNo, ids: &[u32]) -> Result<Answer, Refused>
        ensures { answering (answered result) self.new ≡ give_up_of self.old w ids.now }
    {
        let k = self.begin_check(w)?;
        let set = self.list_check(ids)?;
        leaving(&mut self.states, ids);
        self.sets[k.at] = set;
        self.workers[k.at] = Worker {
            i: 0,
            label: 12,
            ..self.workers[k.at]
        };
        Ok(Answer::Accepted)
    }

    pub fn take(mut self, b: BufferId) -> Outcome
        ensures { told result ≡ take_of self b }
    {
        let answer = answer_of(self.take_buffer(b));
        Outcome { answer, pool: self }
    }

    #[tactic(auto, using(crate::proofs::Told::begins), unfolding(crate::specs::Begins::take_of))]
    fn take_buffer(&mut self, b: BufferId) -> Result<Answer, Refused>
        ensures { answering (answered result) self.new ≡ take_of self.old b }
    {
        let k = self.take_check(b)?;
        self.states[k.at] = 1;
        Ok(Answer::Accepted)
    }

    #[tactic(auto, using(crate::proofs::Told::begins), unfolding(crate::specs::Begins::ask_of))]
    pub fn ask(self, w: WorkerNo, b: BufferId) -> Outcome
        ensures { told result ≡ ask_of self w b }
    {
        let answer = match self.ask_check(w, b) {
            Ok(k) if self.states[k.at] == 1 => Answer::Yes,
            Ok(_) => Answer::No,
            Err(refused) => Answer::from(refused),
        };
        Outcome { answer, pool: self }
    }
}
