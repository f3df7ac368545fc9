// The questions: nothing changes, so each gives only its answer.
ghost use Rattle.std.specs.Prelude.{◌≡◌, ◌≤◌, eqb, get_or};
ghost use Rattle.basics.specs.Below.{count_below};
ghost use Rattle.pool.specs.Answers.{said};
ghost use Rattle.pool.specs.Questions.{set_size_of, leaving_count_of, audit_from, audit_of};

use crate::{Answer, BufferId, Pool, WorkerNo};

// How many states are leaving. Every entry is asked and none left early, so that it runs as vector code.
fn count_leaving(states: &[u8; 256]) -> u32
    ensures { result ≡ count_below 256 (λ k. eqb (get_or states.now k 0) 2) }
{
    let mut n = 0;
    for state in states {
        n += u32::from(*state == 2);
    }
    n
}

impl Pool {
    // The size of a worker's set.
    #[tactic(auto, using(crate::proofs::Told::answers), unfolding(crate::specs::Questions::set_size_of))]
    pub fn set_size(self, w: WorkerNo) -> Answer
        ensures { said result ≡ set_size_of self w }
    {
        match self.worker_check(w) {
            Ok(k) => Answer::Count(self.sets[k.at].size()),
            Err(refused) => Answer::from(refused),
        }
    }

    // The number of leaving buffers.
    #[tactic(auto, using(crate::proofs::Told::answers), unfolding(crate::specs::Questions::leaving_count_of))]
    pub fn leaving_count(self) -> Answer
        ensures { said result ≡ leaving_count_of self }
    {
        match self.sound_check() {
            Ok(()) => Answer::Count(count_leaving(&self.states)),
            Err(refused) => Answer::from(refused),
        }
    }

    // The lowest buffer at fault, with its number of places; or clear.
    #[tactic(auto, using(crate::proofs::Told::answers), unfolding(crate::specs::Questions::audit_of))]
    pub fn audit(self) -> Answer
        ensures { said result ≡ audit_of self }
    {
        match self.sound_check() {
            Ok(()) => self.first_fault(),
            Err(refused) => Answer::from(refused),
        }
    }

    // A buffer's places are the slots that hold it and the sets that do; they should be 1 if it is leaving, else 0. It is judged once
    // all are counted, and the first at fault ends the whole search.
    // Kept: loops that count by hand, since the scope asks for nested loops left from inside by a label with id and number, and a `for` gives no value.
    fn first_fault(&self) -> Answer
        requires { self.now.b ≤ 256 }
        ensures { said result ≡ audit_from self.now self.now.b 1 }
    {
        let mut id = 1;
        'search: loop {
            if self.b < id {
                break 'search Answer::Clear;
            }
            let mut slots = 0;
            for held in &self.slot_id {
                slots += u32::from(*held == id);
            }
            let mut sets = 0;
            let mut k = 0;
            loop {
                if 8 <= k {
                    let at = (id - 1) as usize;
                    let n = slots + sets;
                    if n != u32::from(self.states[at] == 2) {
                        break 'search Answer::Fault(BufferId(id), n);
                    }
                    break;
                }
                sets += u32::from(self.sets[k].has(id));
                k += 1;
            }
            id += 1;
        }
    }
}
