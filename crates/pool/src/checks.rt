// What is wrong with a call's record and arguments, in the order of the paper's table; where nothing is, the entries that the arguments name.
ghost use Rattle.std.specs.Prelude.{◌≡◌, ◌≤◌, ◌-◌, IfOk};
ghost use Rattle.pool.specs.Answers.{verdict};
ghost use Rattle.pool.specs.Checks.{worker_check, begin_check, guard_check, id_check, fire_check, post_check, take_check, ask_check};

use crate::entry::Entry;
use crate::{BufferId, GuardNo, Pool, Refusal, Refused, WorkerNo};

impl Pool {
    // 21 to 25, 3.
    #[tactic(auto, using(crate::proofs::Told::checks), unfolding(crate::specs::Checks::worker_check))]
    pub(crate) fn worker_check(&self, w: WorkerNo) -> Result<Entry<8>, Refused>
        ensures check { verdict result ≡ worker_check self.now w }
        ensures entry { IfOk result (λ k. k.at ≡ w.0 - 1) }
    {
        self.sound_check()?;
        if w.0 < 1 || self.w < w.0 {
            return Err(Refusal::NoSuchWorker.at(0));
        }
        Ok(Entry {
            at: (w.0 - 1) as usize,
        })
    }

    // 21 to 25, 3, 4.
    #[tactic(auto, using(crate::proofs::Told::checks), unfolding(crate::specs::Checks::begin_check))]
    pub(crate) fn begin_check(&self, w: WorkerNo) -> Result<Entry<8>, Refused>
        ensures check { verdict result ≡ begin_check self.now w }
        ensures entry { IfOk result (λ k. k.at ≡ w.0 - 1) }
    {
        let k = self.worker_check(w)?;
        if self.workers[k.at].label != 0 {
            return Err(Refusal::WorkerNotIdle.at(0));
        }
        Ok(k)
    }

    // 6, 7.
    // Kept: the count's bound is asked, here and by `id_check`, and is no invariant of the record: a call takes any record, sound or not (Demand1, Demand2).
    #[tactic(auto, using(crate::proofs::Told::checks), unfolding(crate::specs::Checks::guard_check))]
    fn guard_check(&self, w: WorkerNo, g: GuardNo) -> Result<Entry<32>, Refused>
        requires { self.now.g ≤ 32 }
        ensures check { verdict result ≡ guard_check self.now w g }
        ensures entry { IfOk result (λ i. i.at ≡ g.0) }
    {
        if self.g <= g.0 {
            return Err(Refusal::NoSuchGuard.at(0));
        }
        let i = Entry { at: g.0 as usize };
        if self.employer[i.at] != w.0 {
            return Err(Refusal::GuardNotEmployed.at(0));
        }
        Ok(i)
    }

    // 9.
    #[tactic(auto, using(crate::proofs::Told::checks), unfolding(crate::specs::Checks::id_check))]
    pub(crate) fn id_check(&self, id: u32, place: usize) -> Result<Entry<256>, Refused>
        requires { self.now.b ≤ 256 }
        ensures check { verdict result ≡ id_check self.now id place }
        ensures entry { IfOk result (λ k. k.at ≡ id - 1) }
    {
        if id < 1 || self.b < id {
            return Err(Refusal::NoSuchBuffer.at(place));
        }
        Ok(Entry {
            at: (id - 1) as usize,
        })
    }

    #[tactic(auto, using(crate::proofs::Told::checks), unfolding(crate::specs::Checks::fire_check))]
    pub(crate) fn fire_check(
        &self,
        w: WorkerNo,
        g: GuardNo,
    ) -> Result<(Entry<8>, Entry<32>), Refused>
        ensures check { verdict result ≡ fire_check self.now w g }
        ensures entries { IfOk result (λ e. (e.0.at ≡ w.0 - 1) × (e.1.at ≡ g.0)) }
    {
        let k = self.begin_check(w)?;
        let i = self.guard_check(w, g)?;
        if self.posted[i.at] != 0 {
            return Err(Refusal::GuardPosted.at(0));
        }
        Ok((k, i))
    }

    #[tactic(auto, using(crate::proofs::Told::checks), unfolding(crate::specs::Checks::post_check))]
    pub(crate) fn post_check(
        &self,
        w: WorkerNo,
        g: GuardNo,
        b: BufferId,
    ) -> Result<Entry<8>, Refused>
        ensures check { verdict result ≡ post_check self.now w g b }
        ensures entry { IfOk result (λ k. k.at ≡ w.0 - 1) }
    {
        let k = self.begin_check(w)?;
        self.guard_check(w, g)?;
        if self.b < b.0 {
            return Err(Refusal::NoSuchBuffer.at(0));
        }
        Ok(k)
    }

    #[tactic(auto, using(crate::proofs::Told::checks), unfolding(crate::specs::Checks::take_check))]
    pub(crate) fn take_check(&self, b: BufferId) -> Result<Entry<256>, Refused>
        ensures check { verdict result ≡ take_check self.now b }
        ensures entry { IfOk result (λ k. k.at ≡ b.0 - 1) }
    {
        self.sound_check()?;
        let k = self.id_check(b.0, 0)?;
        if self.states[k.at] != 0 {
            return Err(Refusal::BufferInWrongState.at(0));
        }
        Ok(k)
    }

    #[tactic(auto, using(crate::proofs::Told::checks), unfolding(crate::specs::Checks::ask_check))]
    pub(crate) fn ask_check(&self, w: WorkerNo, b: BufferId) -> Result<Entry<256>, Refused>
        ensures check { verdict result ≡ ask_check self.now w b }
        ensures entry { IfOk result (λ k. k.at ≡ b.0 - 1) }
    {
        self.begin_check(w)?;
        self.id_check(b.0, 0)
    }
}
