// Which rule a record breaks first, and where. Only a record that the scans of `sound` found at fault is searched, so each search here goes
// through its entries one by one and ends at the first that fails.
ghost use Rattle.std.specs.Prelude.{◌≡◌, ◌<◌};
ghost use Rattle.pool.specs.Answers.{verdict};
ghost use Rattle.pool.specs.Sound.{counts_check, zero_guard, beyond_check, kinds_check, ids_check, registers_check, sound_check};

use crate::search::search;
use crate::sound::{counts_sound, is_label, registers_in, zero_worker};
use crate::{Pool, Refusal, Refused};

impl Pool {
    // 21 to 25.
    #[tactic(auto, using(crate::proofs::Told::checks), unfolding(crate::specs::Sound::sound_check))]
    pub(crate) fn broken_rule(&self) -> Result<(), Refused>
        ensures { verdict result ≡ sound_check self.now }
    {
        self.counts_check()?;
        self.beyond_check()?;
        self.kinds_check()?;
        self.ids_check()?;
        self.registers_check()
    }

    // 21.
    #[tactic(auto, using(crate::proofs::Told::checks), unfolding(crate::specs::Sound::counts_check))]
    fn counts_check(&self) -> Result<(), Refused>
        ensures { verdict result ≡ counts_check self.now }
    {
        if !counts_sound(self.w, self.g, self.b, self.maxg) {
            return Err(Refusal::CountsOutOfRange.at(0));
        }
        Ok(())
    }

    fn zero_guard(&self, i: usize) -> bool
        requires { i < 32 }
        ensures { result ≡ zero_guard self.now i }
    {
        !self.taken[i]
            && self.employer[i] == 0
            && self.posted[i] == 0
            && self.slot_id[i] == 0
            && self.slot_version[i] == 0
    }

    // 22: every entry beyond the counts is zero.
    fn beyond_check(&self) -> Result<(), Refused>
        ensures { verdict result ≡ beyond_check self.now }
    {
        let rule = Refusal::EntryBeyondCounts;
        let (w, g, b) = (self.w as usize, self.g as usize, self.b as usize);
        search(rule, 32, 0, |i| i < g || self.zero_guard(i))?;
        search(rule, 256, 1, |k| k < b || self.states[k] == 0)?;
        search(rule, 8, 1, |k| {
            k < w || (zero_worker(self.workers[k]) && self.sets[k].within(0))
        })
    }

    // 23: employers, states and labels.
    fn kinds_check(&self) -> Result<(), Refused>
        ensures { verdict result ≡ kinds_check self.now }
    {
        let rule = Refusal::KindUnknown;
        search(rule, 32, 0, |i| self.employer[i] <= self.w)?;
        search(rule, 256, 1, |k| self.states[k] <= 2)?;
        search(rule, 8, 1, |k| is_label(self.workers[k].label))
    }

    // 24: every id stored.
    fn ids_check(&self) -> Result<(), Refused>
        ensures { verdict result ≡ ids_check self.now }
    {
        let rule = Refusal::IdOutOfRange;
        let b = self.b;
        search(rule, 32, 0, |i| self.posted[i] <= b && self.slot_id[i] <= b)?;
        search(rule, 8, 1, |k| {
            let me = self.workers[k];
            me.v <= b && me.h.id <= b && self.sets[k].within(b)
        })
    }

    // 25.
    fn registers_check(&self) -> Result<(), Refused>
        ensures { verdict result ≡ registers_check self.now }
    {
        search(Refusal::RegisterOutOfRange, 8, 1, |k| {
            registers_in(self.workers[k], self.g)
        })
    }
}
