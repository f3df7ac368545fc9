// The table of labels, a method for each line, on the record where it stands. k is the worker's entry.
// Kept: what a line at a guard relies on, `Ready`, is asked of the record at each, and is in no type, since it speaks of one worker of a record that is sound.
ghost use Rattle.std.specs.Prelude.{◌≡◌, ◌+◌, ◌<◌, eqb, length, OnOk, OnErr};
ghost use Rattle.basics.specs.Pick.{when};
ghost use Rattle.pool.specs.Answers.{said, answering, after_check, verdict, fine, refuse};
ghost use Rattle.pool.specs.Record.{posted_at, slot_at, worker_at, set_at, with_slot};
ghost use Rattle.pool.specs.Steps.{largest_version, line2, line5, line6, line7, line9, unchanged, line18, collects, line28, version_check, puts, goes, ends, line32, hand_check, line_of, line_check, handed, list_after_check};
ghost use Rattle.pool.specs.ForProofs.Calls.{answered};
ghost use Rattle.pool.specs.ForProofs.Ready.{Ready, Stands, own_step, list_of};

use crate::entry::Entry;
use crate::handback::{all_leaving, hand};
use crate::{Answer, GuardNo, Pool, Refusal, Refused};
use idset::IdSet;
use worker::lent::advance_lent;
use worker::{Slot, Worker};

impl Pool {
    // Kept: a `match` on a number, as in the paper's table, since labels are numbers in the record.
    pub(crate) fn line(&mut self, k: Entry<8>, out: &mut [u32]) -> Result<Answer, Refused>
        requires { Stands self.old k.at }
        ensures outcome { answering (answered result) self.new ≡ after_check (line_check (worker_at self.old k.at).label k.at self.old (length out.old)) self.old (line_of (worker_at self.old k.at).label k.at self.old) }
        ensures list { out.new ≡ list_of k.at self.old out.old }
    {
        match self.workers[k.at].label {
            2 => Ok(self.line2(k)),
            5 => Ok(self.line5(k)),
            6 => Ok(self.line6(k)),
            7 => Ok(self.line7(k)),
            8 => Ok(self.ends(k, Answer::Fired)),
            9 => Ok(self.line9(k)),
            10 => Ok(self.ends(k, Answer::Posted)),
            18 => self.line18(k),
            28 => self.line28(k),
            32 => self.line32(k, out),
            // 4, 12, 13, 15, 22, 25 and 31. One call for them all, which the compiler then puts in place.
            _ => Ok(self.own_line(k)),
        }
    }

    // The worker goes on to label l.
    #[tactic(auto, unfolding(crate::specs::Steps::puts))]
    fn goes(&mut self, k: Entry<8>, l: u32) -> Answer
        ensures { answering (said result) self.new ≡ goes k.at l self.old }
    {
        self.workers[k.at].label = l;
        Answer::At(l)
    }

    // An end: idle, registers 0, set empty.
    #[tactic(auto, unfolding(crate::specs::Steps::ends))]
    fn ends(&mut self, k: Entry<8>, answer: Answer) -> Answer
        ensures { answering (said result) self.new ≡ ends k.at (said answer) self.old }
    {
        self.workers[k.at] = Worker::idle();
        self.sets[k.at] = IdSet::empty();
        answer
    }

    // What stands at guard i, or nothing where there is no such guard.
    fn posted_at(&self, i: usize) -> u32
        ensures { result ≡ posted_at self.now i }
    {
        self.posted.get(i).copied().unwrap_or(0)
    }

    fn slot_at(&self, i: usize) -> Slot
        ensures { result ≡ slot_at self.now i }
    {
        Slot {
            id: self.slot_id.get(i).copied().unwrap_or(0),
            version: self.slot_version.get(i).copied().unwrap_or(0),
        }
    }

    #[tactic(auto, using(crate::proofs::Told::begins), unfolding(crate::specs::Steps::line2, crate::specs::Steps::puts))]
    fn line2(&mut self, k: Entry<8>) -> Answer
        requires { Ready self.old k.at }
        ensures { answering (said result) self.new ≡ line2 k.at self.old }
    {
        let i = self.workers[k.at].i;
        if !self.taken[i as usize] {
            self.taken[i as usize] = true;
            return self.goes(k, 4);
        }
        if i + 1 == self.g {
            return self.ends(k, Answer::NoneFound);
        }
        let me = &mut self.workers[k.at];
        me.i = i + 1;
        Answer::At(me.label)
    }

    fn line5(&mut self, k: Entry<8>) -> Answer
        ensures { answering (said result) self.new ≡ line5 k.at self.old }
    {
        if self.maxg == self.workers[k.at].max {
            self.maxg = self.workers[k.at].i;
        }
        self.goes(k, 4)
    }

    fn line6(&mut self, k: Entry<8>) -> Answer
        requires { Ready self.old k.at }
        ensures { answering (said result) self.new ≡ line6 k.at self.old }
    {
        let i = self.workers[k.at].i;
        self.employer[i as usize] = (k.at + 1) as u32;
        self.ends(k, Answer::Hired(GuardNo(i)))
    }

    fn line7(&mut self, k: Entry<8>) -> Answer
        requires { Ready self.old k.at }
        ensures { answering (said result) self.new ≡ line7 k.at self.old }
    {
        self.taken[self.workers[k.at].i as usize] = false;
        self.goes(k, 8)
    }

    fn line9(&mut self, k: Entry<8>) -> Answer
        requires { Ready self.old k.at }
        ensures { answering (said result) self.new ≡ line9 k.at self.old }
    {
        self.posted[self.workers[k.at].i as usize] = self.workers[k.at].v;
        self.goes(k, 10)
    }

    // The worker's own step, made where its registers stand.
    fn own_line(&mut self, k: Entry<8>) -> Answer
        ensures { answering (said result) self.new ≡ puts k.at (own_step k.at self.old) self.old }
    {
        let i = self.workers[k.at].i as usize;
        let posted = self.posted_at(i);
        let slot = self.slot_at(i);
        let member = self.sets[k.at].has(posted);
        let maxg = self.maxg;
        let me = &mut self.workers[k.at];
        advance_lent(me, maxg, posted, member, slot);
        Answer::At(me.label)
    }

    fn line18(&mut self, k: Entry<8>) -> Result<Answer, Refused>
        requires { Ready self.old k.at }
        ensures { answering (answered result) self.new ≡ after_check (version_check (unchanged k.at self.old) k.at self.old) self.old (line18 k.at self.old) }
    {
        let me = self.workers[k.at];
        let i = me.i as usize;
        if self.slot_at(i) != me.h {
            return Ok(self.goes(k, 22));
        }
        // The slot takes v, and the set what the slot held.
        self.fill(i, me.v)?;
        self.sets[k.at] = self.sets[k.at].without(me.v).with(me.h.id);
        Ok(self.goes(k, 31))
    }

    fn line28(&mut self, k: Entry<8>) -> Result<Answer, Refused>
        requires { Ready self.old k.at }
        ensures { answering (answered result) self.new ≡ after_check (version_check (collects k.at self.old) k.at self.old) self.old (line28 k.at self.old) }
    {
        let me = self.workers[k.at];
        let i = me.i as usize;
        let collects = (me.h.id != 0) & (me.h.id != me.v) & (self.slot_at(i) == me.h);
        if !collects {
            return Ok(self.goes(k, 31));
        }
        // The slot is emptied, and the set takes what it held.
        self.fill(i, 0)?;
        self.sets[k.at] = self.sets[k.at].with(me.h.id);
        Ok(self.goes(k, 31))
    }

    // Another id goes into slot i, whose version never wraps.
    fn fill(&mut self, i: usize, id: u32) -> Result<(), Refused>
        requires { i < 32 }
        ensures check { verdict result ≡ when (eqb (slot_at self.old i).version largest_version) (refuse 12 0) fine }
        ensures ok { OnOk result (self.new ≡ with_slot i (record { id = id; version = (slot_at self.old i).version + 1 }) self.old) }
        ensures err { OnErr result (self.new ≡ self.old) }
    {
        let Some(version) = self.slot_version[i].checked_add(1) else {
            return Err(Refusal::VersionsUsedUp.at(0));
        };
        self.slot_id[i] = id;
        self.slot_version[i] = version;
        Ok(())
    }

    // The set's buffers go back, all or none.
    fn line32(&mut self, k: Entry<8>, out: &mut [u32]) -> Result<Answer, Refused>
        ensures outcome { answering (answered result) self.new ≡ after_check (hand_check k.at self.old (length out.old)) self.old (line32 k.at self.old) }
        ensures list { out.new ≡ list_after_check (hand_check k.at self.old (length out.old)) out.old (handed (set_at self.old k.at) out.old) }
    {
        let set = self.sets[k.at];
        if !all_leaving(set, &self.states) {
            return Err(Refusal::MemberNotLeaving.at(0));
        }
        let size = set.size();
        if out.len() < size as usize {
            return Err(Refusal::ListTooShort.at(0));
        }
        hand(set, &mut self.states, out);
        Ok(self.ends(k, Answer::Back(size)))
    }
}
