// A checksum of answers, records and lists.
use pool::{Answer, Pool};

#[derive(Clone, Copy, Debug, PartialEq, Eq)]
pub struct Checksum(pub u64);

// The answer as one number.
fn number(answer: Answer) -> u64 {
    match answer {
        Answer::Accepted => 1,
        Answer::Yes => 2,
        Answer::No => 3,
        Answer::NoneFound => 4,
        Answer::Fired => 5,
        Answer::Posted => 6,
        Answer::Clear => 7,
        Answer::At(label) => u64::from(label) ^ 0x100,
        Answer::Hired(guard) => u64::from(guard.0) ^ 0x200,
        Answer::Back(count) => u64::from(count) ^ 0x400,
        Answer::Count(count) => u64::from(count) ^ 0x800,
        Answer::Fault(id, places) => u64::from(id.0) ^ (u64::from(places) << 16) ^ 0x1000,
        Answer::Refused(refusal, place) => {
            u64::from(refusal.number()) ^ ((place as u64) << 16) ^ 0x2000
        }
    }
}

impl Checksum {
    // 33 times the sum, and the number.
    fn add<N: Into<u64>>(&mut self, number: N) {
        self.0 = self.0.wrapping_mul(33).wrapping_add(number.into());
    }

    pub fn add_all<N: Copy + Into<u64>>(&mut self, numbers: &[N]) {
        for number in numbers {
            self.add(*number);
        }
    }

    pub fn add_answer(&mut self, answer: Answer) {
        self.add(number(answer));
    }

    // Every entry of the record.
    pub fn add_record(&mut self, p: Pool) {
        self.add_all(&[p.w, p.g, p.b, p.maxg]);
        self.add_all(&p.taken);
        self.add_all(&p.employer);
        self.add_all(&p.posted);
        self.add_all(&p.slot_id);
        self.add_all(&p.slot_version);
        self.add_all(&p.states);
        for (me, set) in p.workers.iter().zip(&p.sets) {
            let h = me.h;
            self.add_all(&[me.label, me.i, me.v, h.id, h.version, me.attempts, me.max]);
            self.add_all(&set.words);
        }
    }
}
