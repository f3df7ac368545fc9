// What is wrong with a record, from the rule that it breaks first and the place (request 101). A place is a bare number: of the guard, the
// buffer and the worker of that number it means the first that breaks the rule, since a guard that did so would have been answered before any
// buffer, and a buffer before any worker.
use crate::wrong::{Count, Entry, Guard, Holding, Wrong};
use pool::{Pool, Refusal, Refused};
use std::fmt;
use worker::Worker;

// A field whose number is above a count.
fn above(entry: Entry, field: &'static str, n: u32, count: Count) -> Option<Wrong> {
    (count.n < n).then_some(Wrong::Misfit {
        entry,
        field,
        n,
        count,
    })
}

// 25. At labels 12 and 32 the scan over the guards may have come to its end, and at four labels one more attempt may follow.
fn wrong_register(entry: Entry, x: Worker, g: Count) -> Option<Wrong> {
    let at_end = matches!(x.label, 12 | 32) && x.i == g.n;
    let trying = matches!(x.label, 15 | 18 | 22 | 25);
    let past = |field, n| Wrong::Misfit {
        entry,
        field,
        n,
        count: g,
    };
    if g.n <= x.i && !at_end {
        Some(past("i is past the last guard", x.i))
    } else if g.n <= x.max {
        Some(past("max is past the last guard", x.max))
    } else if 3 < x.attempts {
        Some(Wrong::Attempts(entry, x.attempts))
    } else if trying && 2 < x.attempts {
        Some(Wrong::AttemptsAt(entry, x.label, x.attempts))
    } else {
        None
    }
}

// A record, the first rule that it breaks, and the place.
#[derive(Clone, Copy, Debug, PartialEq, Eq)]
struct Broken<'a> {
    pool: &'a Pool,
    rule: Refusal,
    place: usize,
}

impl Broken<'_> {
    fn w(self) -> Count {
        let n = self.pool.w;
        Count { letter: 'W', n }
    }

    fn g(self) -> Count {
        let n = self.pool.g;
        Count { letter: 'G', n }
    }

    fn b(self) -> Count {
        let n = self.pool.b;
        Count { letter: 'B', n }
    }

    // 21. One of the four is at fault, so the last is if none of the others is.
    fn count(self) -> Wrong {
        let counts = [(self.w(), 8), (self.g(), 32), (self.b(), 256)];
        match counts
            .iter()
            .find(|(count, most)| !(1..=*most).contains(&count.n))
        {
            Some((count, most)) => Wrong::Range(*count, *most),
            None => Wrong::Maxg(self.pool.maxg, self.g()),
        }
    }

    fn guard(self) -> Option<Wrong> {
        let (pool, i) = (self.pool, self.place);
        if 32 <= i {
            return None;
        }
        let guard = Guard {
            taken: pool.taken[i],
            employer: pool.employer[i],
            posted: pool.posted[i],
            slot_id: pool.slot_id[i],
            slot_version: pool.slot_version[i],
        };
        let (w, g, b) = (self.w(), self.g(), self.b());
        let entry = Entry::Guard(i);
        match self.rule {
            Refusal::EntryBeyondCounts => {
                (g.n as usize <= i && !guard.is_zero()).then_some(Wrong::GuardBeyond(i, g, guard))
            }
            Refusal::KindUnknown => above(entry, "employer is no worker", guard.employer, w),
            Refusal::IdOutOfRange => {
                let posted = above(entry, "posted id is no buffer", guard.posted, b);
                posted.or(above(
                    entry,
                    "slot holds an id that is no buffer",
                    guard.slot_id,
                    b,
                ))
            }
            _ => None,
        }
    }

    fn buffer(self) -> Option<Wrong> {
        let id = self.place;
        let state = *self.pool.states.get(id.checked_sub(1)?)?;
        let b = self.b();
        match self.rule {
            Refusal::EntryBeyondCounts => {
                ((b.n as usize) < id && state != 0).then_some(Wrong::BufferBeyond(id, b, state))
            }
            Refusal::KindUnknown => (2 < state).then_some(Wrong::Unknown {
                entry: Entry::Buffer(id),
                field: "state is none of the three",
                n: u32::from(state),
            }),
            _ => None,
        }
    }

    fn worker(self) -> Option<Wrong> {
        let no = self.place;
        let k = no.checked_sub(1)?;
        let worker = *self.pool.workers.get(k)?;
        let set = *self.pool.sets.get(k)?;
        let (w, b) = (self.w(), self.b());
        let entry = Entry::Worker(no);
        match self.rule {
            Refusal::EntryBeyondCounts => {
                let held = Holding { worker, set };
                ((w.n as usize) < no && !held.is_zero()).then_some(Wrong::WorkerBeyond(no, w, held))
            }
            // It is the label's fault, since no guard and no buffer was found.
            Refusal::KindUnknown => Some(Wrong::Unknown {
                entry,
                field: "label is none that there is",
                n: worker.label,
            }),
            Refusal::IdOutOfRange => above(entry, "v is no buffer", worker.v, b)
                .or(above(entry, "h has an id that is no buffer", worker.h.id, b))
                .or((!set.within(b.n)).then_some(Wrong::Member(entry, b))),
            Refusal::RegisterOutOfRange => wrong_register(entry, worker, self.g()),
            _ => None,
        }
    }

    // The first that breaks the rule, of those that have the place.
    fn wrong(self) -> Option<Wrong> {
        if let Refusal::CountsOutOfRange = self.rule {
            return Some(self.count());
        }
        self.guard()
            .or_else(|| self.buffer())
            .or_else(|| self.worker())
    }
}

// The soundness test of a record, in words.
#[derive(Clone, Copy, Debug, PartialEq, Eq)]
pub(crate) struct Soundness<'a>(pub(crate) &'a Pool);

impl fmt::Display for Soundness<'_> {
    fn fmt<W: fmt::Write>(&self, f: &mut fmt::Formatter<W>) -> fmt::Result {
        let pool = self.0;
        let Err(
            Refused {
                refusal: rule,
                place,
            },
        ) = pool.soundness()
        else {
            return write!(f, "the record is sound");
        };
        match (Broken { pool, rule, place }).wrong() {
            Some(wrong) => write!(f, "{wrong}"),
            None => Ok(()),
        }
    }
}
