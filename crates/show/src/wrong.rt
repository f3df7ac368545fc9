// What can be wrong with a record, in words.
use idset::IdSet;
use std::fmt;
use worker::Worker;

// An entry of the record, by its number.
#[derive(Clone, Copy, Debug, PartialEq, Eq)]
pub(crate) enum Entry {
    Guard(usize),
    Buffer(usize),
    Worker(usize),
}

impl fmt::Display for Entry {
    fn fmt<W: fmt::Write>(&self, f: &mut fmt::Formatter<W>) -> fmt::Result {
        match self {
            Entry::Guard(i) => write!(f, "guard {i}"),
            Entry::Buffer(id) => write!(f, "buffer {id}"),
            Entry::Worker(no) => write!(f, "worker {no}"),
        }
    }
}

// One of the numbers W, G and B of a record.
#[derive(Clone, Copy, Debug, PartialEq, Eq)]
pub(crate) struct Count {
    pub(crate) letter: char,
    pub(crate) n: u32,
}

impl fmt::Display for Count {
    fn fmt<W: fmt::Write>(&self, f: &mut fmt::Formatter<W>) -> fmt::Result {
        write!(f, "{} is {}", self.letter, self.n)
    }
}

// The fields of a guard, which stand in five arrays of the record.
#[derive(Clone, Copy, Debug, Default, PartialEq, Eq)]
pub(crate) struct Guard {
    pub(crate) taken: bool,
    pub(crate) employer: u32,
    pub(crate) posted: u32,
    pub(crate) slot_id: u32,
    pub(crate) slot_version: u32,
}

impl Guard {
    fn numbers(self) -> [(&'static str, u32); 4] {
        [
            ("employer is", self.employer),
            ("posted id is", self.posted),
            ("slot's id is", self.slot_id),
            ("slot's version is", self.slot_version),
        ]
    }

    pub(crate) fn is_zero(self) -> bool {
        self == Guard::default()
    }
}

// What a worker has: its label and registers, and its set.
#[derive(Clone, Copy, Debug, PartialEq, Eq)]
pub(crate) struct Holding {
    pub(crate) worker: Worker,
    pub(crate) set: IdSet,
}

impl Holding {
    fn numbers(self) -> [(&'static str, u32); 7] {
        let Worker {
            label,
            i,
            v,
            h,
            attempts,
            max,
        } = self.worker;
        [
            ("label is", label),
            ("i is", i),
            ("v is", v),
            ("h's id is", h.id),
            ("h's version is", h.version),
            ("attempts are", attempts),
            ("max is", max),
        ]
    }

    pub(crate) fn is_zero(self) -> bool {
        self.set.within(0) && self.numbers().iter().all(|(_, n)| *n == 0)
    }
}

// What is wrong.
#[derive(Clone, Copy, Debug, PartialEq, Eq)]
pub(crate) enum Wrong {
    // A count that is not 1 to this most.
    Range(Count, u32),
    // MAXG, and the G that it is not below.
    Maxg(u32, Count),
    // An entry beyond a count, and what it has that should be zero.
    GuardBeyond(usize, Count, Guard),
    BufferBeyond(usize, Count, u8),
    WorkerBeyond(usize, Count, Holding),
    // A field of an entry, the number found in it, and the count that it has to fit.
    Misfit {
        entry: Entry,
        field: &'static str,
        n: u32,
        count: Count,
    },
    // A field of an entry, and the number found in it, which stands for nothing.
    Unknown {
        entry: Entry,
        field: &'static str,
        n: u32,
    },
    // The worker, and the count that a member of its set is above.
    Member(Entry, Count),
    // The worker and its attempts, and the label at which one more may follow.
    Attempts(Entry, u32),
    AttemptsAt(Entry, u32, u32),
}

// Of the fields that should be 0, those that are not.
fn write_found<W: fmt::Write>(f: &mut fmt::Formatter<W>, fields: &[(&str, u32)]) -> fmt::Result {
    for (field, n) in fields {
        if *n != 0 {
            write!(f, "; its {field} {n}")?;
        }
    }
    Ok(())
}

fn write_beyond<W: fmt::Write>(
    f: &mut fmt::Formatter<W>,
    entry: Entry,
    count: Count,
) -> fmt::Result {
    write!(
        f,
        "{entry} is beyond {}, which is {}",
        count.letter, count.n
    )
}

impl fmt::Display for Wrong {
    fn fmt<W: fmt::Write>(&self, f: &mut fmt::Formatter<W>) -> fmt::Result {
        match *self {
            Wrong::Range(count, most) => {
                write!(f, "{} is not 1 to {most}: it is {}", count.letter, count.n)
            }
            Wrong::Maxg(maxg, g) => write!(f, "MAXG is not below G: it is {maxg}, and {g}"),
            Wrong::GuardBeyond(i, g, guard) => {
                write_beyond(f, Entry::Guard(i), g)?;
                write!(f, ", and is not zero")?;
                if guard.taken {
                    write!(f, "; it is taken")?;
                }
                write_found(f, &guard.numbers())
            }
            Wrong::BufferBeyond(id, b, state) => {
                write_beyond(f, Entry::Buffer(id), b)?;
                write!(f, ", and is not free: its state is {state}")
            }
            Wrong::WorkerBeyond(no, w, held) => {
                write_beyond(f, Entry::Worker(no), w)?;
                write!(f, ", and is not zero")?;
                write_found(f, &held.numbers())?;
                if !held.set.within(0) {
                    write!(f, "; its set is not empty")?;
                }
                Ok(())
            }
            Wrong::Misfit {
                entry,
                field,
                n,
                count,
            } => write!(f, "{entry}'s {field}: it is {n}, and {count}"),
            Wrong::Unknown { entry, field, n } => write!(f, "{entry}'s {field}: it is {n}"),
            Wrong::Member(entry, b) => {
                write!(f, "{entry}'s set has a member that is no buffer: {b}")
            }
            Wrong::Attempts(entry, n) => {
                write!(f, "{entry}'s attempts are above 3: they are {n}")
            }
            Wrong::AttemptsAt(entry, label, n) => {
                write!(
                    f,
                    "{entry}'s attempts are above 2 at label {label}: they are {n}"
                )
            }
        }
    }
}
