// Results as text.
use arrayvec::ArrayVec;
use idset::IdSet;
use pool::{Answer, Pool};
use std::fmt;

// So many numbers, each after a space, are put together and then written as one text: two pieces of text for each number took nearly twice as long.
const TOGETHER: usize = 32;

// A space and at most ten digits for each.
const ROOM: usize = 352;

// A space and a number.
fn put_spaced(bytes: &mut ArrayVec<u8, ROOM>, n: u32) -> fmt::Result {
    bytes.try_push(b' ').map_err(|_| fmt::Error)?;
    if n < 10 {
        return bytes.try_push(b'0' + n as u8).map_err(|_| fmt::Error);
    }
    let mut digits = itoa::Buffer::new();
    bytes
        .try_extend_from_slice(digits.format(n).as_bytes())
        .map_err(|_| fmt::Error)
}

// Numbers, each after a space.
// Kept: beside `Ids` of `show`, since a wrong engine is tried with the engine's crates and `trial` alone (tools/faults).
#[derive(Clone, Copy, Debug, PartialEq, Eq)]
pub struct Spaced<'a>(pub &'a [u32]);

impl fmt::Display for Spaced<'_> {
    fn fmt<W: fmt::Write>(&self, f: &mut fmt::Formatter<W>) -> fmt::Result {
        for numbers in self.0.chunks(TOGETHER) {
            let mut bytes = ArrayVec::new();
            for n in numbers {
                put_spaced(&mut bytes, *n)?;
            }
            let text = str::from_utf8(bytes.as_slice()).map_err(|_| fmt::Error)?;
            f.write_str(text)?;
        }
        Ok(())
    }
}

// An answer, in the words of a result's first line.
#[derive(Clone, Copy, Debug, PartialEq, Eq)]
pub struct Said(pub Answer);

impl fmt::Display for Said {
    fn fmt<W: fmt::Write>(&self, f: &mut fmt::Formatter<W>) -> fmt::Result {
        match self.0 {
            Answer::Accepted => write!(f, "accepted"),
            Answer::Yes => write!(f, "yes"),
            Answer::No => write!(f, "no"),
            Answer::At(label) => write!(f, "at {label}"),
            Answer::Hired(guard) => write!(f, "guard {}", guard.0),
            Answer::NoneFound => write!(f, "none found"),
            Answer::Fired => write!(f, "fired"),
            Answer::Posted => write!(f, "posted"),
            Answer::Back(count) => write!(f, "back {count}"),
            Answer::Count(n) => write!(f, "count {n}"),
            Answer::Clear => write!(f, "clear"),
            Answer::Fault(id, places) => write!(f, "fault {} {places}", id.0),
            Answer::Refused(refusal, place) => write!(f, "refused {} {place}", refusal.number()),
        }
    }
}

// A line for an entry: its number, which comes first, and its fields, unless these are all 0.
fn write_entry<W: fmt::Write>(
    f: &mut fmt::Formatter<W>,
    word: &str,
    fields: &[u32],
) -> fmt::Result {
    if fields.iter().skip(1).any(|n| *n != 0) {
        writeln!(f, "{word}{}", Spaced(fields))?;
    }
    Ok(())
}

// The states up to the last that is not 0, unless all are.
fn write_states<W: fmt::Write>(f: &mut fmt::Formatter<W>, states: &[u8; 256]) -> fmt::Result {
    let Some(last) = states.iter().rposition(|state| *state != 0) else {
        return Ok(());
    };
    let mut numbers = [0; 256];
    for (number, state) in numbers.iter_mut().zip(states) {
        *number = u32::from(*state);
    }
    writeln!(f, "states{}", Spaced(&numbers[..=last]))
}

// The members of a set, unless it is empty.
fn write_set<W: fmt::Write>(f: &mut fmt::Formatter<W>, no: usize, set: IdSet) -> fmt::Result {
    if set.within(0) {
        return Ok(());
    }
    let mut ids = ArrayVec::<u32, 256>::new();
    for id in (1..=256).filter(|id| set.has(*id)) {
        ids.try_push(id).map_err(|_| fmt::Error)?;
    }
    writeln!(f, "set {no}{}", Spaced(ids.as_slice()))
}

// The whole record, in the lines that set it.
#[derive(Clone, Copy, Debug, PartialEq, Eq)]
pub struct Record<'a>(pub &'a Pool);

impl fmt::Display for Record<'_> {
    fn fmt<W: fmt::Write>(&self, f: &mut fmt::Formatter<W>) -> fmt::Result {
        let pool = self.0;
        writeln!(f, "pool {} {} {} {}", pool.w, pool.g, pool.b, pool.maxg)?;
        // Kept: one index into five arrays, which a zip of the five would hide.
        for i in 0..32 {
            let fields = [
                i as u32,
                u32::from(pool.taken[i]),
                pool.employer[i],
                pool.posted[i],
                pool.slot_id[i],
                pool.slot_version[i],
            ];
            write_entry(f, "guard", &fields)?;
        }
        write_states(f, &pool.states)?;
        for (k, x) in pool.workers.iter().enumerate() {
            let fields = [
                k as u32 + 1,
                x.label,
                x.i,
                x.v,
                x.h.id,
                x.h.version,
                x.attempts,
                x.max,
            ];
            write_entry(f, "worker", &fields)?;
        }
        for (k, set) in pool.sets.iter().enumerate() {
            write_set(f, k + 1, *set)?;
        }
        Ok(())
    }
}
