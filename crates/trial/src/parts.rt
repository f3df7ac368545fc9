// The lines that set a part of the record.
ghost use Rattle.std.specs.Prelude.{◌<◌, IfOk};

use crate::stop::Stop;
use idset::IdSet;
use pool::Pool;
use worker::{Slot, Worker};

// The entry of a worker's number.
fn entry_of(no: u32) -> Result<usize, Stop>
    ensures { IfOk result (λ k. k < 8) }
{
    if !(1..=8).contains(&no) {
        return Err(Stop::NotUnderstood);
    }
    Ok(no as usize - 1)
}

fn set_guard(pool: &mut Pool, no: u32, taken: u32, fields: [u32; 4]) -> Result<(), Stop> {
    if no >= 32 || taken > 1 {
        return Err(Stop::NotUnderstood);
    }
    let i = no as usize;
    pool.taken[i] = taken == 1;
    pool.employer[i] = fields[0];
    pool.posted[i] = fields[1];
    pool.slot_id[i] = fields[2];
    pool.slot_version[i] = fields[3];
    Ok(())
}

fn states_of(numbers: &[u32]) -> Result<[u8; 256], Stop> {
    let mut states = [0; 256];
    if numbers.len() > states.len() {
        return Err(Stop::NotUnderstood);
    }
    for (state, n) in states.iter_mut().zip(numbers) {
        *state = u8::try_from(*n)?;
    }
    Ok(states)
}

fn set_of(members: &[u32]) -> Result<IdSet, Stop> {
    let mut set = IdSet::empty();
    for id in members {
        if !(1..=256).contains(id) {
            return Err(Stop::NotUnderstood);
        }
        set = set.with(*id);
    }
    Ok(set)
}

// Sets what the line says.
pub fn set_part(pool: &mut Pool, word: &[u8], numbers: &[u32]) -> Result<(), Stop> {
    match (word, numbers) {
        (b"pool", &[w, g, b, maxg]) => {
            *pool = Pool::blank(w, g, b);
            pool.maxg = maxg;
        }
        (b"guard", &[no, taken, employer, posted, id, version]) => {
            set_guard(pool, no, taken, [employer, posted, id, version])?;
        }
        (b"states", states) => pool.states = states_of(states)?,
        (b"worker", &[no, label, i, v, id, version, attempts, max]) => {
            let k = entry_of(no)?;
            pool.workers[k] = Worker {
                label,
                i,
                v,
                h: Slot { id, version },
                attempts,
                max,
            };
        }
        (b"set", [no, members @ ..]) => {
            let k = entry_of(*no)?;
            pool.sets[k] = set_of(members)?;
        }
        _ => return Err(Stop::NotUnderstood),
    }
    Ok(())
}
