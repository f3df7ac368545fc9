// Give-ups by the length of their list.
use crate::checksum::Checksum;
use pool::{Pool, WorkerNo};

const LONGEST: usize = 10000;

// Entry j of a list. The first 256 are all different, and go through the words of a set again and again.
fn entry(j: usize) -> u32 {
    (j % 256 * 37 % 256 + 1) as u32
}

fn entries() -> [u32; LONGEST] {
    let mut ids = [0u32; LONGEST];
    for (j, id) in ids.iter_mut().enumerate() {
        *id = entry(j);
    }
    ids
}

// An entry that is refused: an id of no buffer at the first place, that of an earlier entry after it. It is another each time, so that no compiler can
// judge the list once for all.
fn wrong(place: usize, k: u64) -> u32 {
    let turn = (k % 2) as usize;
    if place == 0 {
        (turn * 257) as u32
    } else {
        entry(turn)
    }
}

fn in_service() -> Pool {
    let mut p = Pool::make(8, 32, 256).pool;
    p.states.fill(1);
    p
}

// A give-up of so many entries, of which the first are good and the next is not. If the good ones are all, it is accepted, and what it changed is put
// back; otherwise it is refused and changes nothing. The stores that put it back stand here and not in a function that `hand_back` shares: the record
// handed in and out would be measured too.
fn list(times: u64, count: usize, good: usize) -> u64 {
    if LONGEST < count || LONGEST <= good {
        return 0;
    }
    let mut ids = entries();
    let mut sum = Checksum(0);
    let mut p = in_service();
    let Pool {
        workers: [me, ..],
        sets: [set, ..],
        states,
        ..
    } = p;
    for k in 0..times {
        ids[good] = wrong(good, k);
        play_on!(sum, p, p.give_up(WorkerNo(1), &ids[..count]));
        if count == good {
            p.workers[0] = me;
            p.sets[0] = set;
            p.states = states;
        }
    }
    sum.add_record(p);
    sum.0
}

#[unsafe(no_mangle)]
pub extern "C" fn engine_list(times: u64, count: u32, good: u32) -> u64 {
    list(times, count as usize, good as usize)
}
