// Buffers taken, given up and handed back.
use crate::checksum::Checksum;
use crate::staff::staffed;
use idset::IdSet;
use pool::{BufferId, Pool, WorkerNo};

// The buffers 1 to 256.
fn ids() -> [u32; 256] {
    let mut ids = [0u32; 256];
    for (j, id) in ids.iter_mut().enumerate() {
        *id = j as u32 + 1;
    }
    ids
}

// Each buffer taken, one give-up of them all, and so many advances.
fn give_up(fresh: Pool, times: u64, ids: &[u32], advances: u32, list: &mut [u32]) -> u64 {
    let mut sum = Checksum(0);
    let mut p = fresh;
    for _ in 0..times {
        for id in ids {
            play_on!(sum, p, p.take(BufferId(*id)));
        }
        play_on!(sum, p, p.give_up(WorkerNo(1), ids));
        for _ in 0..advances {
            play_on!(sum, p, p.advance(WorkerNo(1), list));
        }
    }
    sum.add_record(p);
    sum.add_all(list);
    sum.0
}

// The first buffers, past guard 0 alone: seven advances.
#[unsafe(no_mangle)]
pub extern "C" fn engine_give_up(times: u64, count: usize) -> u64 {
    let all = ids();
    let Some(first) = all.get(..count) else {
        return 0;
    };
    give_up(Pool::make(8, 32, 256).pool, times, first, 7, &mut [0; 256])
}

// Nothing, past every guard: five advances at each, and two.
#[unsafe(no_mangle)]
pub extern "C" fn engine_scan(times: u64, g: u32, b: u32) -> u64 {
    if 32 < g {
        return 0;
    }
    give_up(staffed(g, b), times, &[], 5 * g + 2, &mut [0; 1])
}

// The advance at label 32 alone: what it changed is put back after each.
fn hand_back(at32: Pool, times: u64, list: &mut [u32]) -> u64 {
    let me = at32.workers[0];
    let set = at32.sets[0];
    let states = at32.states;
    let mut sum = Checksum(0);
    let mut p = at32;
    for _ in 0..times {
        play_on!(sum, p, p.advance(WorkerNo(1), list));
        p.workers[0] = me;
        p.sets[0] = set;
        p.states = states;
    }
    sum.add_record(p);
    sum.add_all(list);
    sum.0
}

// Worker 1 stands at label 32 with the first buffers.
fn at32(count: usize) -> Pool {
    let mut p = Pool::make(8, 32, 256).pool;
    let mut set = IdSet::empty();
    let first = count.min(256);
    p.states[..first].fill(2);
    for id in 1..=first as u32 {
        set = set.with(id);
    }
    p.sets[0] = set;
    p.workers[0].label = 32;
    p
}

#[unsafe(no_mangle)]
pub extern "C" fn engine_hand_back(times: u64, count: usize) -> u64 {
    hand_back(at32(count), times, &mut [0; 256])
}
