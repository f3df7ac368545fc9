// Workers 1 to 4 give up overlapping work while workers 5 to 8 post their guards and stand them down, one advance at a time in turn.
use crate::checksum::Checksum;
use crate::staff::staffed;
use pool::{BufferId, GuardNo, Pool, WorkerNo};

// More turns than any round needs.
const TURNS: u32 = 400;

// A pool on its way, with the checksum so far.
#[derive(Drop)]
struct Run {
    pool: Pool,
    sum: Checksum,
}

// Each guard i is posted on the buffer that comes i after the first `before`, which is in service.
fn post(run: &mut Run, before: u8) {
    for (i, posted) in run.pool.posted.iter_mut().enumerate() {
        let at = (usize::from(before) + i) % 256;
        run.pool.states[at] = 1;
        *posted = at as u32 + 1;
    }
}

// Workers 1 to 4 begin to give up every fourth of these buffers each.
fn give_up(run: &mut Run, before: u8) {
    for w in 1..5u32 {
        let a = u32::from(before) + w;
        let ids = [a, a + 4, a + 8, a + 12, a + 16, a + 20, a + 24, a + 28];
        play_on!(run.sum, run.pool, run.pool.give_up(WorkerNo(w), &ids));
    }
}

// Whoever is not idle advances, in turn. Every 40 turns each of workers 5 to 8 begins to stand one of its guards down.
fn take_turns(run: &mut Run, list: &mut [u32]) {
    for turn in 0..TURNS {
        // Kept: a worker's number and no iterator, since the pool is handed into each call.
        for k in 0..8u32 {
            let worker = WorkerNo(k + 1);
            if run.pool.workers[k as usize].label != 0 {
                play_on!(run.sum, run.pool, run.pool.advance(worker, list));
            } else if 4 <= k && turn % 40 == 0 && turn < 160 {
                let guard = GuardNo(k % 4 * 8 + turn / 40 * 2 + 1);
                play_on!(run.sum, run.pool, run.pool.post(worker, guard, BufferId(0)));
            }
        }
    }
}

// Slots still hold buffers of the round before, so two halves of the buffers serve by turns.
#[unsafe(no_mangle)]
pub extern "C" fn engine_contention(times: u64) -> u64 {
    let mut list = [0u32; 256];
    let mut run = Run {
        pool: staffed(32, 256),
        sum: Checksum(0),
    };
    for round in 0..times {
        let before = (round % 2 * 32) as u8;
        post(&mut run, before);
        give_up(&mut run, before);
        take_turns(&mut run, &mut list);
    }
    run.sum.add_record(run.pool);
    run.sum.add_all(&list);
    run.sum.0
}
