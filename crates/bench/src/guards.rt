// Guards hired, fired, posted and stood down.
use crate::checksum::Checksum;
use crate::staff::staffed;
use pool::{BufferId, GuardNo, Pool, WorkerNo};

// A hire with its three advances, and the fire of that guard with its two.
#[unsafe(no_mangle)]
pub extern "C" fn engine_hire_fire(times: u64) -> u64 {
    let mut sum = Checksum(0);
    let mut p = Pool::make(8, 32, 256).pool;
    for _ in 0..times {
        play_on!(sum, p, p.hire(WorkerNo(1)));
        for _ in 0..3 {
            play_on!(sum, p, p.advance(WorkerNo(1), &mut []));
        }
        play_on!(sum, p, p.fire(WorkerNo(1), GuardNo(0)));
        for _ in 0..2 {
            play_on!(sum, p, p.advance(WorkerNo(1), &mut []));
        }
    }
    sum.add_record(p);
    sum.0
}

// A post on buffer 1 with its two advances, and standing down with its two.
#[unsafe(no_mangle)]
pub extern "C" fn engine_post(times: u64) -> u64 {
    let mut sum = Checksum(0);
    let mut p = staffed(32, 256);
    for _ in 0..times {
        for buffer in [1, 0] {
            play_on!(sum, p, p.post(WorkerNo(5), GuardNo(0), BufferId(buffer)));
            for _ in 0..2 {
                play_on!(sum, p, p.advance(WorkerNo(5), &mut []));
            }
        }
    }
    sum.add_record(p);
    sum.0
}
