// The record handed in and out by value, one entry stored: what every call costs before it does anything of its own.
use crate::checksum::Checksum;
use pool::{Answer, Outcome, Pool};

// Which entry is not known to the compiler, as in the engine's calls: a record of which only known entries are used is not copied at all.
fn stored(mut p: Pool, k: u64) -> Outcome {
    let at = (k % 256) as usize;
    p.states[at] = 2 - p.states[at] % 2;
    Outcome {
        answer: Answer::Accepted,
        pool: p,
    }
}

#[unsafe(no_mangle)]
pub extern "C" fn engine_handed(times: u64) -> u64 {
    let mut sum = Checksum(0);
    let mut p = Pool::make(8, 32, 256).pool;
    for k in 0..times {
        play_on!(sum, p, stored(p, k));
    }
    sum.add_record(p);
    sum.0
}
