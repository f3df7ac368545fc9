// A call that is refused because the record is damaged.
use crate::checksum::Checksum;
use crate::staff::staffed;
use pool::WorkerNo;

// Rule 21 is asked first, and here MAXG breaks it; otherwise a register of the last worker breaks rule 25, and nothing that soundness asks comes
// after it. The number changes each time, so that no compiler can ask once for all.
#[unsafe(no_mangle)]
pub extern "C" fn engine_refused(times: u64, rule: usize) -> u64 {
    let mut sum = Checksum(0);
    let mut p = staffed(32, 256);
    for k in 0..times {
        let past = 32 + (k % 2) as u32;
        if rule == 21 {
            p.maxg = past;
        } else {
            p.workers[7].max = past;
        }
        play_on!(sum, p, p.hire(WorkerNo(1)));
    }
    sum.add_record(p);
    sum.0
}
