// A pool whose guards are all hired.
use pool::Pool;

// Eight workers; guard i belongs to worker 5 + i / 8.
pub fn staffed(g: u32, b: u32) -> Pool {
    let mut p = Pool::make(8, g, b).pool;
    // Kept: one number for two arrays and MAXG, which a zip would hide.
    for i in 0..g.min(32) {
        p.taken[i as usize] = true;
        p.employer[i as usize] = 5 + i / 8;
        p.maxg = i;
    }
    p
}
