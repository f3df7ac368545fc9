// The workloads whose cost `tools/bench` prints, on the engine's public calls. Each runs so many times over and gives a checksum of every answer
// and of the record that it ends with; `bench/workloads.c` is the same on the baseline.
#![tactic(auto)]

// A call: its answer goes into the checksum, and the record that it hands back is played on.
// Kept: no function does this. With one, put in its caller too, the record was copied once more at each advance, 10 to 25 ns of 160.
macro_rules! play_on {
    ($sum:expr, $pool:expr, $call:expr) => {
        let done = $call;
        $sum.add_answer(done.answer);
        $pool = done.pool;
    };
}

mod buffers;
mod checksum;
mod contention;
mod guards;
mod handed;
mod lists;
mod refused;
mod schedules;
mod staff;
