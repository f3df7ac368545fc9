// The paper's cases 11 to 14, run: both sides of each edge, with what the engine answered. The pool has 2 workers, 2 guards and 3 buffers, and
// worker 1 makes the calls.
#![tactic(auto)]

use pool::{Answer, BufferId, GuardNo, Pool, WorkerNo};
use show::{Ids, InWords};
use std::{fmt, io};
use worker::{Slot, Worker};

const ONE: WorkerNo = WorkerNo(1);

const GUARD: GuardNo = GuardNo(0);

// One line: which case, what was called, and the answer.
fn tell<C: fmt::Display + Drop>(rt: &impl Print, call: C, answer: Answer) -> io::Result<()> {
    println!(rt; "{call}: {}", InWords(answer))
}

// A fresh pool in which the buffers up to this id are then taken.
fn with_taken(last: u32) -> Pool {
    (1..=last).fold(Pool::make(2, 2, 3).pool, |p, id| p.take(BufferId(id)).pool)
}

// After so many advances, none of which hands back.
fn advanced(pool: Pool, times: u32) -> Pool {
    (0..times).fold(pool, |p, _| p.advance(ONE, &mut []).pool)
}

// After the guard is posted, with the two advances of that.
fn posted(pool: Pool, id: BufferId) -> Pool {
    advanced(pool.post(ONE, GUARD, id).pool, 2)
}

// Label 18 with h (0, 4294967295), and slot 0 empty with a version.
fn exchange_at(version: u32) -> Answer {
    let mut pool = with_taken(0);
    pool.workers[0] = Worker {
        label: 18,
        v: 1,
        h: Slot {
            id: 0,
            version: u32::MAX,
        },
        ..Worker::idle()
    };
    pool.slot_version[0] = version;
    pool.advance(ONE, &mut []).answer
}

fn case_11(rt: &impl Print) -> io::Result<()> {
    for version in [u32::MAX, u32::MAX - 1] {
        let call = format_args!("case 11, label 18, the slot's version is {version}");
        tell(rt, call, exchange_at(version))?;
    }
    Ok(())
}

// The answer to a give-up of a list while buffer 1 is in service.
fn given_up(ids: &[u32]) -> Answer {
    with_taken(1).give_up(ONE, ids).answer
}

fn case_12(rt: &impl Print) -> io::Result<()> {
    tell(rt, "case 12, give up [1, 1]", given_up(&[1, 1]))?;
    tell(rt, "case 12, give up [0]", given_up(&[0]))?;
    tell(rt, "case 12, give up [1, 4]", given_up(&[1, 4]))?;
    tell(rt, "case 12, give up [2, 1], 2 is free", given_up(&[2, 1]))
}

fn case_13(rt: &impl Print) -> io::Result<()> {
    let hired = advanced(with_taken(1).hire(ONE).pool, 3);
    let refused = posted(hired, BufferId(1)).fire(ONE, GUARD);
    tell(rt, "case 13, fire of a posted guard", refused.answer)?;
    let fired = posted(refused.pool, BufferId(0)).fire(ONE, GUARD);
    tell(rt, "case 13, fire after standing down", fired.answer)
}

// Label 32 with a lent list, and the list afterwards.
fn handed_back(rt: &impl Print, call: &str, pool: Pool, list: &mut [u32]) -> io::Result<Pool> {
    let done = pool.advance(ONE, list);
    tell(rt, call, done.answer)?;
    println!(rt; "case 14, the list is then{}", Ids(list))?;
    Ok(done.pool)
}

fn case_14(rt: &impl Print) -> io::Result<()> {
    let at_32 = advanced(with_taken(2).give_up(ONE, &[1, 2]).pool, 6);
    let refused = handed_back(
        rt,
        "case 14, a set of two and a list of one",
        at_32,
        &mut [7],
    )?;
    handed_back(
        rt,
        "case 14, the same with a list of two",
        refused,
        &mut [7, 7],
    )?;
    Ok(())
}

fn main(rt: HostRuntime) -> io::Result<()> {
    case_11(&rt)?;
    case_12(&rt)?;
    case_13(&rt)?;
    case_14(&rt)
}
