// A first look at damage: records with a number changed by hand, each handed to a call that refuses it, with the reason (request 101). There
// is one for each rule and each kind of place, and two in which more than one thing is wrong. Each starts from a fresh pool of 2 workers, 4
// guards and 3 buffers.
#![tactic(auto)]

use pool::{Answer, BufferId, GuardNo, Pool, WorkerNo};
use show::refusal::WithReason;
use std::io;

const ONE: WorkerNo = WorkerNo(1);

// One line: what is changed in a fresh pool, which call is then made, and its answer. A call that is refused leaves the record as it was.
fn tell<D: FnOnce(&mut Pool), C: FnOnce(Pool) -> Answer>(
    rt: &impl Print,
    change: &str,
    damage: D,
    name: &str,
    call: C,
) -> io::Result<()>
    requires damages { D.IsAlwaysCallable damage }
    requires calls { C.IsAlwaysCallable call }
{
    let mut p = Pool::make(2, 4, 3).pool;
    damage(&mut p);
    let told = WithReason {
        pool: &p,
        answer: call(p),
    };
    println!(rt; "{change}; {name}: {told}")
}

// The soundness test by itself, as an answer.
fn soundness(pool: Pool) -> Answer {
    pool.soundness()
        .map_or_else(|refused| refused.into(), |()| Answer::Clear)
}

fn counts(rt: &impl Print) -> io::Result<()> {
    tell(
        rt,
        "MAXG = 4",
        |p| p.maxg = 4,
        "hire",
        |p| p.hire(ONE).answer,
    )
}

fn beyond_counts(rt: &impl Print) -> io::Result<()> {
    tell(
        rt,
        "guard 5 taken",
        |p| p.taken[5] = true,
        "take",
        |p| p.take(BufferId(1)).answer,
    )?;
    tell(
        rt,
        "buffer 10 in service",
        |p| p.states[9] = 1,
        "leaving count",
        |p| p.leaving_count(),
    )?;
    let damage = |p: &mut Pool| p.sets[2] = p.sets[2].with(1);
    tell(
        rt,
        "worker 3's set = {1}",
        damage,
        "set size",
        |p| p.set_size(ONE),
    )
}

fn kinds(rt: &impl Print) -> io::Result<()> {
    tell(
        rt,
        "guard 3's employer = 7",
        |p| p.employer[3] = 7,
        "fire",
        |p| p.fire(ONE, GuardNo(3)).answer,
    )?;
    tell(
        rt,
        "buffer 2's state = 5",
        |p| p.states[1] = 5,
        "audit",
        |p| p.audit(),
    )?;
    tell(
        rt,
        "worker 1's label = 3",
        |p| p.workers[0].label = 3,
        "advance",
        |p| p.advance(ONE, &mut []).answer,
    )
}

fn ids(rt: &impl Print) -> io::Result<()> {
    tell(
        rt,
        "guard 0's slot's id = 4",
        |p| p.slot_id[0] = 4,
        "ask",
        |p| p.ask(ONE, BufferId(1)).answer,
    )?;
    tell(
        rt,
        "worker 2's v = 9",
        |p| p.workers[1].v = 9,
        "post",
        |p| p.post(ONE, GuardNo(0), BufferId(1)).answer,
    )
}

fn registers(rt: &impl Print) -> io::Result<()> {
    let damage = |p: &mut Pool| {
        p.workers[1].label = 18;
        p.workers[1].attempts = 3;
    };
    tell(
        rt,
        "worker 2's label = 18, attempts = 3",
        damage,
        "give up",
        |p| p.give_up(ONE, &[]).answer,
    )
}

// The earlier rule decides, although guards are asked before workers; and within a rule the lowest number.
fn more_than_one(rt: &impl Print) -> io::Result<()> {
    let damage = |p: &mut Pool| {
        p.posted[0] = 4;
        p.workers[0].label = 3;
    };
    tell(
        rt,
        "guard 0's posted id = 4, worker 1's label = 3",
        damage,
        "soundness",
        soundness,
    )?;
    let damage = |p: &mut Pool| {
        p.employer[3] = 7;
        p.employer[1] = 3;
    };
    tell(
        rt,
        "guard 3's employer = 7, guard 1's employer = 3",
        damage,
        "soundness",
        soundness,
    )
}

fn main(rt: HostRuntime) -> io::Result<()> {
    tell(
        &rt,
        "nothing changed",
        |_| {},
        "hire",
        |p| p.hire(ONE).answer,
    )?;
    counts(&rt)?;
    beyond_counts(&rt)?;
    kinds(&rt)?;
    ids(&rt)?;
    registers(&rt)?;
    more_than_one(&rt)
}
