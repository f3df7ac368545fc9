// A first look at the pool: why a buffer that is given up is not handed back while somebody reads it.
#![tactic(auto)]

use pool::{Answer, BufferId, GuardNo, Outcome, Pool, WorkerNo};
use show::InWords;
use std::io;

const READER: WorkerNo = WorkerNo(1);

const OTHER: WorkerNo = WorkerNo(2);

const FAULT: &str = "\
The routine that this pool replaces handed a buffer back as soon as it was given up.
Worker 2's take would have been accepted and the buffer refilled, and worker 1 would
have read the end of one chunk and the start of another: one base too many at the seam.
";

// The pool, and where its story is told.
#[derive(Drop)]
struct Story<'a, P> {
    rt: &'a P,
    pool: Pool,
}

impl<P: Print> Story<'_, P> {
    // Keeps the record that a call left, and hands out its answer.
    fn left(&mut self, outcome: Outcome) -> Answer {
        self.pool = outcome.pool;
        outcome.answer
    }

    // What a worker begins, with the answer, and its advances to the end of that.
    fn run<F: FnOnce(Pool, WorkerNo) -> Outcome>(
        &mut self,
        what: &str,
        w: WorkerNo,
        begin: F,
    ) -> io::Result<()>
        requires { F.IsAlwaysCallable begin }
    {
        let begun = self.left(begin(self.pool, w));
        print!(self.rt; "{what}: {}", InWords(begun))?;
        let mut list = [0u32; 3];
        for _ in 0..32u32 {
            let answer = self.left(self.pool.advance(w, &mut list));
            print!(self.rt; ", {}", InWords(answer))?;
            if !matches!(answer, Answer::At(_)) {
                break;
            }
        }
        let first = list[0];
        if first != 0 {
            print!(self.rt; ": buffer {first}")?;
        }
        println!(self.rt)
    }

    fn take_first(&mut self, what: &str) -> io::Result<()> {
        let answer = self.left(self.pool.take(BufferId(1)));
        println!(self.rt; "{what}: {}", InWords(answer))
    }

    fn show_slot(&self) -> io::Result<()> {
        let (id, version) = (self.pool.slot_id[0], self.pool.slot_version[0]);
        let audit = InWords(self.pool.audit());
        println!(self.rt;
            "    Guard 0's slot now: buffer {id}, version {version}. The audit: {audit}"
        )
    }

    // Worker 1 hires a guard and posts it on buffer 1.
    fn reader_begins(&mut self) -> io::Result<()> {
        self.run("Worker 1 hires a guard", READER, |p, w| p.hire(w))?;
        self.run(
            "Worker 1 posts guard 0 on buffer 1",
            READER,
            |p, w| p.post(w, GuardNo(0), BufferId(1)),
        )?;
        println!(self.rt; "    From here on guard 0 holds buffer 1, and worker 1 reads it.\n")
    }

    // Worker 2 gives buffer 1 up while worker 1 reads it.
    fn given_up_too_early(&mut self) -> io::Result<()> {
        self.run(
            "Worker 2 gives up buffer 1",
            OTHER,
            |p, w| p.give_up(w, &[1]),
        )?;
        println!(self.rt;
            "    Nothing was handed back: at label 18 the buffer went into the guard's hand-off slot."
        )?;
        self.show_slot()?;
        self.take_first("    Worker 2 tries to take buffer 1 for new samples")?;
        println!(self.rt; "    So worker 1 reads on, and what it reads stays as it is.\n")
    }

    // Worker 1 has read enough.
    fn reader_ends(&mut self) -> io::Result<()> {
        self.run(
            "Worker 1 stands guard 0 down",
            READER,
            |p, w| p.post(w, GuardNo(0), BufferId(0)),
        )?;
        self.run(
            "Worker 2 gives up nothing, and so collects what slots hold",
            OTHER,
            |p, w| p.give_up(w, &[]),
        )?;
        println!(self.rt;
            "    At label 28 the buffer came out of the slot, and at 32 it was handed back."
        )?;
        self.show_slot()?;
        self.take_first("Worker 2 takes buffer 1")
    }
}

fn main(rt: HostRuntime) -> io::Result<()> {
    println!(rt; "A pool of 2 workers, 2 guards and 3 buffers.\n")?;
    let mut story = Story {
        rt: &rt,
        pool: Pool::make(2, 2, 3).pool,
    };
    story.take_first("Buffer 1 is taken and filled")?;
    story.reader_begins()?;
    story.given_up_too_early()?;
    println!(rt; "{FAULT}")?;
    story.reader_ends()
}
