// Reads records and calls, makes each call on the engine, and writes what came of it (docs/TRIAL.md).
#![tactic(auto)]

mod calls;
mod input;
mod line;
mod output;
mod parts;
mod stop;

use crate::calls::Call;
use crate::input::Lines;
use crate::line::{Numbers, read};
use crate::output::{Record, Said, Spaced};
use crate::parts::set_part;
use crate::stop::Stop;
use arrayvec::ArrayString;
use pool::Pool;
use std::fmt::Write;
use std::{fmt, io};

// A result is shorter than half of what the output holds, so that is written out when it is half full.
// Kept: no `BufWriter`, which takes heap, and writes once more when it is dropped after a write that failed.
const HALF: usize = 32768;

// The current record, the lent list, how many calls were made, the results that are not yet written, and room for the numbers of a line.
#[derive(Drop)]
struct Bench {
    pool: Pool,
    list: Numbers,
    calls: u64,
    out: ArrayString<65536>,
    numbers: Numbers,
}

impl Bench {
    fn new() -> Bench {
        Bench {
            pool: Pool::blank(0, 0, 0),
            list: Numbers::new(),
            calls: 0,
            out: ArrayString::new(),
            numbers: Numbers::new(),
        }
    }

    // Makes a call, and puts its result behind those that are not yet written.
    fn call(&mut self, call: Call) -> Result<(), Stop> {
        let done = call.make(self.pool, self.list.as_mut_slice());
        self.pool = done.pool;
        self.calls = self.calls.saturating_add(1);
        let answer = Said(done.answer);
        let record = Record(&self.pool);
        let list = Spaced(self.list.as_slice());
        write!(self.out, "answer {answer}\n{record}list{list}\n")?;
        Ok(())
    }

    // A line of the input: a call, the lent list, or a part of the record.
    fn line(&mut self, line: &[u8]) -> Result<(), Stop> {
        let word = read(line, &mut self.numbers)?;
        let numbers = self.numbers.as_slice();
        if let Some(call) = Call::of(word, numbers) {
            return self.call(call);
        }
        match word {
            b"list" => {
                self.list.clear();
                Ok(self.list.try_extend_from_slice(numbers)?)
            }
            _ => set_part(&mut self.pool, word, numbers),
        }
    }

    // Writes the results out where less than half of the room for them is left.
    fn make_room(&mut self, rt: &impl Print) -> Result<(), Stop> {
        if self.out.len() > HALF {
            rt.write_all(self.out.as_str().as_bytes())?;
            self.out.clear();
        }
        Ok(())
    }

    fn step<R: io::Read>(&mut self, rt: &impl Print, lines: &mut Lines<R>) -> Result<(), Stop> {
        let line = lines.next_line()?;
        self.make_room(rt)?;
        self.line(line)
    }

    // Writes the last results out, and the line that says how the input ended.
    fn end<D: fmt::Display + Drop>(&mut self, rt: &impl Print, text: D) -> Result<(), Stop> {
        writeln!(self.out, "{text}")?;
        rt.write_all(self.out.as_str().as_bytes())?;
        Ok(())
    }

    // Goes through the lines. After results that are lost nothing is written, so whoever reads the last line knows that all before it is there.
    fn run<R: io::Read>(&mut self, rt: &impl Print, lines: &mut Lines<R>) -> Result<(), Stop> {
        for number in 1..u64::MAX {
            match self.step(rt, lines) {
                Ok(()) => {}
                Err(Stop::Ended) => {
                    let calls = self.calls;
                    return self.end(rt, format_args!("calls {calls}"));
                }
                Err(Stop::NotUnderstood) => {
                    return self.end(rt, format_args!("line {number} not understood"));
                }
                Err(Stop::Lost) => return Err(Stop::Lost),
            }
        }
        Ok(())
    }
}

fn main(rt: HostRuntime) {
    let mut lines = Lines::new(rt.reader());
    let mut bench = Bench::new();
    // The status is 0 in any case: the last line says whether the results are whole.
    let _ = bench.run(&rt, &mut lines);
}
