// A schedule, played: each line's call made on the pool, and the line that it prints.
#![tactic(auto)]

ghost use Rattle.std.specs.Prelude.{◌≡◌, [], ◌≤◌, length, drop, replicate, Result, Ok, Err};
ghost use Rattle.tables.specs.Write.{write_at};
ghost use Rattle.pool.specs.Answers.{told};
ghost use Rattle.rules.specs.Calls.{giving_up, advancing};
ghost use Rattle.grammar.specs.Line.{numbers_at};
ghost use Rattle.player.specs.Turns.{says, turn_of, turn_at, turned, Shows, calls};
ghost use Rattle.player.specs.Transcript.{judgement};

use grammar::Line;
use pool::{BufferId, GuardNo, Outcome, Pool, WorkerNo};
use printed::Page;
use schedule::Unread;

// The record after a line, and how many bytes it printed.
#[derive(Clone, Copy, Debug, PartialEq, Eq)]
pub struct Turn {
    pub pool: Pool,
    pub written: usize,
}

// What a call came to, printed with the list that it was lent. Put in its callers, so that no record is copied for it.
#[inline(always)]
fn tell(done: Outcome, list: &[u32], number: usize, out: &mut [u8; 8192]) -> Turn
    requires { length list.now ≤ 256 }
    ensures { Shows (says number (told done) list.now) result out.old out.new }
{
    let written = printed::put_line(out, number, done.answer, list);
    Turn {
        pool: done.pool,
        written,
    }
}

fn step(pool: Pool, w: u32, number: usize, out: &mut [u8; 8192]) -> Turn
    ensures { Shows (turn_of (calls (advancing w (replicate 256 0))) number pool) result out.old out.new }
{
    let mut ids = [0u32; 256];
    let done = pool.advance(WorkerNo(w), &mut ids);
    tell(done, &ids, number, out)
}

// The line's numbers are the worker and the ids.
fn give(text: &[u8], place: usize, pool: Pool, w: u32, number: usize, out: &mut [u8; 8192]) -> Turn
    requires { (length text.now ≤ 16384) × (place ≤ length text.now) × (1 ≤ length (numbers_at text.now place)) }
    ensures { Shows (turn_of (calls (giving_up w (drop 1 (numbers_at text.now place)))) number pool) result out.old out.new }
{
    let mut numbers = [0u32; 8192];
    let n = grammar::numbers_in(text, place, &mut numbers);
    tell(pool.give_up(WorkerNo(w), &numbers[1..n]), &[], number, out)
}

// The line at a place as call `number` of the text: what it prints stands at the start of `out`.
pub fn play_line(text: &[u8], place: usize, number: usize, pool: Pool, out: &mut [u8; 8192]) -> Turn
    ensures value { result ≡ turned (turn_at text.now place number pool) }
    ensures out_after { out.new ≡ write_at out.old 0 (turn_at text.now place number pool).bytes }
    ensures written_bound { result.written ≤ 8192 }
{
    if 16384 < text.len() || text.len() < place {
        return Turn { pool, written: 0 };
    }
    let Some(line) = grammar::line_at(text, place) else {
        return Turn { pool, written: 0 };
    };
    match line {
        Line::Make(w, g, b) => tell(Pool::make(w, g, b), &[], number, out),
        Line::Take(b) => tell(pool.take(BufferId(b)), &[], number, out),
        Line::Hire(w) => tell(pool.hire(WorkerNo(w)), &[], number, out),
        Line::Fire(w, g) => tell(pool.fire(WorkerNo(w), GuardNo(g)), &[], number, out),
        Line::Post(w, g, b) => {
            let done = pool.post(WorkerNo(w), GuardNo(g), BufferId(b));
            tell(done, &[], number, out)
        }
        Line::Give(w) => give(text, place, pool, w, number, out),
        Line::Ask(w, b) => tell(pool.ask(WorkerNo(w), BufferId(b)), &[], number, out),
        Line::Step(w) => step(pool, w, number, out),
        Line::Repeat(_) | Line::End => Turn { pool, written: 0 },
    }
}

// What is printed of a text that is not played stands at the start of `out`.
pub fn put_read(read: Result<usize, Unread>, out: &mut [u8; 8192]) -> usize
    ensures value { result ≡ length (judgement read) }
    ensures out_after { out.new ≡ write_at out.old 0 (judgement read) }
{
    let mut page = Page::new(out);
    match read {
        Ok(_) => {}
        Err(Unread::TooLong) => page.put_bytes(b"too long\n"),
        Err(Unread::BadLine(n)) => {
            page.put_bytes(b"bad line ");
            page.put_number(n);
            page.put_bytes(b"\n");
        }
    }
    page.written()
}
