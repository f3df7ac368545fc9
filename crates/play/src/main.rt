// Plays the schedule on standard input (docs/SCHEDULES.md).
#![tactic(auto)]

ghost use Rattle.std.specs.Prelude.{◌≤◌, length};

use arrayvec::ArrayVec;
use player::{play_line, put_read};
use pool::Pool;
use std::io;

// What is printed and not yet written out.
// Kept: a `BufWriter` would take heap, and when it is dropped it writes once more after a write that failed.
type Page = ArrayVec<u8, 65536>;

// A line is shorter than half a page.
const HALF: usize = 32768;

// Puts a line into the page, once what is there is written out where it is half a page or more.
fn print(rt: &impl Print, page: &mut Page, line: &[u8]) -> io::Result<()>
    requires { length line.now ≤ HALF }
{
    if HALF <= page.len() {
        rt.write_all(page.as_slice())?;
        page.clear();
    }
    page.try_extend_from_slice(line).unwrap();
    Ok(())
}

// The calls at the places, one after the other.
fn play_calls(rt: &impl Print, text: &[u8], places: &[u32]) -> io::Result<()> {
    let mut page = Page::new();
    let mut line = [0u8; 8192];
    let mut pool = Pool::blank(0, 0, 0);
    for (k, place) in places.iter().enumerate() {
        let turn = play_line(text, *place as usize, k + 1, pool, &mut line);
        pool = turn.pool;
        print(rt, &mut page, &line[..turn.written])?;
    }
    rt.write_all(page.as_slice())
}

fn play(rt: &impl Print, text: &[u8]) -> io::Result<()> {
    let mut places = [0u32; 100000];
    match schedule::unroll(text, &mut places) {
        Ok(count) => play_calls(rt, text, &places[..count]),
        unread => {
            let mut line = [0u8; 8192];
            let written = put_read(unread, &mut line);
            rt.write_all(&line[..written])
        }
    }
}

// Reads until the buffer is full, the input ends or a read fails, and answers how much was read.
// Kept: `read_exact` does not say how much there was, and `read_to_end` takes heap and goes on after some reads that failed.
fn read_full<R: io::Read>(input: &mut R, buffer: &mut [u8]) -> usize
    ensures { result ≤ length buffer.new }
{
    let mut filled = 0;
    while filled < buffer.len() {
        match input.read(&mut buffer[filled..]) {
            Ok(0) | Err(_) => break,
            Ok(got) => filled += got,
        }
    }
    filled
}

fn main(rt: HostRuntime) -> io::Result<()> {
    let mut text = [0u8; 16385];
    let n = read_full(&mut rt.reader(), &mut text);
    play(&rt, &text[..n])
}
