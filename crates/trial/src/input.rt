// The input, line by line.
ghost use Rattle.std.specs.Prelude.{◌≡◌, ◌<◌, ◌≤◌, IsTrue, IfOk, IfSome};
ghost use Rattle.trial.specs.declared.input.TheConstants.{CAPACITY};

use crate::stop::Stop;
use std::io;

// A line with its line feed fits.
const CAPACITY: usize = 65536;

// What is read and not yet handed out stands in the buffer, from `start` up to `end`.
// Kept: no `BufReader`, which takes heap, and reads again after a signal, where this one has ended.
#[derive(Drop)]
pub struct Lines<R> {
    source: R,
    buffer: [u8; CAPACITY],
    start: usize,
    end: usize,

    ghost within: { (start ≤ end) × (end ≤ CAPACITY) },
}

impl<R: io::Read> Lines<R> {
    pub fn new(source: R) -> Lines<R> {
        Lines {
            source,
            buffer: [0; CAPACITY],
            start: 0,
            end: 0,
        }
    }

    // The place of the first line feed at or after a place.
    fn feed_from(&self, from: usize) -> Option<usize>
        requires { from ≤ self.now.end }
        ensures { IfSome result (λ to. (from ≤ to) × (to < self.now.end)) }
    {
        let n = self.buffer[from..self.end]
            .iter()
            .position(|byte| *byte == b'\n')?;
        Some(from + n)
    }

    // Moves what is left to the front.
    fn to_front(&mut self)
        ensures { self.new.start ≡ 0 }
    {
        self.buffer.copy_within(self.start..self.end, 0);
        self.end -= self.start;
        self.start = 0;
    }

    // Reads once behind what is there, and answers whether more is there now. Input that cannot be read counts as ended.
    fn read_more(&mut self) -> bool
        ensures start { self.new.start ≡ self.old.start }
        ensures more { IsTrue result → self.old.end < self.new.end }
    {
        match self.source.read(&mut self.buffer[self.end..]) {
            Ok(got) => {
                self.end += got;
                got > 0
            }
            Err(_) => false,
        }
    }

    // The place of the line feed that ends the next line. Where the buffer has no more than the line's beginning, more is read behind that.
    fn find_feed(&mut self) -> Result<usize, Stop>
        ensures { IfOk result (λ to. (self.new.start ≤ to) × (to < self.new.end)) }
    {
        if let Some(to) = self.feed_from(self.start) {
            return Ok(to);
        }
        self.to_front();
        loop {
            let seen = self.end;
            if !self.read_more() {
                return Err(if seen == 0 {
                    Stop::Ended
                } else {
                    Stop::NotUnderstood
                });
            }
            if let Some(to) = self.feed_from(seen) {
                return Ok(to);
            }
        }
    }

    // The next line, without its line feed. Where the input ends, nothing may be left of a line without its end.
    pub fn next_line(&mut self) -> Result<&[u8], Stop> {
        let to = self.find_feed()?;
        let from = self.start;
        self.start = to + 1;
        // Shared whole, and then the part: a part of an array behind a `&mut` is lent alone only in a struct of plain data.
        let lines = &*self;
        Ok(&lines.buffer[from..to])
    }
}
