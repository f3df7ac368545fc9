// A schedule's text: a block holds lines, and a line may open a block. The block reader and the line reader call each other.
#![tactic(auto)]

ghost use Rattle.std.specs.Prelude.{◌≡◌, ◌+◌, ◌^◌, ◌≤◌, ◌<◌, length, min, MatchResult};
ghost use Rattle.std.specs.Option.{option_or};
ghost use Rattle.grammar.specs.Line.{after_of};
ghost use Rattle.schedule.specs.Text.{open_after, has_line, block_at, line_at, end_of, tell, put, Ready};
ghost use Rattle.schedule.specs.Read.{line_number, read_of, Playable, answered, filled};
ghost use Rattle.tables.specs.Write.{write_at};

use grammar::Kind;

// Kept: the functions take a text and a place, as `grammar`'s do, and not a type of both: the definitions (`block_at s at depth`) have them so.

// What lines are read as: where the next one starts, the lowest at fault, if one is, and the number of calls, which stops at 100,001.
#[derive(Clone, Copy, Debug, PartialEq, Eq)]
pub struct Got {
    pub next: usize,
    pub fault: Option<usize>,
    pub calls: usize,
}

impl Got {
    // These lines and those after them. The first at fault is the lowest, since lines are read in order.
    fn then(self, others: Got) -> Got
        ensures { result ≡ record {
          next = others.next;
          fault = option_or self.fault others.fault;
          calls = min (self.calls + others.calls) 100001;
        } }
    {
        Got {
            next: others.next,
            fault: self.fault.or(others.fault),
            calls: self.calls.saturating_add(others.calls).min(100001),
        }
    }
}

// The open blocks after a line.
fn opened(kind: Option<Kind>, opens: usize) -> usize
    requires { opens + 1 < 2 ^ 64 }
    ensures { result ≡ open_after kind opens }
{
    match kind {
        Some(Kind::Repeat(_)) => opens + 1,
        Some(Kind::End) => opens.saturating_sub(1),
        _ => opens,
    }
}

// The place after the block whose lines go on at `at`: after its `end`, or the text's end.
fn passed(s: &[u8], at: usize) -> usize
    requires { at ≤ length s.now }
    ensures { result ≡ after_of s.now (end_of s.now at 0) }
{
    let mut i = at;
    let mut opens: usize = 0;
    // Kept: `while`, here and below, since where the next line starts is what the reading of this one answers, and no range has it.
    while i < s.len() {
        let next = grammar::after(s, i);
        let kind = grammar::kind_at(s, i);
        if kind == Some(Kind::End) && opens == 0 {
            return next;
        }
        opens = opened(kind, opens);
        i = next;
    }
    i
}

// Whether a block whose lines go on at `at` has a line there, and not its `end` or the text's end.
fn has_line(s: &[u8], at: usize) -> bool
    requires { at ≤ length s.now }
    ensures { result ≡ has_line s.now at }
{
    at < s.len() && grammar::kind_at(s, at) != Some(Kind::End)
}

// The lines from `at` up to an `end` or the text's end.
#[cycle(block_line)]
fn block(s: &[u8], at: usize, depth: usize) -> Got
    requires { at ≤ length s.now }
    ensures { result ≡ tell (block_at s.now at depth) }
{
    let mut got = Got {
        next: at,
        fault: None,
        calls: 0,
    };
    while has_line(s, got.next) {
        got = got.then(line(s, got.next, depth));
    }
    got
}

// One line, with the block that it opens.
#[cycle(block_line)]
fn line(s: &[u8], at: usize, depth: usize) -> Got
    requires { at < length s.now }
    ensures { result ≡ tell (line_at s.now at depth) }
{
    let next = grammar::after(s, at);
    let wrong = Got {
        next,
        fault: Some(at),
        calls: 0,
    };
    let Some(kind) = grammar::kind_at(s, at) else {
        return wrong;
    };
    match kind {
        Kind::Call => Got {
            next,
            fault: None,
            calls: 1,
        },
        Kind::Repeat(_) if depth == 0 => Got {
            next: passed(s, next),
            ..wrong
        },
        Kind::Repeat(n) => {
            let inner = block(s, next, depth - 1);
            if inner.next == s.len() {
                return Got {
                    next: inner.next,
                    ..wrong
                };
            }
            Got {
                next: grammar::after(s, inner.next),
                calls: n.saturating_mul(inner.calls).min(100001),
                ..inner
            }
        }
        _ => wrong,
    }
}

// Where the second pass is after some lines: where the next one starts, and how many calls were written.
#[derive(Clone, Copy, Debug, PartialEq, Eq)]
pub struct Put {
    pub next: usize,
    pub written: usize,
}

// The calls of the lines from `at` up to an `end` or the text's end are written at the start of the table.
#[cycle(put_block_put_line)]
fn put_block(s: &[u8], at: usize, depth: usize, t: &mut [u32]) -> Put
    requires { (at ≤ length s.now) × Ready s.now (block_at s.now at depth) t.old }
    ensures { (result ≡ put (block_at s.now at depth)) × (t.new ≡ write_at t.old 0 (block_at s.now at depth).calls) }
{
    let mut p = Put {
        next: at,
        written: 0,
    };
    while has_line(s, p.next) {
        let more = put_line(s, p.next, depth, &mut t[p.written..]);
        p = Put {
            next: more.next,
            written: p.written + more.written,
        };
    }
    p
}

// The same of one line: a block that it opens is written once, and then copied.
#[cycle(put_block_put_line)]
fn put_line(s: &[u8], at: usize, depth: usize, t: &mut [u32]) -> Put
    requires { (at < length s.now) × Ready s.now (line_at s.now at depth) t.old }
    ensures { (result ≡ put (line_at s.now at depth)) × (t.new ≡ write_at t.old 0 (line_at s.now at depth).calls) }
{
    let next = grammar::after(s, at);
    let Some(kind) = grammar::kind_at(s, at) else {
        return Put { next, written: 0 };
    };
    match kind {
        Kind::Call => {
            t[0] = at as u32;
            Put { next, written: 1 }
        }
        Kind::Repeat(n) => {
            let p = put_block(s, next, depth - 1, t);
            Put {
                next: grammar::after(s, p.next),
                written: tables::repeat_part(t, 0, p.written, n),
            }
        }
        _ => Put { next, written: 0 },
    }
}

// Why a text is not read as calls: it is too long, or the number of its lowest line at fault.
#[derive(Clone, Copy, Debug, PartialEq, Eq)]
pub enum Unread {
    TooLong,
    BadLine(usize),
}

// The number of the line at place p.
#[tactic(auto, unfolding(crate::specs::Read::line_number))]
fn number_of(s: &[u8], p: usize) -> usize
    requires { p ≤ length s.now }
    ensures { result ≡ line_number s.now p }
{
    s[..p].iter().filter(|b| **b == b'\n').count() + 1
}

// The start of line 2, if the text is read as calls.
fn second_line(s: &[u8]) -> Result<usize, Unread>
    ensures { MatchResult result (Playable s.now) (λ e. answered (read_of s.now) ≡ Err e) }
{
    if 16384 < s.len() {
        return Err(Unread::TooLong);
    }
    if grammar::kind_at(s, 0) != Some(Kind::Make) {
        return Err(Unread::BadLine(1));
    }
    let second = grammar::after(s, 0);
    let got = block(s, second, 4);
    let stray_end = (got.next < s.len()).then_some(got.next);
    if let Some(fault) = got.fault.or(stray_end) {
        return Err(Unread::BadLine(number_of(s, fault)));
    }
    if 100000 <= got.calls {
        return Err(Unread::TooLong);
    }
    Ok(second)
}

// The number of calls of the whole text. Where it is read as calls, the table holds the place of each call's line from 0 on; else it is unchanged.
pub fn unroll(s: &[u8], t: &mut [u32; 100000]) -> Result<usize, Unread>
    ensures { (result ≡ answered (read_of s.now)) × (t.new ≡ filled (read_of s.now) t.old) }
{
    let second = second_line(s)?;
    t[0] = 0;
    let p = put_block(s, second, 4, &mut t[1..]);
    Ok(1 + p.written)
}
