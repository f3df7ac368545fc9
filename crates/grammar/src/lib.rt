// One line of a schedule: where it ends, what it says, and its numbers.
#![tactic(auto)]

mod numbers;

ghost use Rattle.std.specs.Prelude.{◌≡◌, ◌≤◌, length};
ghost use Rattle.tables.specs.Write.{write_at};
ghost use Rattle.grammar.specs.Line.{stop_of, after_of, line_by, line_of, numbers_at, kind, kind_of};

use crate::numbers::put_numbers;

// What a lawful line says: a call with its numbers, save the ids of a give-up; or the start or the end of a block.
#[derive(Clone, Copy, Debug, PartialEq, Eq)]
pub enum Line {
    Make(u32, u32, u32),
    Take(u32),
    Hire(u32),
    Fire(u32, u32),
    Post(u32, u32, u32),
    Give(u32),
    Ask(u32, u32),
    Step(u32),
    Repeat(u32),
    End,
}

impl Line {
    // By its first word and the numbers after it.
    fn said(word: &[u8], numbers: &[u32]) -> Option<Line>
        ensures { result ≡ line_by word.now numbers.now }
    {
        match (word, numbers) {
            (b"make", [w, g, b]) => Some(Line::Make(*w, *g, *b)),
            (b"take", [b]) => Some(Line::Take(*b)),
            (b"hire", [w]) => Some(Line::Hire(*w)),
            (b"fire", [w, g]) => Some(Line::Fire(*w, *g)),
            (b"post", [w, g, b]) => Some(Line::Post(*w, *g, *b)),
            (b"give", [w, ..]) => Some(Line::Give(*w)),
            (b"ask", [w, b]) => Some(Line::Ask(*w, *b)),
            (b"step", [w]) => Some(Line::Step(*w)),
            (b"repeat", [n @ 1..=1000]) => Some(Line::Repeat(*n)),
            (b"end", []) => Some(Line::End),
            _ => None,
        }
    }
}

// What a lawful line is to whoever reads blocks.
#[derive(Clone, Copy, Debug, PartialEq, Eq)]
pub enum Kind {
    Make,
    Call,
    Repeat(usize),
    End,
}

impl From<Line> for Kind {
    ghost from_gives = { λ l k. k ≡ kind l };

    fn from(line: Line) -> Kind {
        match line {
            Line::Make(..) => Kind::Make,
            Line::Repeat(n) => Kind::Repeat(n as usize),
            Line::End => Kind::End,
            _ => Kind::Call,
        }
    }
}

// The place of the line's newline, or the text's length where it has none.
fn stop(s: &[u8], at: usize) -> usize
    requires { at ≤ length s.now }
    ensures value { result ≡ stop_of s.now at }
    ensures within { (at ≤ result) × (result ≤ length s.now) }
{
    let rest = &s[at..];
    at + rest.iter().position(|b| *b == b'\n').unwrap_or(rest.len())
}

// Where the next line starts.
// Kept: a text and a place, and no slice of what is left: the definitions (`line_of`, `kind_of`) and the callers' contracts name a line by its place.
#[tactic(auto, using(basics::proofs::Picks::picks), unfolding(crate::specs::Line::after_of))]
pub fn after(s: &[u8], at: usize) -> usize
    requires { at ≤ length s.now }
    ensures { result ≡ after_of s.now at }
{
    let end = stop(s, at);
    if end < s.len() { end + 1 } else { end }
}

// What the line at `at` says, if it is lawful.
pub fn line_at(s: &[u8], at: usize) -> Option<Line>
    requires { at ≤ length s.now }
    ensures { result ≡ line_of s.now at }
{
    let end = stop(s, at);
    if end == s.len() {
        return None;
    }
    let line = &s[at..end];
    let word = line.split(|b| *b == b' ').next()?;
    // A fourth number is one too many, but of a give-up, whose first alone is said.
    let mut first = [0u32; 4];
    let n = put_numbers(line, &mut first).ok()?;
    Line::said(word, &first[..n.min(4)])
}

// What the line at `at` is, if it is lawful.
#[tactic(auto, unfolding(crate::specs::Line::kind_of))]
pub fn kind_at(s: &[u8], at: usize) -> Option<Kind>
    requires { at ≤ length s.now }
    ensures { result ≡ kind_of s.now at }
{
    line_at(s, at).map(Kind::from)
}

// Puts the numbers of the line at `at` at the start of a list, as far as it goes, and answers how many there are.
pub fn numbers_in(s: &[u8], at: usize, list: &mut [u32]) -> usize
    requires { at ≤ length s.now }
    ensures { (result ≡ length (numbers_at s.now at)) × (list.new ≡ write_at list.old 0 (numbers_at s.now at)) }
{
    match put_numbers(&s[at..stop(s, at)], list) {
        Ok(n) => n,
        Err(n) => n,
    }
}
