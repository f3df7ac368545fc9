// A line's word and its numbers.
ghost use Rattle.std.specs.Prelude.{◌≤◌, length, IfSome};

use crate::stop::Stop;
use arrayvec::ArrayVec;

// The numbers of a line, and the lent list: at most 600.
pub type Numbers = ArrayVec<u32, 600>;

// The number that the digits at a text's start make, at most 4294967295, and what comes after them. `parse` would take a sign too.
// Kept: not `grammar`'s reading, which refuses zeros in front; and wrong engines are tried with the engine's crates and this one alone (tools/faults).
fn number(text: &[u8]) -> Option<(u32, &[u8])>
    ensures { IfSome result (λ r. length r.1.now ≤ length text.now) }
{
    let mut n: u32 = 0;
    let mut left = text;
    while let [digit @ b'0'..=b'9', more @ ..] = left {
        n = n.checked_mul(10)?.checked_add(u32::from(*digit - b'0'))?;
        left = more;
    }
    if left.len() == text.len() {
        return None;
    }
    Some((n, left))
}

// The word of a line, whose numbers are put in the list.
// Kept: no `split`, with which each number is gone through twice: lines of long lists took a third longer.
pub fn read<'a>(line: &'a [u8], numbers: &mut Numbers) -> Result<&'a [u8], Stop> {
    let end = line
        .iter()
        .position(|byte| *byte == b' ')
        .unwrap_or(line.len());
    let (word, mut rest) = line.split_at(end);
    numbers.clear();
    while let [b' ', field @ ..] = rest {
        let (n, left) = number(field).ok_or(Stop::NotUnderstood)?;
        numbers.try_push(n)?;
        rest = left;
    }
    if !rest.is_empty() {
        return Err(Stop::NotUnderstood);
    }
    Ok(word)
}
