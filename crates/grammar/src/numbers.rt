// The words of a line after its first, as numbers.
ghost use Rattle.std.specs.Prelude.{◌≡◌, drop};
ghost use Rattle.tables.specs.Write.{write_at};
ghost use Rattle.grammar.specs.Words.{words, number_of, numbers_of, tally};

// The word as a number: its digits, with no leading zero.
fn number(word: &[u8]) -> Option<u32>
    ensures { result ≡ number_of word.now }
{
    if let [] | [b'0', _, ..] = word {
        return None;
    }
    let mut v: u32 = 0;
    for b in word {
        if !b.is_ascii_digit() {
            return None;
        }
        v = v.checked_mul(10)?.checked_add(u32::from(*b - b'0'))?;
    }
    Some(v)
}

// Puts the numbers at the start of a list, as far as it goes. Answers how many there are: `Ok` if every word is one, else `Err` with those before the first
// that is none.
pub fn put_numbers(line: &[u8], list: &mut [u32]) -> Result<usize, usize>
    ensures value { result ≡ tally (drop 1 (words line.now)) }
    ensures list_after { list.new ≡ write_at list.old 0 (numbers_of (drop 1 (words line.now))) }
{
    let mut words = line.split(|b| *b == b' ');
    // Not by `skip`, which asks at each word whether the first is behind it.
    words.next();
    let mut n = 0;
    for word in words {
        let Some(v) = number(word) else {
            return Err(n);
        };
        // Kept: no `get_mut`, after which the proof would know the list's length alone.
        if n < list.len() {
            list[n] = v;
        }
        n += 1;
    }
    Ok(n)
}
