// A set of buffer ids 1 to 256 as four words of marks: bit (id - 1) % 64 of word (id - 1) / 64 is set exactly when id is a member.
// The contracts say each result by membership: `member_of s b`, and `set_of p`, the set of the ids that p holds of.
// `larger`, `next_mark` and `Marks` alone go by words.
#![tactic(auto)]

ghost use Rattle.std.specs.Prelude.{◌≡◌, ◌-◌, ◌^◌, ◌<◌, ltb, IfSome};
ghost use Rattle.std.specs.Iterator.{YieldsFirst, item_count};
ghost use Rattle.idset.specs.Members.{set_in, MarksAlone, member_of, no_ids, with_of, without_of, size_of, place_of, next_mark, marks_from, marks_left, within_of, larger_of};

#[derive(Clone, Copy, Debug, PartialEq, Eq)]
pub struct IdSet {
    pub words: [u64; 4],
}

// The word that has id's mark, and the mark's place in it; nothing for 0 and what is above 256.
fn place_of(id: u32) -> Option<(usize, u32)>
    ensures place { result ≡ place_of id }
    ensures fits { IfSome result (λ p. (p.0 < 4) × (p.1 < 64)) }
{
    match id {
        1..=256 => {
            let at = id - 1;
            Some(((at / 64) as usize, at % 64))
        }
        _ => None,
    }
}

// Whether no mark of the word that follows id `base` stands above id `limit`. A shift by the word's width or more has no meaning
// to the machine, so the two ends are tested first.
fn clear_above(word: u64, base: u32, limit: u32) -> bool
    ensures { result ≡ ltb word (2 ^ (limit - base)) }
{
    if limit <= base {
        return word == 0;
    }
    let room = limit - base;
    if 64 <= room { true } else { word >> room == 0 }
}

// The place of the first mark of the word at `from` or above. A walk over a set holds one word at a time.
pub fn next_mark(word: u64, from: u32) -> Option<u32>
    ensures { result ≡ next_mark word from }
{
    if 64 <= from {
        return None;
    }
    let rest = word >> from;
    if rest == 0 {
        return None;
    }
    Some(from + rest.trailing_zeros())
}

// A walk over the marked places of a word, ascending, that goes on at `from`.
#[derive(Clone, Debug, Drop)]
pub struct Marks {
    word: u64,
    from: u32,
}

impl Iterator for Marks {
    type Item = u32;

    ghost next_gives = { YieldsFirst marks_left };

    ghost remaining = { item_count marks_left };

    fn next(&mut self) -> Option<u32> {
        let mark = next_mark(self.word, self.from)?;
        self.from = mark + 1;
        Some(mark)
    }
}

impl Marks {
    // The walk over all marked places of the word.
    pub fn of(word: u64) -> Marks
        ensures { marks_left result ≡ marks_from word 0 }
    {
        Marks { word, from: 0 }
    }
}

// Marks id in the words of a set, and answers whether it was marked. 0 and what is above 256 change nothing.
pub fn mark(words: &mut [u64; 4], id: u32) -> bool
    ensures marked { MarksAlone (set_in words.old) → set_in words.new ≡ with_of (set_in words.old) id }
    ensures met { result ≡ member_of (set_in words.old) id }
{
    let Some((i, at)) = place_of(id) else {
        return false;
    };
    let before = words[i];
    let after = before | (1 << at);
    words[i] = after;
    (before >> at) & 1 == 1
}

impl IdSet {
    // No members.
    pub fn empty() -> IdSet
        ensures { result ≡ no_ids }
    {
        IdSet { words: [0; 4] }
    }

    // Whether id is a member: never for 0 and above 256.
    pub fn has(self, id: u32) -> bool
        ensures { result ≡ member_of self id }
    {
        match place_of(id) {
            Some((i, at)) => (self.words[i] >> at) & 1 == 1,
            None => false,
        }
    }

    // The set with id as a member. 0 and what is above 256 change nothing.
    pub fn with(mut self, id: u32) -> IdSet
        ensures { result ≡ with_of self id }
    {
        if let Some((i, at)) = place_of(id) {
            self.words[i] |= 1 << at;
        }
        self
    }

    // The set without id.
    pub fn without(mut self, id: u32) -> IdSet
        ensures { result ≡ without_of self id }
    {
        if let Some((i, at)) = place_of(id) {
            self.words[i] &= !(1 << at);
        }
        self
    }

    // How many members there are.
    // Kept: the four words written out, here and below, since the proof of a `sum` over them did not close, and a loop of four says no more.
    pub fn size(self) -> u32
        ensures { result ≡ size_of self }
    {
        let [a, b, c, d] = self.words;
        a.count_ones() + b.count_ones() + c.count_ones() + d.count_ones()
    }

    // Whether every member is at most limit; within 0 a set is empty. No branch depends on the words.
    pub fn within(self, limit: u32) -> bool
        ensures { result ≡ within_of self limit }
    {
        let [a, b, c, d] = self.words;
        clear_above(a, 0, limit)
            & clear_above(b, 64, limit)
            & clear_above(c, 128, limit)
            & clear_above(d, 192, limit)
    }

    // Word by word the larger of the two: it is within a limit exactly when both are.
    pub fn larger(self, other: IdSet) -> IdSet
        ensures { result ≡ larger_of self other }
    {
        let [a, b, c, d] = self.words;
        let [e, f, g, h] = other.words;
        IdSet {
            words: [a.max(e), b.max(f), c.max(g), d.max(h)],
        }
    }
}
