// The line that a call prints, written into a lent buffer that has room for it.
#![tactic(auto)]

ghost use Rattle.std.specs.Prelude.{◌≡◌, ◌++◌, ◌≤◌, length, take};
ghost use Rattle.std.specs.List.{flat_map};
ghost use Rattle.tables.specs.Write.{write_at};
ghost use Rattle.pool.specs.Answers.{said};
ghost use Rattle.printed.specs.Printed.{decimal, spaced, in_words, line_for};
ghost use Rattle.printed.specs.Page.{written_in, Starts, HasRoom, Wrote};

use pool::Answer;

// A lent buffer, written from its start on.
// Kept: no `fmt::Write` for a `Display` of answers. Its clauses speak of an `Ok` alone, and `put_line` promises the whole line in every case.
#[derive(Drop)]
pub struct Page<'a> {
    bytes: &'a mut [u8],
    at: usize,
}

impl<'a> Page<'a> {
    pub fn new(bytes: &'a mut [u8]) -> Page<'a>
        ensures { Starts result bytes.entry }
    {
        Page { bytes, at: 0 }
    }

    // How many bytes are written.
    pub fn written(&self) -> usize
        ensures { result ≡ written_in self.now }
    {
        self.at
    }

    pub fn put_bytes(&mut self, text: &[u8])
        requires { HasRoom self.old text.now }
        ensures { Wrote self.old self.new text.now }
    {
        let end = self.at + text.len();
        self.bytes[self.at..end].copy_from_slice(text);
        self.at = end;
    }

    pub fn put_number(&mut self, n: usize)
        requires { HasRoom self.old (decimal n) }
        ensures { Wrote self.old self.new (decimal n) }
    {
        let mut digits = itoa::Buffer::new();
        self.put_bytes(digits.format(n).as_bytes());
    }

    // A space and a number.
    fn put_spaced(&mut self, n: usize)
        requires { HasRoom self.old (spaced n) }
        ensures { Wrote self.old self.new (spaced n) }
    {
        self.put_bytes(b" ");
        self.put_number(n);
    }

    // The first n ids, or all.
    fn put_ids(&mut self, ids: &[u32], n: u32)
        requires { HasRoom self.old (flat_map spaced (take n ids.now)) }
        ensures { Wrote self.old self.new (flat_map spaced (take n ids.now)) }
    {
        for id in ids.iter().take(n as usize) {
            self.put_spaced(*id as usize);
        }
    }

    // A word and a number.
    fn put_one(&mut self, word: &[u8], n: usize)
        requires { HasRoom self.old (word.now ++ spaced n) }
        ensures { Wrote self.old self.new (word.now ++ spaced n) }
    {
        self.put_bytes(word);
        self.put_spaced(n);
    }

    // A word and two numbers.
    fn put_two(&mut self, word: &[u8], m: usize, n: usize)
        requires { HasRoom self.old (word.now ++ (spaced m ++ spaced n)) }
        ensures { Wrote self.old self.new (word.now ++ (spaced m ++ spaced n)) }
    {
        self.put_one(word, m);
        self.put_spaced(n);
    }

    // An answer, with the ids of the list that the call was lent.
    #[tactic(auto, unfolding(crate::specs::Printed::in_words))]
    fn put_answer(&mut self, answer: Answer, ids: &[u32])
        requires { HasRoom self.old (in_words (said answer) ids.now) }
        ensures { Wrote self.old self.new (in_words (said answer) ids.now) }
    {
        match answer {
            Answer::Accepted => self.put_bytes(b" ok"),
            Answer::At(label) => self.put_one(b" at", label as usize),
            Answer::Hired(guard) => self.put_one(b" guard", guard.0 as usize),
            Answer::NoneFound => self.put_bytes(b" none"),
            Answer::Fired => self.put_bytes(b" fired"),
            Answer::Posted => self.put_bytes(b" posted"),
            Answer::Back(n) => {
                self.put_bytes(b" back");
                self.put_ids(ids, n);
            }
            Answer::Yes => self.put_bytes(b" yes"),
            Answer::No => self.put_bytes(b" no"),
            Answer::Refused(refusal, place) => {
                self.put_two(b" refused", refusal.number() as usize, place)
            }
            Answer::Count(n) => self.put_one(b" count", n as usize),
            Answer::Clear => self.put_bytes(b" clear"),
            Answer::Fault(buffer, n) => self.put_two(b" fault", buffer.0 as usize, n as usize),
        }
    }
}

// The call's number, its answer, and a newline, from the buffer's start on. Answers how many bytes that is.
pub fn put_line(out: &mut [u8], number: usize, answer: Answer, ids: &[u32]) -> usize
    requires { length (line_for number (said answer) ids.now) ≤ length out.old }
    ensures value { result ≡ length (line_for number (said answer) ids.now) }
    ensures out_after { out.new ≡ write_at out.old 0 (line_for number (said answer) ids.now) }
{
    let mut page = Page::new(out);
    page.put_number(number);
    page.put_answer(answer, ids);
    page.put_bytes(b"\n");
    page.written()
}
