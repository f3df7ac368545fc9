// Whether a record is sound. Only a record that is not is searched for the rule that it breaks.
ghost use Rattle.std.specs.Prelude.{◌≡◌, ◌≤◌, ◌&&◌, ltb};
ghost use Rattle.basics.specs.Below.{all_below};
ghost use Rattle.pool.specs.Answers.{verdict};
ghost use Rattle.pool.specs.Sound.{in_range, zero_worker, is_label, registers_in, sound_check, sound_of};
ghost use Rattle.pool.specs.ForProofs.Scans.{worker_fits, most, zero_from, set_within};

use crate::every::every;
use crate::{Pool, Refused};
use idset::IdSet;
use worker::Worker;

// Bit l is set exactly for a label l.
const LABELS: u64 = 0x1_9244_b7f5;

pub(crate) fn is_label(l: u32) -> bool
    ensures { result ≡ is_label l }
{
    (l < 64) & ((LABELS >> (l % 64)) % 2 == 1)
}

pub(crate) fn in_range(w: u32, g: u32, b: u32) -> bool
    ensures { result ≡ in_range w g b }
{
    (1 <= w) & (w <= 8) & (1 <= g) & (g <= 32) & (1 <= b) & (b <= 256)
}

pub(crate) fn counts_sound(w: u32, g: u32, b: u32, maxg: u32) -> bool
    ensures { result ≡ (in_range w g b && ltb maxg g) }
{
    in_range(w, g, b) & (maxg < g)
}

// Idle, its registers 0.
pub(crate) fn zero_worker(x: Worker) -> bool
    ensures { result ≡ zero_worker x }
{
    x == Worker::idle()
}

pub(crate) fn registers_in(x: Worker, g: u32) -> bool
    ensures { result ≡ registers_in g x }
{
    let l = x.label;
    ((x.i < g) | (((l == 12) | (l == 32)) & (x.i == g)))
        & (x.max < g)
        & (x.attempts <= 3)
        & ((x.attempts <= 2) | !((l == 15) | (l == 18) | (l == 22) | (l == 25)))
}

// A worker without its set, used or not.
fn worker_fits(x: Worker, g: u32, b: u32) -> bool
    ensures { result ≡ worker_fits g b x }
{
    is_label(x.label) & ((x.v <= b) & (x.h.id <= b)) & registers_in(x, g)
}

// Every number is at most the limit, and 0 from the count on.
fn numbers_fit(numbers: &[u32; 32], limit: u32, count: usize) -> bool
    requires { count ≤ 32 }
    ensures { result ≡ (all_below 32 (most numbers.now limit) && all_below 32 (zero_from numbers.now count)) }
{
    every(numbers, |n| n <= limit) & every(&numbers[count..], |n| n == 0)
}

// Every set is within the limit: one test, of the larger words of them all. The sets go in by value, since of an array behind a reference no
// contract knows that a word has 64 digits.
fn sets_within(sets: [IdSet; 8], limit: u32) -> bool
    ensures { result ≡ all_below 8 (set_within sets limit) }
{
    let mut tops = IdSet::empty();
    for set in sets {
        tops = tops.larger(set);
    }
    tops.within(limit)
}

impl Pool {
    // For any record whatever: nothing, or the first rule that it breaks and the place.
    pub fn soundness(self) -> Result<(), Refused>
        ensures { verdict result ≡ sound_check self }
    {
        self.sound_check()
    }

    pub(crate) fn sound_check(&self) -> Result<(), Refused>
        ensures { verdict result ≡ sound_check self.now }
    {
        if self.is_sound() {
            return Ok(());
        }
        self.broken_rule()
    }

    // The arrays are asked one by one: every entry for its limit, and those from the count on for 0.
    fn is_sound(&self) -> bool
        ensures { result ≡ sound_of self.now }
    {
        if !counts_sound(self.w, self.g, self.b, self.maxg) {
            return false;
        }
        let (w, g, b) = (self.w, self.g, self.b);
        let (workers, guards, buffers) = (w as usize, g as usize, b as usize);
        let taken = every(&self.taken[guards..], |taken| !taken);
        let employers = numbers_fit(&self.employer, w, guards);
        let posts = numbers_fit(&self.posted, b, guards);
        let ids = numbers_fit(&self.slot_id, b, guards);
        let versions = every(&self.slot_version[guards..], |version| version == 0);
        let known = every(&self.states, |state| state <= 2);
        let free = every(&self.states[buffers..], |state| state == 0);
        let registers = every(&self.workers, |x| worker_fits(x, g, b));
        let idle = every(&self.workers[workers..], zero_worker);
        let members = sets_within(self.sets, b);
        let empty = every(&self.sets[workers..], |set| set.within(0));
        taken
            & employers
            & posts
            & ids
            & versions
            & (known & free)
            & (registers & idle)
            & (members & empty)
    }
}
