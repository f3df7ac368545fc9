// What label 32 does with a worker's set: whether its buffers are all leaving, their states, and the lent list.
ghost use Rattle.std.specs.Prelude.{◌≡◌, not, ◌||◌, suc, ◌≤◌, eqb, length, get_or};
ghost use Rattle.basics.specs.Pick.{when};
ghost use Rattle.basics.specs.Below.{all_below, table};
ghost use Rattle.idset.specs.Members.{member_of, size_of};
ghost use Rattle.pool.specs.Steps.{handed};

use idset::{IdSet, Marks};

// Whether every member is leaving. A walk over a set holds one word at a time, and goes from mark to mark in it.
pub(crate) fn all_leaving(s: IdSet, states: &[u8; 256]) -> bool
    ensures { result ≡ all_below 256 (λ j. not (member_of s (suc j)) || eqb (get_or states.now j 0) 2) }
{
    let mut ok = true;
    for (i, word) in s.words.iter().enumerate() {
        for mark in Marks::of(*word) {
            ok &= states[64 * i + mark as usize] == 2;
        }
    }
    ok
}

// The members become free, and go into the list, ascending from its start; the rest keeps its contents. No contract knows the length of
// an array behind a reference, so this one goes by the entries that there are.
pub(crate) fn hand(s: IdSet, states: &mut [u8; 256], out: &mut [u32])
    requires { size_of s ≤ length out.old }
    ensures freed { states.new ≡ table (length states.old) (λ j. when (member_of s (suc j)) 0 (get_or states.old j 0)) }
    ensures list { out.new ≡ handed s out.old }
{
    let mut n = 0;
    for (i, word) in s.words.iter().enumerate() {
        for mark in Marks::of(*word) {
            let k = 64 * i + mark as usize;
            states[k] = 0;
            out[n] = (k + 1) as u32;
            n += 1;
        }
    }
}
