// A give-up list, walked twice: one walk judges the entries and marks their ids, the other makes their buffers leaving.
ghost use Rattle.std.specs.Prelude.{◌≡◌, ◌&&◌, suc, ◌≤◌, eqb, length, get_or, IfOk};
ghost use Rattle.basics.specs.Pick.{when};
ghost use Rattle.basics.specs.Below.{table};
ghost use Rattle.basics.specs.Among.{among};
ghost use Rattle.idset.specs.Members.{is_id, set_of};
ghost use Rattle.pool.specs.Answers.{verdict};
ghost use Rattle.pool.specs.Checks.{list_check};

use crate::{Pool, Refusal, Refused};
use idset::{IdSet, mark};

impl Pool {
    // 9, 10, 11: the first entry at fault decides. Where none is, the list's ids as a set.
    pub(crate) fn list_check(&self, ids: &[u32]) -> Result<IdSet, Refused>
        requires { self.now.b ≤ 256 }
        ensures check { verdict result ≡ list_check self.now ids.now (length ids.now) }
        ensures met { IfOk result (λ met. met ≡ set_of (among ids.now)) }
    {
        let mut met = IdSet::empty();
        for (place, id) in ids.iter().enumerate() {
            let k = self.id_check(*id, place)?;
            if mark(&mut met.words, *id) {
                return Err(Refusal::BufferRepeated.at(place));
            }
            if self.states[k.at] != 1 {
                return Err(Refusal::BufferInWrongState.at(place));
            }
        }
        Ok(met)
    }
}

// Buffer id is leaving from now on; one that is none changes nothing.
fn left(states: &mut [u8; 256], id: u32)
    ensures { states.new ≡ table (length states.old) (λ k. when (is_id (suc k) && eqb id (suc k)) 2 (get_or states.old k 0)) }
{
    if let 1..=256 = id {
        states[(id - 1) as usize] = 2;
    }
}

// The list's buffers are leaving from now on.
pub(crate) fn leaving(states: &mut [u8; 256], ids: &[u32])
    ensures { states.new ≡ table (length states.old) (λ k. when (is_id (suc k) && among ids.now (suc k)) 2 (get_or states.old k 0)) }
{
    for id in ids {
        left(states, *id);
    }
}
