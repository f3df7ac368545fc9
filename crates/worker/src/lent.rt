// One worker's registers, lent alone and advanced where they stand.
ghost use Rattle.std.specs.Prelude.{◌≡◌, is_some, unwrap_or};
ghost use Rattle.worker.specs.Steps.{step_of};

use super::{Slot, Worker};

// The answer says whether the step applied. Where it did not, as at any label but the seven, nothing changes behind the reference.
pub fn advance_lent(x: &mut Worker, maxg: u32, posted: u32, member: bool, slot: Slot) -> bool
    ensures { (x.new ≡ unwrap_or (step_of x.old maxg posted member slot) x.old) × (result ≡ is_some (step_of x.old maxg posted member slot)) }
{
    let step = x.step(maxg, posted, member, slot);
    if let Some(moved) = step {
        *x = moved;
    }
    step.is_some()
}
