// The advance of a worker's registers, a method for each label.
// What else they read comes in: MAXG, the posted id and the slot of guard i, and whether that id is in the worker's set.
// Kept: as plain values and no struct, in which `advance_lent` and the theorem `Lent` would have to name each of them once more.
ghost use Rattle.std.specs.Prelude.{◌≡◌, ◌<◌};
ghost use Rattle.worker.specs.Registers.{largest};
ghost use Rattle.worker.specs.Steps.{at4, at12, at13, at15, at22, at25, at31, step_of};

use super::{Slot, Worker};

impl Worker {
    // One advance: nothing at any other label, and where a count could not go up.
    // Kept: a `match` on a number, since any number can stand in a record that is handed in (Demand1), and the paper's table goes by it.
    #[tactic(auto, using(crate::proofs::Laws::steps))]
    pub fn step(self, maxg: u32, posted: u32, member: bool, slot: Slot) -> Option<Worker>
        ensures { result ≡ step_of self maxg posted member slot }
    {
        match self.label {
            4 => Some(self.at4(maxg)),
            12 => Some(self.at12(maxg)),
            13 => Some(self.at13(slot)),
            15 => Some(self.at15(posted, member)),
            22 if self.attempts < u32::MAX => Some(self.at22(slot)),
            25 => Some(self.at25(posted)),
            31 if self.i < u32::MAX => Some(self.at31()),
            _ => None,
        }
    }

    fn at4(self, maxg: u32) -> Worker
        ensures { result ≡ at4 self maxg }
    {
        Worker {
            max: maxg,
            label: if maxg < self.i { 5 } else { 6 },
            ..self
        }
    }

    fn at12(self, maxg: u32) -> Worker
        ensures { result ≡ at12 self maxg }
    {
        Worker {
            label: if self.i <= maxg { 13 } else { 32 },
            ..self
        }
    }

    fn at13(self, slot: Slot) -> Worker
        ensures { result ≡ at13 self slot }
    {
        Worker {
            attempts: 0,
            h: slot,
            label: 15,
            ..self
        }
    }

    fn at15(self, posted: u32, member: bool) -> Worker
        ensures { result ≡ at15 self posted member }
    {
        Worker {
            v: posted,
            label: if (posted != 0) & member { 18 } else { 28 },
            ..self
        }
    }

    #[tactic(auto, using(basics::proofs::Picks::picks), unfolding(crate::specs::Steps::at22))]
    fn at22(self, slot: Slot) -> Worker
        requires { self.attempts < largest }
        ensures { result ≡ at22 self slot }
    {
        let attempts = self.attempts + 1;
        if attempts == 3 {
            Worker {
                attempts,
                label: 31,
                ..self
            }
        } else {
            Worker {
                attempts,
                h: slot,
                label: 25,
                ..self
            }
        }
    }

    fn at25(self, posted: u32) -> Worker
        ensures { result ≡ at25 self posted }
    {
        let filled = (self.attempts == 2) & (self.h.id != 0);
        Worker {
            label: if filled | (self.v != posted) { 31 } else { 18 },
            ..self
        }
    }

    fn at31(self) -> Worker
        requires { self.i < largest }
        ensures { result ≡ at31 self }
    {
        Worker {
            i: self.i + 1,
            label: 12,
            ..self
        }
    }
}
