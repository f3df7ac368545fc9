// One worker's registers, and its advance at the labels that store to nothing but them.
#![tactic(auto, using(basics::proofs::Picks::picks))]

pub mod lent;
mod step;

ghost use Rattle.std.specs.Prelude.{◌≡◌};
ghost use Rattle.worker.specs.Registers.{no_worker};

// A hand-off slot's contents.
#[derive(Clone, Copy, Debug, PartialEq, Eq)]
pub struct Slot {
    pub id: u32,
    pub version: u32,
}

// A worker's label and registers.
// Kept: plain numbers, 0 for no id, since every call takes any record (Demand1, Demand2) and a damaged one can be written down.
#[derive(Clone, Copy, Debug, PartialEq, Eq)]
pub struct Worker {
    pub label: u32,
    pub i: u32,
    pub v: u32,
    pub h: Slot,
    pub attempts: u32,
    pub max: u32,
}

impl Worker {
    // The label idle, and every register 0.
    pub fn idle() -> Worker
        ensures { result ≡ no_worker }
    {
        Worker {
            label: 0,
            i: 0,
            v: 0,
            h: Slot { id: 0, version: 0 },
            attempts: 0,
            max: 0,
        }
    }
}
