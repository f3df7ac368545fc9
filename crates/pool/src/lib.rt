// The pool engine. One record goes into each call by value and comes back beside the answer, so whoever holds a pool decides which
// call comes next. Every call takes any record and any arguments; what is wrong with them is answered by a refusal, and then nothing
// has changed.
#![tactic(auto, using(basics::proofs::Picks::picks))]

mod advance;
mod answers;
mod begins;
mod broken;
mod checks;
mod entry;
mod every;
mod handback;
mod lines;
mod lists;
mod make;
mod questions;
mod search;
mod sound;

use idset::IdSet;
use worker::Worker;

// What callers name. Three structs, so that none is taken for another.
#[derive(Clone, Copy, Debug, PartialEq, Eq)]
pub struct WorkerNo(pub u32);

#[derive(Clone, Copy, Debug, PartialEq, Eq)]
pub struct GuardNo(pub u32);

#[derive(Clone, Copy, Debug, PartialEq, Eq)]
pub struct BufferId(pub u32);

// Guard i is entry i of its arrays, buffer id is entry id - 1 of the states, and worker no is entry no - 1 of the workers and of the sets.
// Kept: labels, states, employers and ids (0 for none) are plain numbers, since every call takes any record (Demand1, Demand2) and a damaged one can be written down.
// Kept: an array for each field of a guard, and the sets beside the workers, since each scan reads one array as vector code.
#[derive(Clone, Copy, Debug, PartialEq, Eq)]
pub struct Pool {
    pub w: u32,
    pub g: u32,
    pub b: u32,
    pub maxg: u32,
    pub taken: [bool; 32],
    pub employer: [u32; 32],
    pub posted: [u32; 32],
    pub slot_id: [u32; 32],
    pub slot_version: [u32; 32],
    pub states: [u8; 256],
    pub workers: [Worker; 8],
    pub sets: [IdSet; 8],
}

#[derive(Clone, Copy, Debug, PartialEq, Eq)]
pub enum Refusal {
    SizesOutOfRange,
    // The rules of soundness, in the paper's order: W, G, B and MAXG; entries beyond the counts; employers, states and labels; ids; registers.
    CountsOutOfRange,
    EntryBeyondCounts,
    KindUnknown,
    IdOutOfRange,
    RegisterOutOfRange,
    NoSuchWorker,
    WorkerNotIdle,
    WorkerIdle,
    NoSuchGuard,
    GuardNotEmployed,
    GuardPosted,
    NoSuchBuffer,
    BufferRepeated,
    BufferInWrongState,
    VersionsUsedUp,
    ListTooShort,
    MemberNotLeaving,
}

#[derive(Clone, Copy, Debug, PartialEq, Eq)]
pub enum Answer {
    Accepted,
    Yes,
    No,
    // A label that the worker now stands at.
    At(u32),
    Hired(GuardNo),
    NoneFound,
    Fired,
    Posted,
    // How many ids were handed back.
    Back(u32),
    Count(u32),
    Clear,
    // The lowest buffer at fault, with its number of places.
    Fault(BufferId, u32),
    // With a place: of a broken rule the guard, buffer or worker at fault, of an entry of a give-up list its index, and otherwise 0.
    Refused(Refusal, usize),
}

#[derive(Clone, Copy, Debug, PartialEq, Eq)]
pub struct Outcome {
    pub answer: Answer,
    pub pool: Pool,
}

// Why a call is refused, or a record is not sound, with the place.
#[derive(Clone, Copy, Debug, PartialEq, Eq)]
pub struct Refused {
    pub refusal: Refusal,
    pub place: usize,
}
