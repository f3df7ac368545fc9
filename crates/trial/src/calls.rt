// The lines that make a call.
use pool::{Answer, BufferId, GuardNo, Outcome, Pool, WorkerNo};

#[derive(Clone, Copy, Debug, PartialEq, Eq)]
pub enum Call {
    Make(u32, u32, u32),
    Hire(WorkerNo),
    Fire(WorkerNo, GuardNo),
    Post(WorkerNo, GuardNo, BufferId),
    Give(WorkerNo),
    Take(BufferId),
    Ask(WorkerNo, BufferId),
    Advance(WorkerNo),
    Size(WorkerNo),
    Leaving,
    Audit,
    Sound,
}

impl Call {
    // The call that a line makes, if its word is that of a call and has as many numbers as that takes. The commonest comes first.
    pub fn of(word: &[u8], numbers: &[u32]) -> Option<Call> {
        match (word, numbers) {
            (b"advance", &[w]) => Some(Call::Advance(WorkerNo(w))),
            (b"make", &[w, g, b]) => Some(Call::Make(w, g, b)),
            (b"hire", &[w]) => Some(Call::Hire(WorkerNo(w))),
            (b"fire", &[w, guard]) => Some(Call::Fire(WorkerNo(w), GuardNo(guard))),
            (b"post", &[w, guard, id]) => {
                Some(Call::Post(WorkerNo(w), GuardNo(guard), BufferId(id)))
            }
            (b"give", &[w]) => Some(Call::Give(WorkerNo(w))),
            (b"take", &[id]) => Some(Call::Take(BufferId(id))),
            (b"ask", &[w, id]) => Some(Call::Ask(WorkerNo(w), BufferId(id))),
            (b"size", &[w]) => Some(Call::Size(WorkerNo(w))),
            (b"leaving", &[]) => Some(Call::Leaving),
            (b"audit", &[]) => Some(Call::Audit),
            (b"sound", &[]) => Some(Call::Sound),
            _ => None,
        }
    }

    // Makes the call, with the lent list.
    pub fn make(self, pool: Pool, list: &mut [u32]) -> Outcome {
        let answer = match self {
            Call::Make(w, g, b) => return Pool::make(w, g, b),
            Call::Hire(w) => return pool.hire(w),
            Call::Fire(w, guard) => return pool.fire(w, guard),
            Call::Post(w, guard, id) => return pool.post(w, guard, id),
            Call::Give(w) => return pool.give_up(w, list),
            Call::Take(id) => return pool.take(id),
            Call::Ask(w, id) => return pool.ask(w, id),
            Call::Advance(w) => return pool.advance(w, list),
            Call::Size(w) => pool.set_size(w),
            Call::Leaving => pool.leaving_count(),
            Call::Audit => pool.audit(),
            Call::Sound => pool
                .soundness()
                .map_or_else(|refused| refused.into(), |()| Answer::Clear),
        };
        Outcome { answer, pool }
    }
}
