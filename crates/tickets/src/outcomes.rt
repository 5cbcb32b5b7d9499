use crate::ticket::{IdleTicket, OpenTicket, SealedTicket};
use rules::ending::Ending;

// A call that did not go through: why, and the ticket that is in hand after it.
// Its own type and no pair, since callers name the two parts.
#[derive(Drop)]
pub struct Kept<T, E> {
    pub ticket: T,
    pub reason: E,
}

// A seal that went through. No `Result` and no `Option`: both ways are good ones, and each has a number of its own.
pub enum Sealing {
    // The transaction stored nothing: it read the words of this moment, and its thread is idle again.
    Reader { ticket: IdleTicket, snapshot: u32 },
    // The transaction has this number among the updaters, and its words are to be drained.
    Updater { ticket: SealedTicket, number: u32 },
}

// A drain that went through. No `Option`, since there is a ticket both ways, of another kind.
pub enum Drained {
    // So many words are left to drain.
    More { ticket: SealedTicket, left: u32 },
    // All words are in the store, and the thread is idle again.
    All(IdleTicket),
}

// A transaction that its thread went back from, and how it ended.
#[derive(Drop)]
pub struct Ended {
    pub ticket: IdleTicket,
    pub ending: Ending,
}
