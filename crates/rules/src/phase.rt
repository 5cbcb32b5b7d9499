use common::loss::Loss;

// What a thread is doing.
#[derive(Clone, Copy, PartialEq, Eq, Debug)]
pub enum Phase {
    // It has no transaction.
    Idle,
    // Its transaction may load and store.
    Running,
    // Its transaction has its ticket, and this many words of its write log are in the store.
    Sealed { ticket: u32, drained: u32 },
    // Its transaction was lost, and it has not gone back yet.
    Lost(Loss),
}
