// A call as a value: which call it is, and what it is given. The thread is written in six variants and not beside the
// enum, since a roll has none.
#[derive(Clone, Copy, PartialEq, Eq, Debug)]
pub enum Call {
    // A transaction of this thread begins.
    Begin {
        thread: u32,
    },
    // The thread's transaction loads the word at an address.
    Load {
        thread: u32,
        address: u32,
    },
    // The thread's transaction stores a word at an address.
    Store {
        thread: u32,
        address: u32,
        word: u32,
    },
    // The thread's transaction is sealed.
    Seal {
        thread: u32,
    },
    // The next word of the thread's sealed transaction goes to the store.
    Drain {
        thread: u32,
    },
    // The thread leaves its transaction.
    Back {
        thread: u32,
    },
    // The clock starts anew.
    Roll,
}
