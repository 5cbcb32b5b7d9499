ghost use Rattle.std.specs.Prelude.{◌≡◌};

use common::thread_id::ThreadId;

// The ticket of a thread without a transaction: it begins one, or is handed in.
// It may be let go; its thread then stays claimed.
pub type IdleTicket = Ticket<Idle>;

// The ticket of a thread with a transaction: it loads and stores, and then seals or goes back.
// It may be let go; its transaction then stays as it is, until a numbered call ends it.
pub type OpenTicket = Ticket<Open>;

// The ticket of a thread whose words are to be drained: it drains until none is left, and may not be let go.
pub type SealedTicket = Ticket<Sealed>;

// The ticket of a thread, with the state of its transaction. A claim makes the first one of a thread, and every other is
// made of the one that a call is given.
#[derive(Drop)]
pub struct Ticket<State> {
    thread: ThreadId,
    state: State,
}

// No transaction.
#[derive(Drop)]
pub struct Idle;

// A transaction that may load and store.
#[derive(Drop)]
pub struct Open;

// The transaction that is the updater of this number, with words to drain.
pub struct Sealed {
    pub(crate) number: u32,
}

// Only the updater of number 0 may be let go, and there is none: a seal puts in the number that it answers, and these start
// at 1. So a program that forgets a sealed ticket does not build.
impl Drop for Sealed {
    fn drop(self)
        requires { self.number ≡ 0 }
    {
        let Sealed { number: _ } = self;
    }
}

impl Sealed {
    // Takes the state of a transaction that has nothing to drain any more.
    fn settle(self) {
        let Sealed { number: _ } = self;
    }
}

impl<State> Ticket<State> {
    // The thread that it is for.
    pub(crate) fn thread(&self) -> ThreadId
        ensures { result ≡ self.now.thread }
    {
        self.thread
    }
}

impl IdleTicket {
    // The first ticket of a thread, for a claim.
    pub(crate) fn new(thread: ThreadId) -> IdleTicket
        ensures { result.thread ≡ thread }
    {
        Ticket {
            thread,
            state: Idle,
        }
    }
}

impl<State: Drop> Ticket<State> {
    // The same thread's ticket, once a call has brought its transaction into the next state.
    pub(crate) fn into_state<Next>(self, state: Next) -> Ticket<Next>
        ensures thread { result.thread ≡ self.thread }
        ensures state { result.state ≡ state }
    {
        let Ticket { thread, state: _ } = self;
        Ticket { thread, state }
    }
}

impl SealedTicket {
    // The same thread's ticket, once nothing is to be drained any more. Only a drain may take a sealed ticket so.
    pub(crate) fn into_idle(self) -> IdleTicket
        ensures { result.thread ≡ self.thread }
    {
        let Ticket { thread, state } = self;
        state.settle();
        IdleTicket::new(thread)
    }
}
