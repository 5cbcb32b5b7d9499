ghost use Rattle.std.specs.Prelude.{◌≡◌};
ghost use Rattle.common.specs.Numbers.{refusal_number};

// Why a call was refused. A refused call changes nothing.
#[derive(Clone, Copy, PartialEq, Eq, Debug)]
pub enum Refusal {
    // A set-up with no thread, or with more than 8.
    ThreadCount = 1,
    // A set-up whose stripe count is none of 1, 2, 4, 8, 16, 32, 64.
    StripeCount = 2,
    // A set-up with a shift above 8.
    Shift = 3,
    // A set-up with a clock limit of 0 or above 2,147,483,647.
    ClockLimit = 4,
    // Bits that are no lock word, or a version or an owner that no lock word holds.
    LockWord = 5,
    // Thread 0, or one above the thread count.
    NoSuchThread = 11,
    // The thread is in a state that the call is not for.
    WrongState = 12,
    // A load, a store or a seal of a transaction that was lost before.
    AlreadyLost = 13,
    // No transaction begins while the roll mark is on.
    RollPending = 14,
    // An address that is not below the store's size, or a stripe that is not below the stripe count.
    NoSuchPlace = 15,
    // The read log or the write log has no room for one more entry.
    LogFull = 16,
    // Another thread has sealed the stripe and has not drained it yet.
    StripeBusy = 17,
    // A roll while the roll mark is off.
    RollNotDue = 18,
    // A roll while a thread is not idle.
    ThreadsActive = 19,
    // A claim of a thread whose ticket was given out and not handed in.
    AlreadyClaimed = 31,
}

impl Refusal {
    // The number that the documents and the console give this refusal.
    pub fn number(self) -> u32
        ensures { result ≡ refusal_number self }
    {
        self as u32
    }
}
