ghost use Rattle.std.specs.Prelude.{◌≡◌, ◌-◌, ◌<◌};
ghost use Rattle.common.specs.Threads.{thread_number, numbered};

use super::ThreadId;

impl ThreadId {
    // The thread of this number, if it is 1 to 8. It is no TryFrom: whoever asks says by an error of its own why there is
    // none, so this has none to give, as `NonZero::new` has none.
    pub fn new(number: u32) -> Option<ThreadId>
        ensures { numbered result ≡ thread_number number }
    {
        match number {
            1..=8 => Some(ThreadId { number }),
            _ => None,
        }
    }

    // Its number.
    pub fn number(self) -> u32
        ensures { result ≡ self.number }
    {
        self.number
    }

    // Its place in a table of all threads.
    pub fn index(self) -> usize
        ensures place { result ≡ self.number - 1 }
        ensures bound { result < 8 }
    {
        self.number as usize - 1
    }
}
