use rules::call::Call;
use std::fmt;

// A task of the drive, by the number of its thread.
#[derive(Clone, Copy)]
pub enum Task {
    // The keypad on the front, thread 1.
    Keypad,
    // The control loop, thread 2.
    ControlLoop,
    // The fieldbus, thread 3.
    Fieldbus,
    // A thread number that no task of this drive has, in calls that are refused.
    Unknown(u32),
}

// The task of a thread.
impl From<u32> for Task {
    fn from(thread: u32) -> Task {
        match thread {
            1 => Task::Keypad,
            2 => Task::ControlLoop,
            3 => Task::Fieldbus,
            _ => Task::Unknown(thread),
        }
    }
}

// The thread of a task.
impl From<Task> for u32 {
    fn from(task: Task) -> u32 {
        match task {
            Task::Keypad => 1,
            Task::ControlLoop => 2,
            Task::Fieldbus => 3,
            Task::Unknown(thread) => thread,
        }
    }
}

// Its name, as it stands in front of a line.
impl fmt::Display for Task {
    fn fmt<W: fmt::Write>(&self, f: &mut fmt::Formatter<W>) -> fmt::Result {
        match *self {
            Task::Keypad => write!(f, "keypad"),
            Task::ControlLoop => write!(f, "loop"),
            Task::Fieldbus => write!(f, "fieldbus"),
            Task::Unknown(thread) => write!(f, "thread {thread}"),
        }
    }
}

// The calls of a task.
impl Task {
    // It begins a transaction.
    pub(crate) fn begin(self) -> Call {
        Call::Begin {
            thread: self.into(),
        }
    }

    // Its transaction loads a word.
    pub(crate) fn load(self, word: Word) -> Call {
        Call::Load {
            thread: self.into(),
            address: word.into(),
        }
    }

    // Its transaction stores a value at a word.
    pub(crate) fn store(self, word: Word, value: u32) -> Call {
        Call::Store {
            thread: self.into(),
            address: word.into(),
            word: value,
        }
    }

    // Its transaction is sealed.
    pub(crate) fn seal(self) -> Call {
        Call::Seal {
            thread: self.into(),
        }
    }

    // Its next word is drained.
    pub(crate) fn drain(self) -> Call {
        Call::Drain {
            thread: self.into(),
        }
    }

    // It goes back from its transaction.
    pub(crate) fn back(self) -> Call {
        Call::Back {
            thread: self.into(),
        }
    }
}

// A word that the tasks share, by its address. It is no one type with Task: a word is no task, and each lists its own names.
#[derive(Clone, Copy)]
pub enum Word {
    // The ramp time in milliseconds, at address 0.
    Ramp,
    // The speed in turns per minute, at address 1.
    Speed,
    // The current limit in milliamperes, at address 2.
    CurrentLimit,
    // An address that this drive has no word at, in calls that are refused.
    Unknown(u32),
}

// The word at an address.
impl From<u32> for Word {
    fn from(address: u32) -> Word {
        match address {
            0 => Word::Ramp,
            1 => Word::Speed,
            2 => Word::CurrentLimit,
            _ => Word::Unknown(address),
        }
    }
}

// The address of a word.
impl From<Word> for u32 {
    fn from(word: Word) -> u32 {
        match word {
            Word::Ramp => 0,
            Word::Speed => 1,
            Word::CurrentLimit => 2,
            Word::Unknown(address) => address,
        }
    }
}

// Its name, as it stands in a call.
impl fmt::Display for Word {
    fn fmt<W: fmt::Write>(&self, f: &mut fmt::Formatter<W>) -> fmt::Result {
        match *self {
            Word::Ramp => write!(f, "ramp"),
            Word::Speed => write!(f, "speed"),
            Word::CurrentLimit => write!(f, "current limit"),
            Word::Unknown(address) => write!(f, "word {address}"),
        }
    }
}

// A value for each of the three words.
#[derive(Clone, Copy)]
pub struct Settings {
    pub ramp: u32,
    pub speed: u32,
    pub current_limit: u32,
}

impl Settings {
    // The words with their values, in the order of their addresses.
    pub(crate) fn words(self) -> [(Word, u32); WORDS] {
        [
            (Word::Ramp, self.ramp),
            (Word::Speed, self.speed),
            (Word::CurrentLimit, self.current_limit),
        ]
    }
}

// How many words there are.
pub const WORDS: usize = 3;

// The values that each section starts with.
pub const FACTORY: Settings = Settings {
    ramp: 3000,
    speed: 1200,
    current_limit: 80000,
};
