use crate::names::{Task, Word};
use common::loss::Loss;
use common::refusal::Refusal;
use layout::lock_word::LockWord;
use rules::answer::Answer;
use rules::call::Call;
use rules::ending::{Ending, Sealed};
use std::fmt;

// What a call does, in words and numbers.
#[derive(Clone, Copy)]
pub struct Action(pub Call);

// As in `store speed = 1450`.
impl fmt::Display for Action {
    fn fmt<W: fmt::Write>(&self, f: &mut fmt::Formatter<W>) -> fmt::Result {
        match self.0 {
            Call::Begin { .. } => write!(f, "begin"),
            Call::Load { address, .. } => write!(f, "load {}", Word::from(address)),
            Call::Store { address, word, .. } => write!(
                f,
                "store {} = {word}",
                Word::from(address)
            ),
            Call::Seal { .. } => write!(f, "seal"),
            Call::Drain { .. } => write!(f, "drain"),
            Call::Back { .. } => write!(f, "back"),
            Call::Roll => write!(f, "roll"),
        }
    }
}

// The answer of a call, in words and numbers.
#[derive(Clone, Copy)]
pub struct Told(pub Answer);

// What stands at the end of a line.
impl fmt::Display for Told {
    fn fmt<W: fmt::Write>(&self, f: &mut fmt::Formatter<W>) -> fmt::Result {
        match self.0 {
            Answer::Done => write!(f, "ok"),
            Answer::Word(word) => write!(f, "{word}"),
            Answer::Sealed(Sealed::Reader { snapshot }) => write!(
                f,
                "read as of ticket {snapshot}"
            ),
            Answer::Sealed(Sealed::Updater { ticket }) => write!(f, "sealed with ticket {ticket}"),
            Answer::Left(left) => write!(f, "{left} left"),
            Answer::Back(Ending::GivenUp) => write!(
                f,
                "back {}: given up",
                Ending::GivenUp.cause()
            ),
            Answer::Back(Ending::Lost(loss)) => write!(f, "back {}", Cause(loss)),
            Answer::Refused(refusal) => write!(f, "refused {}", Reason(refusal)),
            Answer::Lost(loss) => write!(f, "lost {}", Cause(loss)),
        }
    }
}

// The number of a refusal and what it means.
#[derive(Clone, Copy)]
struct Reason(Refusal);

// As in `17: busy`.
impl fmt::Display for Reason {
    fn fmt<W: fmt::Write>(&self, f: &mut fmt::Formatter<W>) -> fmt::Result {
        let number = self.0.number();
        let meaning = meaning(self.0);
        write!(f, "{number}: {meaning}")
    }
}

// What a refusal means.
fn meaning(refusal: Refusal) -> &'static str {
    match refusal {
        Refusal::ThreadCount => "there are 1 to 8 threads",
        Refusal::StripeCount => "there are 1, 2, 4, 8, 16, 32 or 64 stripes",
        Refusal::Shift => "a shift is 0 to 8",
        Refusal::ClockLimit => "a clock limit is 1 to 2147483647",
        Refusal::LockWord => "no lock word has these bits",
        Refusal::NoSuchThread => "no such thread",
        Refusal::WrongState => "the thread is in a state that the call is not for",
        Refusal::AlreadyLost => "the transaction is lost, go back",
        Refusal::RollPending => "the clock has to roll first",
        Refusal::NoSuchPlace => "no such address or stripe",
        Refusal::LogFull => "the log has no room left",
        Refusal::StripeBusy => "busy, another thread has sealed and still drains",
        Refusal::RollNotDue => "the clock is not spent",
        Refusal::ThreadsActive => "a thread is not idle",
        Refusal::AlreadyClaimed => "the thread's ticket is given out",
    }
}

// The number of a loss and how it came.
#[derive(Clone, Copy)]
struct Cause(Loss);

// As in `21: the keypad (thread 1) stays ahead`.
impl fmt::Display for Cause {
    fn fmt<W: fmt::Write>(&self, f: &mut fmt::Formatter<W>) -> fmt::Result {
        let cause = self.0.cause();
        match self.0 {
            Loss::Beaten { holder } => write!(f, "{cause}: {} stays ahead", Named(holder)),
            Loss::Invalid { stripe } => write!(f, "{cause}: stripe {stripe} is not as it was read"),
            Loss::ClockSpent => write!(f, "{cause}: the clock is at its limit"),
            Loss::Stolen { thief } => write!(f, "{cause}: {} won the stripe", Named(thief)),
        }
    }
}

// A thread, with the name of its task.
#[derive(Clone, Copy)]
struct Named(u32);

// As in `the keypad (thread 1)`.
impl fmt::Display for Named {
    fn fmt<W: fmt::Write>(&self, f: &mut fmt::Formatter<W>) -> fmt::Result {
        let thread = self.0;
        match Task::from(thread) {
            Task::Unknown(_) => write!(f, "thread {thread}"),
            task => write!(f, "the {task} (thread {thread})"),
        }
    }
}

// What a lock word says, in words and numbers.
#[derive(Clone, Copy)]
pub struct Lock(pub LockWord);

// As in `version 1, no owner`.
impl fmt::Display for Lock {
    fn fmt<W: fmt::Write>(&self, f: &mut fmt::Formatter<W>) -> fmt::Result {
        let LockWord { version, owner } = self.0;
        match owner {
            0 => write!(f, "version {version}, no owner"),
            _ => write!(f, "version {version}, owner {}", Named(owner)),
        }
    }
}
