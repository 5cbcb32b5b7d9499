ghost use Rattle.std.specs.Prelude.{◌≡◌};
ghost use Rattle.rules.specs.declared.answer.Answer.TheVariants.{Refused};
ghost use Rattle.rules.specs.Answers.{begin_answer, load_answer, store_answer, seal_answer, drain_answer, back_answer, stop_answer};

use crate::ending::{Ending, Sealed};
use crate::stop::Stop;
use common::loss::Loss;
use common::refusal::Refusal;

// What a call answers, whichever call it is.
#[derive(Clone, Copy, PartialEq, Eq, Debug)]
pub enum Answer {
    // A begin or a store went through.
    Done,
    // A load's word.
    Word(u32),
    // A seal went through.
    Sealed(Sealed),
    // A drain wrote a word, and this many are left.
    Left(u32),
    // A back ended a transaction.
    Back(Ending),
    // The call was refused, and nothing changed.
    Refused(Refusal),
    // The call lost the transaction.
    Lost(Loss),
}

// Why a call was refused.
impl From<Refusal> for Answer {
    ghost from_gives = { λ e r. r ≡ Refused e };

    fn from(refusal: Refusal) -> Answer {
        Answer::Refused(refusal)
    }
}

// Why a load, a store or a seal did not go through.
impl From<Stop> for Answer {
    ghost from_gives = { λ s r. r ≡ stop_answer s };

    fn from(stop: Stop) -> Answer {
        match stop {
            Stop::Refused(refusal) => Answer::from(refusal),
            Stop::Lost(loss) => Answer::Lost(loss),
        }
    }
}

// The answers of the calls go by six types. Each has an impl of its own, since what a word, a count or nothing
// becomes depends on both sides of its type, and since each gives the answer of its own rule.

// What a begin or a roll returned.
impl From<Result<(), Refusal>> for Answer {
    ghost from_gives = { λ a r. r ≡ begin_answer a };

    fn from(answer: Result<(), Refusal>) -> Answer {
        answer.map_or_else(Answer::from, |()| Answer::Done)
    }
}

// What a load returned.
impl From<Result<u32, Stop>> for Answer {
    ghost from_gives = { λ a r. r ≡ load_answer a };

    fn from(answer: Result<u32, Stop>) -> Answer {
        answer.map_or_else(Answer::from, Answer::Word)
    }
}

// What a store returned.
impl From<Result<(), Stop>> for Answer {
    ghost from_gives = { λ a r. r ≡ store_answer a };

    fn from(answer: Result<(), Stop>) -> Answer {
        answer.map_or_else(Answer::from, |()| Answer::Done)
    }
}

// What a seal returned.
impl From<Result<Sealed, Stop>> for Answer {
    ghost from_gives = { λ a r. r ≡ seal_answer a };

    fn from(answer: Result<Sealed, Stop>) -> Answer {
        answer.map_or_else(Answer::from, Answer::Sealed)
    }
}

// What a drain returned.
impl From<Result<u32, Refusal>> for Answer {
    ghost from_gives = { λ a r. r ≡ drain_answer a };

    fn from(answer: Result<u32, Refusal>) -> Answer {
        answer.map_or_else(Answer::from, Answer::Left)
    }
}

// What a back returned.
impl From<Result<Ending, Refusal>> for Answer {
    ghost from_gives = { λ a r. r ≡ back_answer a };

    fn from(answer: Result<Ending, Refusal>) -> Answer {
        answer.map_or_else(Answer::from, Answer::Back)
    }
}
