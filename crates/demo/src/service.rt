use crate::answers::{Lock, Told};
use crate::drive::Drive;
use crate::names::Word;
use crate::page::{self, SERVICE};
use common::refusal::Refusal;
use layout::lock_word::LockWord;
use layout::set_up::SetUp;
use rules::answer::Answer;
use std::io;

impl<'a, S, P> Drive<'a, S, P> {
    // Shows the lock word of a stripe, and takes it apart.
    pub fn peek(&mut self, stripe: u32) -> io::Result<()> {
        let action = format!(in self.rt.alloc(); "peek stripe {stripe}")?;
        match self.memory.peek(stripe) {
            Ok(bits) => {
                page::line(self.rt, SERVICE, action, bits)?;
                take_apart(self.rt, bits)
            }
            Err(refusal) => page::line(self.rt, SERVICE, action, Told(Answer::Refused(refusal))),
        }
    }

    // Shows the lock word of the stripe that guards a word.
    pub fn peek_at(&mut self, word: Word) -> io::Result<()> {
        let stripe = self.set_up.stripe_of(word.into());
        self.peek(stripe.number())
    }
}

// Takes bits apart as a lock word, and shows what they say.
pub fn take_apart(rt: &HostRuntime, bits: u64) -> io::Result<()> {
    let action = format!(in rt.alloc(); "unpack {bits}")?;
    match LockWord::try_from(bits) {
        Ok(word) => page::line(rt, SERVICE, action, Lock(word)),
        Err(refusal) => page::line(rt, SERVICE, action, Told(Answer::Refused(refusal))),
    }
}

// Shows whether a set-up is taken.
pub fn try_set_up(rt: &HostRuntime, action: &str, made: Result<SetUp, Refusal>) -> io::Result<()> {
    let answer = made.map_or_else(Answer::Refused, |_| Answer::Done);
    page::line(rt, SERVICE, action, Told(answer))
}
