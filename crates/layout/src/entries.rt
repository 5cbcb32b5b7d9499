use crate::keyed::Keyed;
use crate::stripe_id::StripeId;

// A stripe that a transaction has read, and the version that it saw there.
#[derive(Clone, Copy, PartialEq, Eq, Debug)]
pub struct ReadEntry {
    pub stripe: StripeId,
    pub version: u32,
}

// A word that a transaction is to write, and where.
#[derive(Clone, Copy, PartialEq, Eq, Debug)]
pub struct WriteEntry {
    pub address: u32,
    pub word: u32,
}

impl Keyed for ReadEntry {
    ghost key = { λ e. e.stripe.number };

    fn key(&self) -> u32 {
        self.stripe.number()
    }
}

impl Keyed for WriteEntry {
    ghost key = { λ e. e.address };

    fn key(&self) -> u32 {
        self.address
    }
}
