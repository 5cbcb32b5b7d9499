ghost use Rattle.std.specs.Prelude.{◌≡◌, ◌≤◌};
ghost use Rattle.layout.specs.Limits.{stripe_count};
ghost use Rattle.layout.specs.SetUps.{numbers_of, set_up_or_refusal, thread_numbered, thread_or_refusal};

use super::SetUp;
use common::refusal::Refusal;
use common::thread_id::ThreadId;

impl SetUp {
    // The set-up of these numbers, or the first of them that is out of its limits. They are four parameters and no struct:
    // a set-up is the struct of them, once they are within their limits.
    pub fn new(threads: u32, stripes: u32, shift: u32, limit: u32) -> Result<SetUp, Refusal>
        ensures { numbers_of result ≡ set_up_or_refusal threads stripes shift limit }
    {
        if !(1..=8).contains(&threads) {
            return Err(Refusal::ThreadCount);
        }
        if !is_stripe_count(stripes) {
            return Err(Refusal::StripeCount);
        }
        if shift > 8 {
            return Err(Refusal::Shift);
        }
        if !(1..=0x7fff_ffff).contains(&limit) {
            return Err(Refusal::ClockLimit);
        }
        Ok(SetUp {
            threads,
            stripes,
            shift,
            limit,
        })
    }

    // How many threads there are: 1 to 8.
    pub fn threads(self) -> u32
        ensures { result ≡ self.threads }
    {
        self.threads
    }

    // How many stripes there are: a power of two, 64 at most.
    pub fn stripes(self) -> u32
        ensures count { result ≡ self.stripes }
        ensures bound { result ≤ 64 }
    {
        self.stripes
    }

    // How many low bits of an address do not pick its stripe: 0 to 8.
    pub fn shift(self) -> u32
        ensures { result ≡ self.shift }
    {
        self.shift
    }

    // How far the clock goes before it must roll: 1 to 2,147,483,647.
    pub fn limit(self) -> u32
        ensures { result ≡ self.limit }
    {
        self.limit
    }

    // The thread of this number, if the set-up has it.
    pub fn thread(self, number: u32) -> Result<ThreadId, Refusal>
        ensures { thread_numbered result ≡ thread_or_refusal self number }
    {
        match ThreadId::new(number) {
            Some(thread) if number <= self.threads => Ok(thread),
            _ => Err(Refusal::NoSuchThread),
        }
    }
}

// Whether an engine may have this many stripes.
fn is_stripe_count(stripes: u32) -> bool
    ensures { result ≡ stripe_count stripes }
{
    matches!(stripes, 1 | 2 | 4 | 8 | 16 | 32 | 64)
}
