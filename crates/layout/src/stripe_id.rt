ghost use Rattle.std.specs.Prelude.{◌<◌};

mod number;
mod picks;

// The number of a stripe: 0 to 63.
// Beside `ThreadId` and not one generic type with it: a thread counts from 1 and is made of its number alone, a stripe counts
// from 0 and only a set-up makes one.
#[derive(Clone, Copy, PartialEq, Eq, PartialOrd, Ord, Debug)]
pub struct StripeId {
    number: u32,
    ghost high: { number < 64 },
}
