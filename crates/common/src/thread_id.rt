ghost use Rattle.std.specs.Prelude.{◌≤◌};

mod number;

// The number of a thread: 1 to 8.
#[derive(Clone, Copy, PartialEq, Eq, PartialOrd, Ord, Debug)]
pub struct ThreadId {
    number: u32,
    ghost low: { 1 ≤ number },
    ghost high: { number ≤ 8 },
}
