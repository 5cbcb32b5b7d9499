ghost use Rattle.std.specs.Prelude.{◌≡◌, ◌<◌};

use super::StripeId;

impl StripeId {
    // Its number.
    pub fn number(self) -> u32
        ensures { result ≡ self.number }
    {
        self.number
    }

    // Its place in a table of all stripes.
    pub fn index(self) -> usize
        ensures place { result ≡ self.number }
        ensures bound { result < 64 }
    {
        self.number as usize
    }
}
