ghost use Rattle.std.specs.Prelude.{◌≡◌, ◌%◌};
ghost use Rattle.layout.specs.SetUps.{stripe_of, stripe_numbered, stripe_or_refusal};

use super::StripeId;
use crate::set_up::SetUp;
use common::refusal::Refusal;

impl SetUp {
    // The stripe that guards this address.
    pub fn stripe_of(self, address: u32) -> StripeId
        ensures { result.number ≡ stripe_of self address }
    {
        StripeId {
            number: address >> self.shift() & (self.stripes() - 1),
        }
    }

    // The stripe of this number, if the set-up has it.
    pub fn stripe(self, number: u32) -> Result<StripeId, Refusal>
        ensures { stripe_numbered result ≡ stripe_or_refusal self number }
    {
        if number < self.stripes() {
            Ok(StripeId { number })
        } else {
            Err(Refusal::NoSuchPlace)
        }
    }
}
