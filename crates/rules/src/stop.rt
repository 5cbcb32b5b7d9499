ghost use Rattle.std.specs.Prelude.{◌≡◌};
ghost use Rattle.rules.specs.declared.stop.Stop.TheVariants.{Refused, Lost};

use common::loss::Loss;
use common::refusal::Refusal;

// Why a load, a store or a seal did not go through.
#[derive(Clone, Copy, PartialEq, Eq, Debug)]
pub enum Stop {
    // Nothing changed; the transaction goes on.
    Refused(Refusal),
    // The transaction was lost by this call.
    Lost(Loss),
}

// A refusal on its way up by `?`.
impl From<Refusal> for Stop {
    ghost from_gives = { λ e r. r ≡ Refused e };

    fn from(refusal: Refusal) -> Stop {
        Stop::Refused(refusal)
    }
}

// A loss on its way up by `?`.
impl From<Loss> for Stop {
    ghost from_gives = { λ e r. r ≡ Lost e };

    fn from(loss: Loss) -> Stop {
        Stop::Lost(loss)
    }
}
