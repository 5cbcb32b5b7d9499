ghost use Rattle.std.specs.Prelude.{◌≡◌};
ghost use Rattle.rules.specs.Endings.{ending_cause, ending_detail};

use common::loss::Loss;

// How a sealed transaction stands. It is no Result and no Option: both ways are good ones, with a number each.
#[derive(Clone, Copy, PartialEq, Eq, Debug)]
pub enum Sealed {
    // It stored nothing: it read the words of this moment, and its thread is idle again.
    Reader { snapshot: u32 },
    // It has this ticket, and its words are to be drained.
    Updater { ticket: u32 },
}

// How the transaction ended that a thread went back from. It is no Option of a loss: a transaction that was given
// up has ended too, by a cause of its own with the number 20, which None would not say.
#[derive(Clone, Copy, PartialEq, Eq, Debug)]
pub enum Ending {
    // The thread gave it up.
    GivenUp,
    // It had been lost.
    Lost(Loss),
}

impl Ending {
    // The number of the cause: 20 if the thread gave the transaction up, else that of the loss.
    pub fn cause(self) -> u32
        ensures { result ≡ ending_cause self }
    {
        match self {
            Ending::GivenUp => 20,
            Ending::Lost(loss) => loss.cause(),
        }
    }

    // The thread or the stripe that the cause names, or 0.
    pub fn detail(self) -> u32
        ensures { result ≡ ending_detail self }
    {
        match self {
            Ending::GivenUp => 0,
            Ending::Lost(loss) => loss.detail(),
        }
    }
}
