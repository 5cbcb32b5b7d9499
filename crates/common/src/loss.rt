ghost use Rattle.std.specs.Prelude.{◌≡◌};
ghost use Rattle.common.specs.Numbers.{loss_cause, loss_detail};

// Why a transaction was lost. A lost thread keeps this until it goes back.
#[derive(Clone, Copy, PartialEq, Eq, Debug)]
pub enum Loss {
    // The policy let this thread, which holds the stripe, stay ahead of the caller.
    Beaten { holder: u32 },
    // This stripe of the read log is no longer as it was read.
    Invalid { stripe: u32 },
    // The clock has reached its limit.
    ClockSpent,
    // This thread won over the transaction at a stripe that it held.
    Stolen { thief: u32 },
}

impl Loss {
    // The number of the cause, 21 to 24, for what is printed. (`as` takes no variant that carries a number.)
    pub fn cause(self) -> u32
        ensures { result ≡ loss_cause self }
    {
        match self {
            Loss::Beaten { .. } => 21,
            Loss::Invalid { .. } => 22,
            Loss::ClockSpent => 23,
            Loss::Stolen { .. } => 24,
        }
    }

    // The thread or the stripe that the cause names; 0 for a spent clock. It is no Option, since the formats print a
    // number for every loss.
    pub fn detail(self) -> u32
        ensures { result ≡ loss_detail self }
    {
        match self {
            Loss::Beaten { holder } => holder,
            Loss::Invalid { stripe } => stripe,
            Loss::ClockSpent => 0,
            Loss::Stolen { thief } => thief,
        }
    }
}
