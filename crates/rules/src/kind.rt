ghost use Rattle.std.specs.Prelude.{◌≡◌};
ghost use Rattle.rules.specs.Admission.{tells_loss};

// Which of the calls on a thread is made, without what it is given. A Call in its place would have the checks of the
// thread's state read, or make up, an address and a word, and would let a roll in, which is no call on a thread.
#[derive(Clone, Copy, PartialEq, Eq, Debug)]
pub enum Kind {
    Begin,
    Load,
    Store,
    Seal,
    Drain,
    Back,
}

impl Kind {
    // Whether a call of this kind tells a lost transaction that it is lost.
    pub fn tells_loss(self) -> bool
        ensures { result ≡ tells_loss self }
    {
        matches!(self, Kind::Load | Kind::Store | Kind::Seal)
    }
}
