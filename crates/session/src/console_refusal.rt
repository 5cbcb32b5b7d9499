ghost use Rattle.std.specs.Prelude.{◌≡◌};
ghost use Rattle.session.specs.ConsoleRefusals.{console_refusal_number};

// Why the console refused an engine form or a script. What is refused changes nothing.
// These stand beside the memory's refusals: no call of the library can answer them.
#[derive(Clone, Copy, PartialEq, Eq, Debug)]
pub enum ConsoleRefusal {
    // An engine of the console with more than 256 words.
    WordCount = 6,
    // A script of more than 32,768 bytes.
    LongScript = 51,
    // Less room than 32 bytes for each line of a script.
    ShortOutput = 52,
}

impl ConsoleRefusal {
    // The number that the documents and the console give this refusal.
    pub fn number(self) -> u32
        ensures { result ≡ console_refusal_number self }
    {
        self as u32
    }
}
