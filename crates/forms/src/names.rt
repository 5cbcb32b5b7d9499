ghost use Rattle.std.specs.Prelude.{◌≡◌, ℕ, List, Option};
ghost use Rattle.forms.specs.Names.{kind_named, part_named, policy_named};

use crate::form::{PolicyName, StoreKind};

// What a name can mean. It is no TryFrom: a name that means nothing is no error yet, since only its place in the form
// says which fault it is.
pub trait Named: Sized {
    ghost named: { List ℕ → Option Self };

    // What the name means, if it means anything.
    fn named(name: &[u8]) -> Option<Self>
        ensures { result ≡ named name.now };
}

// A part of an engine form.
#[derive(Clone, Copy)]
pub enum Part {
    Threads,
    Stripes,
    Shift,
    Limit,
    Words,
    Kind,
    Policy,
}

impl Part {
    // Whether the part has this name. Which part comes is known, so this is a test, and no part is read from a name.
    pub fn is_named(self, name: &[u8]) -> bool
        ensures { result ≡ part_named self name.now }
    {
        match self {
            Part::Threads => matches!(name, b"threads"),
            Part::Stripes => matches!(name, b"stripes"),
            Part::Shift => matches!(name, b"shift"),
            Part::Limit => matches!(name, b"limit"),
            Part::Words => matches!(name, b"words"),
            Part::Kind => matches!(name, b"kind"),
            Part::Policy => matches!(name, b"policy"),
        }
    }
}

impl Named for StoreKind {
    ghost named = { kind_named };

    fn named(name: &[u8]) -> Option<StoreKind> {
        match name {
            b"plain" => Some(StoreKind::Plain),
            b"registers" => Some(StoreKind::Registers),
            _ => None,
        }
    }
}

impl Named for PolicyName {
    ghost named = { policy_named };

    fn named(name: &[u8]) -> Option<PolicyName> {
        match name {
            b"suicide" => Some(PolicyName::Suicide),
            b"aggressive" => Some(PolicyName::Aggressive),
            b"karma" => Some(PolicyName::Karma),
            b"killprio" => Some(PolicyName::KillPrio),
            _ => None,
        }
    }
}
