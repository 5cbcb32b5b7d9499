ghost use Rattle.std.specs.Prelude.{◌≡◌};
ghost use Rattle.forms.specs.Heads.{head_named, is_due};

use crate::names::Named;
use rules::kind::Kind;

// Which form a line has.
#[derive(Clone, Copy)]
pub enum Head {
    Engine,
    Call(Kind),
    Roll,
    Peek,
}

impl Head {
    // Whether the form may come now: an engine first and once, any other behind it.
    pub fn is_due(self, has_engine: bool) -> bool
        ensures { result ≡ is_due self has_engine }
    {
        match self {
            Head::Engine => !has_engine,
            Head::Call(_) | Head::Roll | Head::Peek => has_engine,
        }
    }
}

// The form that a name heads.
impl Named for Head {
    ghost named = { head_named };

    fn named(name: &[u8]) -> Option<Head> {
        match name {
            b"engine" => Some(Head::Engine),
            b"begin" => Some(Head::Call(Kind::Begin)),
            b"load" => Some(Head::Call(Kind::Load)),
            b"store" => Some(Head::Call(Kind::Store)),
            b"seal" => Some(Head::Call(Kind::Seal)),
            b"drain" => Some(Head::Call(Kind::Drain)),
            b"back" => Some(Head::Call(Kind::Back)),
            b"roll" => Some(Head::Roll),
            b"peek" => Some(Head::Peek),
            _ => None,
        }
    }
}
