ghost use Rattle.std.specs.Prelude.{◌≡◌};
ghost use Rattle.text.specs.Grammar.{Judged};
ghost use Rattle.text.specs.Places.{ended, item, next};
ghost use Rattle.text.specs.Verdicts.{reached, text_verdict};
ghost use Rattle.text.specs.declared.place.Place.TheVariants.{Start};
ghost use Rattle.text.specs.Views.{line_view};

use crate::line::Line;
use crate::text_fault::TextFault;

// How deep in brackets: in the line's own form, or in a form that is an item of it.
#[derive(Clone, Copy)]
pub enum Depth {
    Outer,
    Inner,
}

// How far a form is read.
#[derive(Clone, Copy)]
pub enum Place {
    // Before the first byte.
    Start,
    // Behind an opening bracket, where a name begins.
    Opened(Depth),
    // In a name, which may go on.
    InName(Depth),
    // In a number, which may go on.
    InNumber(Depth),
    // Behind an item that cannot go on: a 0, or a form.
    Complete(Depth),
    // Behind a space, where an item begins.
    Spaced(Depth),
    // Behind the last bracket.
    Done,
}

impl Place {
    // Where a byte leads, if a form may go on with it.
    fn next(self, byte: u8) -> Option<Place>
        ensures { result ≡ next self byte }
    {
        match self {
            Place::Start if byte == b'(' => Some(Place::Opened(Depth::Outer)),
            Place::Opened(depth) if byte.is_ascii_lowercase() => Some(Place::InName(depth)),
            Place::InName(_) if byte.is_ascii_lowercase() => Some(self),
            Place::InNumber(_) if byte.is_ascii_digit() => Some(self),
            Place::InName(depth) | Place::InNumber(depth) | Place::Complete(depth) => {
                ended(depth, byte)
            }
            Place::Spaced(depth) => item(depth, byte),
            _ => None,
        }
    }
}

// Where the first byte of an item leads.
fn item(depth: Depth, byte: u8) -> Option<Place>
    ensures { result ≡ item depth byte }
{
    match (byte, depth) {
        (b'a'..=b'z', _) => Some(Place::InName(depth)),
        (b'0', _) => Some(Place::Complete(depth)),
        (b'1'..=b'9', _) => Some(Place::InNumber(depth)),
        (b'(', Depth::Outer) => Some(Place::Opened(Depth::Inner)),
        _ => None,
    }
}

// Where a byte behind an item leads: to the next item, or out of the form.
fn ended(depth: Depth, byte: u8) -> Option<Place>
    ensures { result ≡ ended depth byte }
{
    match (byte, depth) {
        (b' ', _) => Some(Place::Spaced(depth)),
        (b')', Depth::Inner) => Some(Place::Complete(Depth::Outer)),
        (b')', Depth::Outer) => Some(Place::Done),
        _ => None,
    }
}

// Whether the line is a form; if not, the first column at which none goes on.
pub fn check_text(line: Line<'_>) -> Result<(), TextFault>
    ensures verdict { result ≡ text_verdict (line_view line.entry) }
    ensures judged { Judged (line_view line.entry) result }
{
    verdict(line)
}

// Whether the bytes lead to the end of a form, and a line feed stands there.
fn verdict(line: Line<'_>) -> Result<(), TextFault>
    ensures { result ≡ text_verdict (line_view line.entry) }
{
    match (reached(line.bytes)?, line.ended) {
        (Place::Done, true) => Ok(()),
        _ => Err(TextFault {
            column: line.bytes.len() + 1,
        }),
    }
}

// The place to which the bytes lead, or the first that leads nowhere.
#[tactic(auto, unfolding(crate::specs::Verdicts::reached))]
fn reached(bytes: &[u8]) -> Result<Place, TextFault>
    ensures { result ≡ reached Start 1 bytes.now }
{
    let mut place = Place::Start;
    for (i, byte) in bytes.iter().enumerate() {
        place = place.next(*byte).ok_or(TextFault { column: i + 1 })?;
    }
    Ok(place)
}
