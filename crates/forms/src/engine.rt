ghost use Rattle.std.specs.Prelude.{◌≡◌};
ghost use Rattle.forms.specs.Engines.{engine_at, part_at, part_begun};
ghost use Rattle.forms.specs.Views.{reading_view};
ghost use Rattle.text.specs.Views.{spot};

use crate::form::EngineForm;
use crate::form_fault::FormFault;
use crate::item::{Bracket, Item, next_item, pass};
use crate::names::Part;
use text::cursor::Cursor;
use text::token::Token;

// The parts of an engine form, in their order.
pub fn engine_items(cursor: &mut Cursor<'_>) -> Result<EngineForm, FormFault>
    ensures { result ≡ engine_at (spot cursor.old) }
{
    let threads = part(cursor, Part::Threads)?;
    let stripes = part(cursor, Part::Stripes)?;
    let shift = part(cursor, Part::Shift)?;
    let limit = part(cursor, Part::Limit)?;
    let words = part(cursor, Part::Words)?;
    let kind = part(cursor, Part::Kind)?;
    let policy = part(cursor, Part::Policy)?;
    pass(cursor, Bracket::Close)?;
    Ok(EngineForm {
        threads,
        stripes,
        shift,
        limit,
        words,
        kind,
        policy,
    })
}

// The item of a part.
fn part<T: Item + Copy>(cursor: &mut Cursor<'_>, part: Part) -> Result<T, FormFault>
    ensures { reading_view result cursor.new ≡ part_at T.in_token part (spot cursor.old) }
{
    begin_part(cursor, part)?;
    let value = next_item(cursor)?;
    pass(cursor, Bracket::Close)?;
    Ok(value)
}

// Passes the opening bracket and the name of a part.
fn begin_part(cursor: &mut Cursor<'_>, part: Part) -> Result<(), FormFault>
    ensures { reading_view result cursor.new ≡ part_begun part (spot cursor.old) }
{
    pass(cursor, Bracket::Open)?;
    match cursor.next_token() {
        Token::Name { text, .. } if part.is_named(text) => Ok(()),
        token => Err(FormFault::Name {
            column: token.column(),
        }),
    }
}
