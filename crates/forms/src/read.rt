ghost use Rattle.std.specs.Prelude.{◌≡◌};
ghost use Rattle.forms.specs.Forms.{call_at, form_of, items_at};
ghost use Rattle.forms.specs.Heads.{head_at};
ghost use Rattle.forms.specs.Views.{reading_view};
ghost use Rattle.text.specs.Views.{line_view, spot};

use crate::engine::engine_items;
use crate::form::Form;
use crate::form_fault::FormFault;
use crate::head::Head;
use crate::item::{Bracket, Item, pass};
use crate::numbers::numbers;
use rules::call::Call;
use rules::kind::Kind;
use text::cursor::Cursor;
use text::line::Line;
use text::place::check_text;

// The form of a line of a script that has accepted an engine before or not; or what is wrong with the line. The flag
// comes with no value: reading asks nothing of the engine but whether there is one.
pub fn read_form(line: Line<'_>, has_engine: bool) -> Result<Form, FormFault>
    ensures { result ≡ form_of (line_view line.entry) has_engine }
{
    check_text(line)?;
    let mut cursor = Cursor::new(line.bytes);
    let head = read_head(&mut cursor)?;
    if !head.is_due(has_engine) {
        return Err(FormFault::Order);
    }
    read_items(head, &mut cursor)
}

// Which form the name behind the first bracket heads.
fn read_head(cursor: &mut Cursor<'_>) -> Result<Head, FormFault>
    ensures { reading_view result cursor.new ≡ head_at (spot cursor.old) }
{
    let _bracket = cursor.next_token();
    let token = cursor.next_token();
    Head::in_token(token).ok_or(FormFault::Name {
        column: token.column(),
    })
}

// The items of a form, with its closing bracket.
fn read_items(head: Head, cursor: &mut Cursor<'_>) -> Result<Form, FormFault>
    ensures { result ≡ items_at head (spot cursor.old) }
{
    match head {
        Head::Engine => engine_items(cursor).map(Form::Engine),
        Head::Call(kind) => read_call(kind, cursor).map(Form::Call),
        Head::Roll => pass(cursor, Bracket::Close).map(|()| Form::Call(Call::Roll)),
        Head::Peek => {
            let [stripe] = numbers::<1>(cursor)?;
            Ok(Form::Peek { stripe })
        }
    }
}

// The items of a call on a thread, with its closing bracket. A `let` takes the numbers apart: the proof of a closure under
// `map` that takes an array apart did not close.
fn read_call(kind: Kind, cursor: &mut Cursor<'_>) -> Result<Call, FormFault>
    ensures { result ≡ call_at kind (spot cursor.old) }
{
    match kind {
        Kind::Begin => {
            let [thread] = numbers::<1>(cursor)?;
            Ok(Call::Begin { thread })
        }
        Kind::Load => {
            let [thread, address] = numbers::<2>(cursor)?;
            Ok(Call::Load { thread, address })
        }
        Kind::Store => {
            let [thread, address, word] = numbers::<3>(cursor)?;
            Ok(Call::Store {
                thread,
                address,
                word,
            })
        }
        Kind::Seal => {
            let [thread] = numbers::<1>(cursor)?;
            Ok(Call::Seal { thread })
        }
        Kind::Drain => {
            let [thread] = numbers::<1>(cursor)?;
            Ok(Call::Drain { thread })
        }
        Kind::Back => {
            let [thread] = numbers::<1>(cursor)?;
            Ok(Call::Back { thread })
        }
    }
}
