ghost use Rattle.std.specs.Prelude.{◌≡◌, ℕ, List, Option};
ghost use Rattle.forms.specs.Items.{bracket_at, item_at, misfit, name_in, number_in};
ghost use Rattle.forms.specs.Views.{reading_view};
ghost use Rattle.text.specs.Tokens.{Token as TokenView};
ghost use Rattle.text.specs.Views.{spot, token_view};

use crate::form_fault::FormFault;
use crate::names::Named;
use text::cursor::Cursor;
use text::numeral::numeral;
use text::token::Token;

// What can stand as an item of a form: a number, or what a name means.
pub trait Item: Sized {
    ghost in_token: { TokenView → Option Self };

    // The item that a token is, if it fits.
    fn in_token(token: Token<'_>) -> Option<Self>
        ensures { result ≡ in_token (token_view token.entry) };
}

// A number that fits 32 bits.
impl Item for u32 {
    ghost in_token = { number_in };

    fn in_token(token: Token<'_>) -> Option<u32> {
        match token {
            Token::Number { text, .. } => numeral(text),
            _ => None,
        }
    }
}

// What a name means.
impl<T: Named> Item for T {
    ghost in_token = { name_in T.named };

    fn in_token(token: Token<'_>) -> Option<T> {
        match token {
            Token::Name { text, .. } => T::named(text),
            _ => None,
        }
    }
}

// The item that belongs here.
pub fn next_item<T: Item>(cursor: &mut Cursor<'_>) -> Result<T, FormFault>
    ensures { reading_view result cursor.new ≡ item_at T.in_token (spot cursor.old) }
{
    let token = cursor.next_token();
    T::in_token(token).ok_or(misfit(token))
}

// A bracket of a form.
#[derive(Clone, Copy)]
pub enum Bracket {
    Open,
    Close,
}

// Passes the bracket that belongs here.
pub fn pass(cursor: &mut Cursor<'_>, bracket: Bracket) -> Result<(), FormFault>
    ensures { reading_view result cursor.new ≡ bracket_at bracket (spot cursor.old) }
{
    match (bracket, cursor.next_token()) {
        (Bracket::Open, Token::Open { .. }) | (Bracket::Close, Token::Close { .. }) => Ok(()),
        (_, token) => Err(misfit(token)),
    }
}

// The fault of a token that does not fit where it stands.
fn misfit(token: Token<'_>) -> FormFault
    ensures { result ≡ misfit (token_view token.entry) }
{
    FormFault::Item {
        column: token.column(),
    }
}
