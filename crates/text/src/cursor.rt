ghost use Rattle.std.specs.Prelude.{◌≡◌, length};
ghost use Rattle.text.specs.Tokens.{column_at, taken, token_at, unspaced};
ghost use Rattle.text.specs.Views.{spot, taken_view};

use crate::split::split_while;
use crate::token::Token;

// A place in a line, which moves on as its tokens are taken one by one. It is no iterator: the end of a line is a
// token too, with a column that a fault can name. It has no model, nor have a line and a token: one with a lifetime is not
// `Copy`.
#[derive(Clone, Copy)]
pub struct Cursor<'a> {
    line: &'a [u8],
    rest: &'a [u8],
}

impl<'a> Cursor<'a> {
    // The start of a line.
    pub fn new(line: &'a [u8]) -> Cursor<'a>
        ensures { spot result ≡ record { size = length line.now; rest = line.now } }
    {
        Cursor { line, rest: line }
    }

    // The next token, past a space before it; the place moves behind it.
    #[tactic(auto, unfolding(crate::specs::Tokens::token_at))]
    pub fn next_token(&mut self) -> Token<'a>
        ensures { taken_view (result, self.new) ≡ token_at (spot self.old) }
    {
        self.rest = unspaced(self.rest);
        self.take_token()
    }

    // The column of the place, counted from 1.
    fn column(&self) -> usize
        ensures { result ≡ column_at (spot self.now) }
    {
        self.line.len().saturating_sub(self.rest.len()) + 1
    }

    // The token that begins here; the place moves behind it.
    fn take_token(&mut self) -> Token<'a>
        ensures { taken_view (result, self.new) ≡ taken (spot self.old) (spot self.old).rest }
    {
        let column = self.column();
        match self.rest {
            [] => Token::End { column },
            [b'(', rest @ ..] => {
                self.rest = rest;
                Token::Open { column }
            }
            [b')', rest @ ..] => {
                self.rest = rest;
                Token::Close { column }
            }
            [b'0'..=b'9', ..] => {
                let (text, rest) = split_while(self.rest, u8::is_ascii_digit);
                self.rest = rest;
                Token::Number { text, column }
            }
            _ => {
                let (text, rest) = split_while(self.rest, u8::is_ascii_lowercase);
                self.rest = rest;
                Token::Name { text, column }
            }
        }
    }
}

// The bytes past a space before them.
fn unspaced<'a>(bytes: &'a [u8]) -> &'a [u8]
    ensures { result.now ≡ unspaced bytes.now }
{
    match bytes {
        [b' ', rest @ ..] => rest,
        _ => bytes,
    }
}
