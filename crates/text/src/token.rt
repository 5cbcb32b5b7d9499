ghost use Rattle.std.specs.Prelude.{◌≡◌};
ghost use Rattle.text.specs.Views.{token_view};
ghost use Rattle.text.specs.Tokens.{column_of};

// A part of a line, with the column of its first byte, counted from 1. The column stands in each variant and not beside the
// enum, so that one pattern takes a token apart.
#[derive(Clone, Copy)]
pub enum Token<'a> {
    // An opening bracket.
    Open { column: usize },
    // A closing bracket.
    Close { column: usize },
    // Letters.
    Name { text: &'a [u8], column: usize },
    // Digits.
    Number { text: &'a [u8], column: usize },
    // Nothing is left.
    End { column: usize },
}

impl Token<'_> {
    // The column of its first byte.
    pub fn column(self) -> usize
        ensures { result ≡ column_of (token_view self.entry) }
    {
        match self {
            Token::Open { column }
            | Token::Close { column }
            | Token::Name { column, .. }
            | Token::Number { column, .. }
            | Token::End { column } => column,
        }
    }
}
