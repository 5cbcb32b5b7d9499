ghost use Rattle.std.specs.Prelude.{◌≡◌, length};
ghost use Rattle.text.specs.Lines.{lines};

use crate::split::split_while;
use std::marker::Model;

// A line of a script: its bytes, and whether a line feed ended it. The flag is no option: the bytes are there either
// way.
#[derive(Clone, Copy)]
pub struct Line<'a> {
    pub bytes: &'a [u8],
    pub ended: bool,
}

// The lines that are left of a script, seen as the bytes that are left.
#[derive(Clone, Drop)]
pub struct Lines<'a> {
    left: &'a [u8],
}

impl<'a> Model for Lines<'a> {
    ghost use Rattle.std.specs.Prelude.{ℕ, List};

    ghost Value = { List ℕ };

    ghost view = { λ l. l.left.now };
}

impl<'a> Lines<'a> {
    // All lines of a script.
    pub fn new(script: &'a [u8]) -> Lines<'a>
        ensures { result ≡ script.now }
    {
        Lines { left: script }
    }

    // The bytes that are left.
    pub fn rest(&self) -> &'a [u8]
        ensures { result.now ≡ self.now }
    {
        self.left
    }
}

impl<'a> Iterator for Lines<'a> {
    ghost use Rattle.std.specs.Iterator.{at_most};
    ghost use Rattle.text.specs.Views.{TakesLine};

    type Item = Line<'a>;

    ghost next_gives = { TakesLine };

    ghost remaining = { λ l. at_most (length l) };

    // The next line; bytes behind the last line feed are one more.
    fn next(&mut self) -> Option<Line<'a>> {
        match split_while(self.rest(), |byte| *byte != b'\n') {
            (bytes, [_, rest @ ..]) => {
                *self = Lines::new(rest);
                Some(Line { bytes, ended: true })
            }
            ([], []) => None,
            (bytes, []) => {
                *self = Lines::new(&[]);
                Some(Line {
                    bytes,
                    ended: false,
                })
            }
        }
    }
}

// How many lines a script has; bytes behind the last line feed are one more.
pub fn line_count(script: &[u8]) -> usize
    ensures { result ≡ length (lines script.now) }
{
    Lines::new(script).count()
}
