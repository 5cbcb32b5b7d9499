ghost use Rattle.std.specs.Prelude.{◌≡◌};
ghost use Rattle.forms.specs.Numbers.{numbers_at};
ghost use Rattle.text.specs.Views.{spot};

use crate::form_fault::FormFault;
use crate::item::{Bracket, next_item, pass};
use text::cursor::Cursor;

// The numbers of a form that takes no other items.
#[tactic(auto, using(crate::proofs::Steps::numbers_more, crate::proofs::Steps::numbers_done, std::proofs::lemmas::Grind::common_steps))]
pub fn numbers<const N: usize>(cursor: &mut Cursor<'_>) -> Result<[u32; N], FormFault>
    ensures { result ≡ numbers_at N (spot cursor.old) }
{
    let mut numbers = [0; N];
    for number in &mut numbers {
        *number = next_item(cursor)?;
    }
    pass(cursor, Bracket::Close)?;
    Ok(numbers)
}
