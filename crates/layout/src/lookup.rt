ghost use Rattle.std.specs.Prelude.{◌≡◌};
ghost use Rattle.layout.specs.Lookups.{first_with, Place};

use crate::keyed::Keyed;

// The place of the first entry with this key.
pub(crate) fn position<E: Keyed>(entries: &[E], key: u32) -> Option<usize>
    ensures { Place E.Keyed.key key entries.now result }
{
    entries.iter().position(|entry| entry.key() == key)
}

// The first entry with this key. It reads the place that `position` finds, so that entries are looked up in one walk; the
// iterator's `find` would be a second one.
pub fn find<E: Keyed + Copy>(entries: &[E], key: u32) -> Option<E>
    ensures { result ≡ first_with E.Keyed.key key entries.now }
{
    let place = position(entries, key)?;
    Some(entries[place])
}
