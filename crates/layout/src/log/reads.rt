ghost use Rattle.std.specs.Prelude.{◌≡◌, ◌<◌, ◌≤◌, length, OnSome, ◌==◌, nat_le};
ghost use Rattle.layout.specs.Logs.{logged};
ghost use Rattle.layout.specs.Lookups.{first_with};
ghost use Rattle.std.specs.List.{slice_get};

use super::Log;
use crate::keyed::Keyed;
use crate::lookup::find;

impl<E: Copy> Log<E> {
    // The logged entries, the oldest first.
    pub fn entries(&self) -> &[E]
        ensures entries { result.now ≡ logged self.now }
        ensures bound { length result.now ≤ 32 }
    {
        &self.entries[..self.len as usize]
    }

    // How many entries are logged.
    pub fn len(&self) -> u32
        ensures count { result ≡ length (logged self.now) }
        ensures bound { result ≤ 32 }
    {
        self.len
    }

    // Whether nothing is logged.
    pub fn is_empty(&self) -> bool
        ensures { result ≡ (length (logged self.now) == 0) }
    {
        self.len() == 0
    }

    // Whether there is no room for one more entry.
    pub fn is_full(&self) -> bool
        ensures { result ≡ nat_le 32 (length (logged self.now)) }
    {
        self.len() >= 32
    }

    // The entry at this place, the oldest at 0.
    pub fn get(&self, i: u32) -> Option<E>
        ensures entry { result ≡ slice_get (logged self.now) i }
        ensures bound { OnSome result (i < length (logged self.now)) }
    {
        self.entries().get(i as usize).copied()
    }
}

impl<E: Keyed + Copy> Log<E> {
    // The oldest entry with this key.
    pub fn find(&self, key: u32) -> Option<E>
        ensures { result ≡ first_with E.Keyed.key key (logged self.now) }
    {
        find(self.entries(), key)
    }
}
