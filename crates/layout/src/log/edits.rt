ghost use Rattle.std.specs.Prelude.{◌≡◌, ◌<◌, ltb, [], ◌∷◌, ◌++◌, length, if◌then◌else◌, slice_set};
ghost use Rattle.layout.specs.Logs.{logged, room_or_refusal};
ghost use Rattle.layout.specs.Lookups.{replaced};

use super::Log;
use crate::keyed::Keyed;
use crate::lookup::position;
use common::refusal::Refusal;

impl<E: Copy> Log<E> {
    // An empty log: the blank stands in the places that are not used yet.
    pub fn empty_over(blank: E) -> Log<E>
        ensures { logged result ≡ [] }
    {
        Log {
            entries: [blank; 32],
            len: 0,
        }
    }

    // Logs one more entry, or says that the log is full.
    pub fn push(&mut self, entry: E) -> Result<(), Refusal>
        ensures room { result ≡ room_or_refusal (length (logged self.old)) }
        ensures entries { logged self.new ≡ (if ltb (length (logged self.old)) 32 then logged self.old ++ entry ∷ [] else logged self.old) }
    {
        if self.is_full() {
            return Err(Refusal::LogFull);
        }
        self.entries[self.len as usize] = entry;
        self.len += 1;
        Ok(())
    }

    // Forgets all entries.
    pub fn clear(&mut self)
        ensures { logged self.new ≡ [] }
    {
        self.len = 0;
    }

    // Writes an entry over the one at this place.
    fn overwrite(&mut self, place: usize, entry: E)
        requires { place < length (logged self.old) }
        ensures { logged self.new ≡ slice_set (logged self.old) place entry }
    {
        self.entries[place] = entry;
    }
}

impl<E: Keyed + Copy> Log<E> {
    // Puts the entry in the place of the oldest one with its key, if there is one.
    pub fn replace(&mut self, entry: E)
        ensures { logged self.new ≡ replaced E.Keyed.key entry (logged self.old) }
    {
        if let Some(place) = position(self.entries(), entry.key()) {
            self.overwrite(place, entry);
        }
    }
}
