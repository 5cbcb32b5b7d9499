ghost use Rattle.std.specs.Prelude.{◌≡◌, ◌≤◌, length, ⊤};

use std::alloc::AllocError;

mod edits;
mod reads;

// A log of at most 32 entries, held in place: the first `len` are logged, the others are blanks.
// An array and a length, since nothing allocates and a log is copied: an `ArrayVec` is not `Copy`, and clears only what has a default.
// It has no model: one whose view forgets the blanks gives no fields back, and is not `Copy` either.
pub struct Log<E> {
    entries: [E; 32],
    len: u32,
    ghost places: { length entries ≡ 32 },
    ghost few: { len ≤ 32 },
}

// By hand: a derive gives no `Clone` to a generic struct with ghost fields.
impl<E: Copy> Clone for Log<E> {
    ghost is_clone = { λ log copy. copy ≡ log };

    ghost is_infallible = { λ _. ⊤ };

    fn clone(&self) -> Result<Log<E>, AllocError> {
        Ok(*self)
    }
}

impl<E: Copy> Copy for Log<E> {}
