ghost use Rattle.std.specs.Prelude.{◌≡◌};
ghost use Rattle.layout.specs.LockWords.{packed, unpacked, owned, ReadsBack, WritesBack};

use common::refusal::Refusal;

// What the lock word of a stripe says: the stripe's version, and its owner, 1 to 8 or 0 for none.
// The owner is a number, so that one that no lock word holds can still be asked for, and is refused with 5.
#[derive(Clone, Copy, PartialEq, Eq, Debug)]
pub struct LockWord {
    pub version: u32,
    pub owner: u32,
}

// The bits of a lock word, if its version and its owner fit one.
impl TryFrom<LockWord> for u64 {
    type Error = Refusal;

    ghost try_from_gives = { λ w r. (r ≡ packed w.version w.owner) × ReadsBack w.version w.owner r };

    fn try_from(word: LockWord) -> Result<u64, Refusal> {
        if word.version > 0x7fff_ffff || word.owner > 8 {
            return Err(Refusal::LockWord);
        }
        let owner = u64::from(word.owner);
        Ok(owner << 32 | (u64::from(word.version) << 1 | owned_bit(owner)))
    }
}

// What bits say, if they are a lock word.
impl TryFrom<u64> for LockWord {
    type Error = Refusal;

    ghost try_from_gives = { λ b r. (r ≡ unpacked b) × WritesBack b r };

    fn try_from(bits: u64) -> Result<LockWord, Refusal> {
        let owner = bits >> 32;
        if owner > 8 || bits & 1 != owned_bit(owner) {
            return Err(Refusal::LockWord);
        }
        Ok(LockWord {
            version: ((bits & 0xffff_ffff) >> 1) as u32,
            owner: owner as u32,
        })
    }
}

// Bit 0 of a lock word.
fn owned_bit(owner: u64) -> u64
    ensures { result ≡ owned owner }
{
    u64::from(owner != 0)
}
