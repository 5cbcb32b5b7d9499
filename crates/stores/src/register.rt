ghost use Rattle.std.specs.Prelude.{◌≡◌, ◌+◌, ◌*◌, ◌/◌, ◌%◌};
ghost use Rattle.stores.specs.Registers.{paired, past_pairs};

use crate::cell::{CellStore, WordCell};

// A store over lent registers of 16 bits, two to a word, the high half first.
// An odd last register is unused, and so are those past the first 65,536 words.
pub type RegisterStore<'a> = CellStore<'a, u16>;

// Two registers of 16 bits hold a word.
#[tactic(auto, using(crate::proofs::Registers::in_registers))]
impl WordCell for u16 {
    ghost words = { paired };

    ghost rest = { past_pairs };

    fn room(registers: &[u16]) -> usize {
        registers.len() / 2
    }

    fn word(registers: &[u16], address: usize) -> u32 {
        let place = 2 * address;
        join(registers[place], registers[place + 1])
    }

    fn put(registers: &mut [u16], address: usize, word: u32) {
        let place = 2 * address;
        registers[place] = high(word);
        registers[place + 1] = low(word);
    }
}

// The word of two halves.
fn join(high: u16, low: u16) -> u32
    ensures { result ≡ high * 65536 + low }
{
    u32::from(high) << 16 | u32::from(low)
}

// The high half of a word.
fn high(word: u32) -> u16
    ensures { result ≡ word / 65536 }
{
    (word >> 16) as u16
}

// The low half of a word.
fn low(word: u32) -> u16
    ensures { result ≡ word % 65536 }
{
    (word & 0xffff) as u16
}
