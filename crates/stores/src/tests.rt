ghost use Rattle.std.specs.Prelude.{◌≡◌, ◌++◌, slice_set};
ghost use Rattle.stores.specs.Words.{held};
ghost use Rattle.stores.specs.Parts.{part, before, past};
ghost use Rattle.stores.specs.Registers.{paired, halved, unpaired};

use crate::plain::PlainStore;
use crate::register::RegisterStore;
use crate::window::Window;
use crate::word_store::WordStore;
use common::refusal::Refusal;

// The lender of cells knows all of them after a write through a store that is gone.
#[tactic(auto, using(crate::proofs::Parts::held_whole))]
fn put_cell(cells: &mut [u32], address: u32, word: u32) -> Result<(), Refusal>
    ensures { cells.new ≡ slice_set (held cells.old) address word ++ past 65536 cells.old }
{
    let mut store = PlainStore::new(cells);
    store.write(address, word)
}

// So does the lender of registers. This is no one function with the one above: each says all cells of its own kind.
#[tactic(auto, using(crate::proofs::Registers::registers_whole))]
fn put_pair(registers: &mut [u16], address: u32, word: u32) -> Result<(), Refusal>
    ensures { registers.new ≡ halved (slice_set (held (paired registers.old)) address word) ++ unpaired registers.old }
{
    let mut store = RegisterStore::new(registers);
    store.write(address, word)
}

// So does the lender of cells to a window.
#[tactic(auto, using(crate::proofs::Parts::held_whole, crate::proofs::Parts::part_whole))]
fn put_within(cells: &mut [u32], address: u32, word: u32) -> Result<(), Refusal>
    ensures { cells.new ≡ (before 2 (held cells.old) ++ (slice_set (part 2 4 (held cells.old)) address word ++ past 6 (held cells.old))) ++ past 65536 cells.old }
{
    let mut window = Window::new(cells, 2, 4);
    window.write(address, word)
}

// Whether a store holds these words and no more.
fn holds<S: WordStore>(store: &S, words: &[u32]) -> bool {
    let end = store.size();
    end as usize == words.len()
        && (0..end)
            .zip(words)
            .all(|(address, word)| store.read(address) == Ok(*word))
        && store.read(end) == Err(Refusal::NoSuchPlace)
        && store.check(end) == Err(Refusal::NoSuchPlace)
}

#[test]
fn cells_are_words(rt: HostRuntime) {
    let mut cells = [1, 2, 3];
    assert_eq!(rt; put_cell(&mut cells, 1, u32::MAX), Ok(()));
    assert_eq!(rt; put_cell(&mut cells, 3, 7), Err(Refusal::NoSuchPlace));
    assert_eq!(rt;
        put_cell(&mut cells, u32::MAX, 7),
        Err(Refusal::NoSuchPlace)
    );
    assert!(rt; holds(&PlainStore::new(&mut cells), &[1, u32::MAX, 3]));
    assert!(rt; holds(&cells.as_mut_slice(), &[1, u32::MAX, 3]));
    assert_eq!(rt; cells, [1, u32::MAX, 3]);
}

#[test]
fn registers_are_halves(rt: HostRuntime) {
    let mut registers = [0, 0, 0, 0, 9];
    assert_eq!(rt; put_pair(&mut registers, 1, 65538), Ok(()));
    assert_eq!(rt;
        put_pair(&mut registers, 2, 65538),
        Err(Refusal::NoSuchPlace)
    );
    assert_eq!(rt; registers, [0, 0, 1, 2, 9]);
    assert_eq!(rt; put_pair(&mut registers, 0, u32::MAX), Ok(()));
    assert!(rt; holds(&RegisterStore::new(&mut registers), &[u32::MAX, 65538]));
    assert!(rt; holds(&registers.as_mut_slice(), &[u32::MAX, 65538]));
}

#[test]
fn windows_end_with_the_store(rt: HostRuntime) {
    let mut cells = [10, 11, 12, 13, 14, 15, 16, 17];
    let window = Window::new(PlainStore::new(&mut cells), 6, 4);
    assert_eq!(rt; window.size(), 2);
    assert_eq!(rt; window.read(1), Ok(17));
    assert_eq!(rt; window.read(2), Err(Refusal::NoSuchPlace));
    let past = Window::new(window.into_below(), 9, 4);
    assert_eq!(rt; past.size(), 0);
    let mut far = Window::new(past.into_below(), u32::MAX, u32::MAX);
    assert_eq!(rt; far.size(), 0);
    assert_eq!(rt; far.write(u32::MAX, 1), Err(Refusal::NoSuchPlace));
}

#[test]
fn windows_stand_on_windows(rt: HostRuntime) {
    let mut cells = [0; 8];
    assert_eq!(rt; put_within(&mut cells, 3, 5), Ok(()));
    assert_eq!(rt; put_within(&mut cells, 4, 6), Err(Refusal::NoSuchPlace));
    let mut store = PlainStore::new(&mut cells);
    let mut outer = Window::new(&mut store, 2, 4);
    let mut inner = Window::new(&mut outer, 1, 9);
    assert_eq!(rt; inner.size(), 3);
    assert_eq!(rt; inner.read(2), Ok(5));
    assert_eq!(rt; inner.write(0, 4), Ok(()));
    assert_eq!(rt; inner.write(3, 4), Err(Refusal::NoSuchPlace));
    assert_eq!(rt; cells, [0, 0, 0, 4, 0, 5, 0, 0]);
}
