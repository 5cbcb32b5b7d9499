ghost use Rattle.std.specs.Prelude.{◌≡◌, ℕ, map, take};
ghost use Rattle.history.specs.Law.{Law};
ghost use Rattle.history.specs.Turns.{turn_of, calls_of, run_of};
ghost use Rattle.memory.specs.Memories.{world};

use crate::turn::Turn;
use contention::policy::Policy;
use layout::set_up::SetUp;
use memory::memory::Memory;
use stores::word_store::WordStore;

// Makes these calls, one after another, on a new memory over the store; writes each answer beside its call.
// Whatever the calls are, what the run shows after each of them keeps the law.
pub fn run<S: WordStore, P: Policy>(
    set_up: SetUp,
    store: S,
    policy: P,
    turns: &mut [Turn],
) -> Memory<S, P>
    ensures answers { turns.new ≡ map turn_of (run_of P.table P.moved set_up (S.words store) policy (calls_of turns.old)).lines }
    ensures left { world S.words result ≡ (run_of P.table P.moved set_up (S.words store) policy (calls_of turns.old)).world }
    ensures told { result.policy ≡ (run_of P.table P.moved set_up (S.words store) policy (calls_of turns.old)).policy }
    ensures lender { S.home result.words ≡ S.home store }
    ensures law { (n : ℕ) → Law set_up (S.words store) (take n (run_of P.table P.moved set_up (S.words store) policy (calls_of turns.old)).lines) }
{
    let mut memory = Memory::new(set_up, store, policy);
    for turn in turns.iter_mut() {
        turn.make(&mut memory);
    }
    memory
}
