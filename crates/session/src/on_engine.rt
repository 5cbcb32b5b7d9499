ghost use Rattle.std.specs.Prelude.{ℕ, Bool, replicate};
ghost use Rattle.contention.specs.Events.{Event};
ghost use Rattle.contention.specs.declared.policy.Points.{Points};
ghost use Rattle.memory.specs.Memories.{world};
ghost use Rattle.rules.specs.NewEngine.{new_world};
ghost use Rattle.rules.specs.States.{World};
ghost use Rattle.session.specs.Policies.{by_policy};

use crate::opening::Opening;
use contention::aggressive::Aggressive;
use contention::karma::Karma;
use contention::kill_prio::KillPrio;
use contention::policy::Policy;
use contention::suicide::Suicide;
use forms::form::{PolicyName, StoreKind};
use memory::memory::Memory;
use stores::plain::PlainStore;
use stores::register::RegisterStore;
use stores::word_store::WordStore;

// What is done on the engine that a line makes, whatever its store and its policy, with what stands beside it.
// It is a trait and no closure, since a closure takes a memory of one store and one policy. What stands beside it comes as
// a parameter of its own: no proof was found that the lender of a page inside of it learns what was printed.
pub trait OnEngine<C> {
    // What comes of it.
    type Outcome;

    // What it does, by the policy's points, table and moves, the policy itself, and the engine and its words.
    ghost does: { (P : Type 0) → Points → (P → ℕ → ℕ → Bool) → (P → Event → P) → P → World → Self → C → C → Self.Outcome → Type 0 };

    // Does it on a memory.
    fn run<S: WordStore + Drop, P: Policy + Drop>(
        self,
        memory: Memory<S, P>,
        beside: &mut C,
    ) -> Self::Outcome
        ensures { does P (record { load = P.LOAD_POINTS; take = P.TAKE_POINTS }) P.table P.moved memory.policy (world S.words memory) self beside.old beside.new result };
}

// Makes the engine that a line asks for, over words of its kind, all 0, and does on it what is to be done.
// The arms differ in cells, number and store: a trait over the kinds would say the same three things, further apart.
pub fn make_engine<C, T: OnEngine<C>>(opening: Opening, then: T, beside: &mut C) -> T::Outcome
    ensures { by_policy T.does opening.engine.policy (new_world opening.set_up (replicate opening.engine.words 0)) then beside.old beside.new result }
{
    let words = opening.engine.words as usize;
    match opening.engine.kind {
        StoreKind::Plain => {
            let mut cells = [0u32; 256];
            let store = PlainStore::new(&mut cells[0..words]);
            make_over(opening, store, then, beside)
        }
        StoreKind::Registers => {
            let mut registers = [0u16; 512];
            let store = RegisterStore::new(&mut registers[0..2 * words]);
            make_over(opening, store, then, beside)
        }
    }
}

// Makes the engine over a store, with the policy of its name. It is a match and no `dyn`: a trait with constants has no dyn
// values, and the memory of each policy is a type of its own.
fn make_over<S: WordStore + Drop, C, T: OnEngine<C>>(
    opening: Opening,
    store: S,
    then: T,
    beside: &mut C,
) -> T::Outcome
    ensures { by_policy T.does opening.engine.policy (new_world opening.set_up (S.words store)) then beside.old beside.new result }
{
    let set_up = opening.set_up;
    match opening.engine.policy {
        PolicyName::Suicide => then.run(Memory::new(set_up, store, Suicide), beside),
        PolicyName::Aggressive => then.run(Memory::new(set_up, store, Aggressive), beside),
        PolicyName::Karma => then.run(Memory::new(set_up, store, Karma::new()), beside),
        PolicyName::KillPrio => then.run(Memory::new(set_up, store, KillPrio::new()), beside),
    }
}
