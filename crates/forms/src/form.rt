use rules::call::Call;

// How an engine keeps its words.
#[derive(Clone, Copy, PartialEq, Eq, Debug)]
pub enum StoreKind {
    // Each in a cell of 32 bits.
    Plain,
    // Each in two registers of 16 bits.
    Registers,
}

// The contention policy of an engine.
#[derive(Clone, Copy, PartialEq, Eq, Debug)]
pub enum PolicyName {
    Suicide,
    Aggressive,
    Karma,
    KillPrio,
}

// The engine that a script asks for, before its numbers are checked.
#[derive(Clone, Copy, PartialEq, Eq, Debug)]
pub struct EngineForm {
    pub threads: u32,
    pub stripes: u32,
    pub shift: u32,
    pub limit: u32,
    pub words: u32,
    pub kind: StoreKind,
    pub policy: PolicyName,
}

// What a line asks for.
#[derive(Clone, Copy)]
pub enum Form {
    // A new engine.
    Engine(EngineForm),
    // A call of the engine.
    Call(Call),
    // A look at a stripe.
    Peek { stripe: u32 },
}
