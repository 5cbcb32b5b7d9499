use crate::engine::Engine;

// Words in a store, shared by threads in transactions; a policy decides who wins where two of them meet. The contract of
// each call names the meanings `S.words`, `S.home` and `P.moved`, since the rules know neither the store nor the policy.
#[derive(Drop)]
pub struct Memory<S, P> {
    pub(crate) engine: Engine,
    pub(crate) words: S,
    pub(crate) policy: P,
}
