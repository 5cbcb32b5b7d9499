ghost use Rattle.std.specs.Prelude.{◌≡◌, IfOk};
ghost use Rattle.memory.specs.Views.{engine_view, let_in};
ghost use Rattle.rules.specs.Admission.{admission, admitted};

use crate::engine::Engine;
use common::refusal::Refusal;
use common::thread_id::ThreadId;
use rules::kind::Kind;
use rules::phase::Phase;

// Whether a call of this kind may go on in this phase. A lost transaction is told so by the calls that work on it.
fn check_phase(kind: Kind, phase: Phase) -> Result<(), Refusal>
    ensures { result ≡ admission kind phase }
{
    match (kind, phase) {
        (Kind::Begin, Phase::Idle)
        | (Kind::Load | Kind::Store | Kind::Seal, Phase::Running)
        | (Kind::Drain, Phase::Sealed { .. })
        | (Kind::Back, Phase::Running | Phase::Lost(_)) => Ok(()),
        (_, Phase::Lost(_)) if kind.tells_loss() => Err(Refusal::AlreadyLost),
        _ => Err(Refusal::WrongState),
    }
}

impl Engine {
    // The thread of this number, if the set-up has it and a call of this kind may go on.
    pub(crate) fn admit(&self, kind: Kind, number: u32) -> Result<ThreadId, Refusal>
        ensures verdict { let_in result ≡ admitted (engine_view self.now) kind number }
        ensures thread { IfOk result (λ id. id.number ≡ number) }
    {
        let thread = self.set_up.thread(number)?;
        check_phase(kind, self.threads[thread].phase)?;
        Ok(thread)
    }
}
