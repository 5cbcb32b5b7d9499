ghost use Rattle.std.specs.Prelude.{◌≡◌, ◌≤◌, length};
ghost use Rattle.printing.specs.Pages.{Printed};
ghost use Rattle.rules.specs.declared.answer.Answer.TheVariants.{Refused};
ghost use Rattle.session.specs.Lengths.{Brief};
ghost use Rattle.session.specs.Replies.{answer_text, fault_layer, reply_text};
ghost use Rattle.session.specs.declared.reply.Reply.TheVariants.{Answered, EngineRefused, Fault};

use crate::console_refusal::ConsoleRefusal;
use common::refusal::Refusal;
use contention::policy::Points;
use forms::form_fault::FormFault;
use printing::page::Page;
use rules::answer::Answer;
use rules::ending::Sealed;

// What a line of a script is answered.
#[derive(Clone, Copy, PartialEq, Eq, Debug)]
pub enum Reply {
    // What a call answered, or why a form was refused.
    Answered(Answer),
    // Why the console refused an engine form whose set-up is right.
    EngineRefused(ConsoleRefusal),
    // The points of a new engine's policy.
    Points(Points),
    // The lock word of a stripe.
    Lock(u64),
    // The line is no form, or one that does not belong there.
    Fault(FormFault),
}

// A refusal of the memory is what a call answered.
impl From<Refusal> for Reply {
    ghost from_gives = { λ refusal reply. reply ≡ Answered (Refused refusal) };

    fn from(refusal: Refusal) -> Reply {
        Reply::Answered(Answer::Refused(refusal))
    }
}

// A refusal of the console is one of an engine form.
impl From<ConsoleRefusal> for Reply {
    ghost from_gives = { λ refusal reply. reply ≡ EngineRefused refusal };

    fn from(console_refusal: ConsoleRefusal) -> Reply {
        Reply::EngineRefused(console_refusal)
    }
}

// A fault is answered as it is.
impl From<FormFault> for Reply {
    ghost from_gives = { λ fault reply. reply ≡ Fault fault };

    fn from(form_fault: FormFault) -> Reply {
        Reply::Fault(form_fault)
    }
}

impl Reply {
    // Prints the reply as a line.
    #[tactic(auto, using(crate::proofs::Lengths::fault_brief))]
    pub fn print(self, page: &mut Page<'_>)
        ensures printed { Printed (reply_text self) page.old page.new }
        ensures brief { Brief self (reply_text self) }
    {
        match self {
            Reply::Answered(answer) => print_answer(answer, page),
            Reply::EngineRefused(refusal) => page.print_form(b"refused", &[refusal.number()]),
            Reply::Points(Points { load, take }) => page.print_form(b"points", &[load, take]),
            Reply::Lock(bits) => page.print_form(b"lock", &[bits]),
            Reply::Fault(fault) => {
                let numbers = [u64::from(fault.number()), fault.column() as u64];
                page.print_form(layer(fault), &numbers)
            }
        }
    }
}

// Prints what a call answered.
fn print_answer(answer: Answer, page: &mut Page<'_>)
    ensures printed { Printed (answer_text answer) page.old page.new }
    ensures brief { length (answer_text answer) ≤ 31 }
{
    match answer {
        Answer::Done => page.print_form::<u32>(b"ok", &[]),
        Answer::Word(word) => page.print_form(b"word", &[word]),
        Answer::Sealed(Sealed::Reader { snapshot }) => page.print_form(b"read", &[snapshot]),
        Answer::Sealed(Sealed::Updater { ticket }) => page.print_form(b"sealed", &[ticket]),
        Answer::Left(left) => page.print_form(b"left", &[left]),
        Answer::Back(ending) => page.print_form(b"back", &[ending.cause(), ending.detail()]),
        Answer::Refused(refusal) => page.print_form(b"refused", &[refusal.number()]),
        Answer::Lost(loss) => page.print_form(b"lost", &[loss.cause(), loss.detail()]),
    }
}

// The layer that found a fault.
fn layer(fault: FormFault) -> &'static [u8]
    ensures { result.now ≡ fault_layer fault }
{
    match fault {
        FormFault::Text(_) => b"fault text",
        FormFault::Name { .. } | FormFault::Item { .. } | FormFault::Order => b"fault form",
    }
}
