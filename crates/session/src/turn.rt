ghost use Rattle.memory.specs.Memories.{world};
ghost use Rattle.session.specs.Turns.{Spoke, line_turn};
ghost use Rattle.text.specs.Views.{line_view};

use crate::reply::Reply;
use contention::policy::Policy;
use forms::form::Form;
use forms::form_fault::FormFault;
use forms::read::read_form;
use memory::memory::Memory;
use stores::word_store::WordStore;
use text::line::Line;

// Answers one line of a script on a memory: makes its call, or says why there is none.
pub fn answer_line<S: WordStore, P: Policy>(memory: &mut Memory<S, P>, line: Line<'_>) -> Reply
    ensures { Spoke S.words S.home P.moved memory.old memory.new result (line_turn (P.table memory.old.policy) (world S.words memory.old) (line_view line.entry)) }
{
    match read_form(line, true) {
        Ok(Form::Call(call)) => Reply::Answered(memory.perform(call)),
        Ok(Form::Peek { stripe }) => memory.peek(stripe).map_or_else(Reply::from, Reply::Lock),
        Ok(Form::Engine(_)) => Reply::Fault(FormFault::Order),
        Err(fault) => Reply::from(fault),
    }
}
