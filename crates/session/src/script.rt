ghost use Rattle.printing.specs.Pages.{Printed};
ghost use Rattle.session.specs.Answering.{AnswersOn};
ghost use Rattle.session.specs.Lengths.{BriefLines};
ghost use Rattle.session.specs.Scripts.{script_text};
ghost use Rattle.text.specs.Lines.{lines};

use crate::on_engine::{OnEngine, make_engine};
use crate::open_line::open_line;
use crate::reply::Reply;
use crate::turn::answer_line;
use contention::policy::Policy;
use memory::memory::Memory;
use printing::page::Page;
use stores::word_store::WordStore;
use text::line::Lines;

// Answers a script on a page, line by line: before an engine is made, and then on it.
// An engine takes the lines that are left, so no `for` has them.
pub(crate) fn answer_script(script: &[u8], page: &mut Page<'_>)
    ensures printed { Printed (script_text (lines script.now)) page.old page.new }
    ensures brief { BriefLines 0 script.now (script_text (lines script.now)) }
{
    let mut lines = Lines::new(script);
    while let Some(line) = lines.next() {
        match open_line(line) {
            Ok(opening) => return make_engine(opening, lines, page),
            Err(reply) => reply.print(page),
        }
    }
}

// The lines of a script that are left, on an engine: its policy's points are printed, and then what each line is answered.
impl<'s, 'o> OnEngine<Page<'o>> for Lines<'s> {
    type Outcome = ();

    ghost does = { AnswersOn };

    fn run<S: WordStore + Drop, P: Policy + Drop>(
        self,
        mut memory: Memory<S, P>,
        page: &mut Page<'o>,
    ) {
        Reply::Points(P::points()).print(page);
        for line in self {
            answer_line(&mut memory, line).print(page);
        }
    }
}
