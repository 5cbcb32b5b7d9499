ghost use Rattle.std.specs.Prelude.{◌≡◌};
ghost use Rattle.session.specs.Openings.{engine_opening, opening};
ghost use Rattle.session.specs.SetUps.{set_up_of};
ghost use Rattle.text.specs.Views.{line_view};

use crate::console_refusal::ConsoleRefusal;
use crate::opening::{MOST_WORDS, Opening};
use crate::reply::Reply;
use common::refusal::Refusal;
use forms::form::{EngineForm, Form};
use forms::form_fault::FormFault;
use forms::read::read_form;
use layout::set_up::SetUp;
use text::line::Line;

// What a line does before there is an engine: it makes one, or is answered and makes none.
pub fn open_line(line: Line<'_>) -> Result<Opening, Reply>
    ensures { result ≡ opening (line_view line.entry) }
{
    match read_form(line, false)? {
        Form::Engine(engine) => open_engine(engine),
        _ => Err(Reply::Fault(FormFault::Order)),
    }
}

// The engine that a form asks for, or why there is none.
fn open_engine(engine: EngineForm) -> Result<Opening, Reply>
    ensures { result ≡ engine_opening engine }
{
    let set_up = set_up_of(engine)?;
    if engine.words > MOST_WORDS {
        return Err(Reply::from(ConsoleRefusal::WordCount));
    }
    Ok(Opening { set_up, engine })
}

// The set-up of an engine form.
fn set_up_of(engine: EngineForm) -> Result<SetUp, Refusal>
    ensures { result ≡ set_up_of engine.threads engine.stripes engine.shift engine.limit }
{
    SetUp::new(engine.threads, engine.stripes, engine.shift, engine.limit)
}
