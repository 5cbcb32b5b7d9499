ghost use Rattle.std.specs.Prelude.{⊤};

use crate::feed::Feed;
use contention::policy::Policy;
use memory::memory::Memory;
use printing::page::Page;
use session::on_engine::{OnEngine, make_engine};
use session::open_line::open_line;
use session::reply::Reply;
use session::run::{BYTES_FOR_A_LINE, MOST_BYTES};
use session::turn::answer_line;
use std::io::Write;
use stores::word_store::WordStore;

// Answers standard input, each line before the next is awaited. It is no one function with the session's, which answers a
// script in memory: what is read and printed here can fail.
// A loop needs a bound, and std says too little of a read for a measure: no script has more lines than bytes.
pub fn answer_input(rt: &HostRuntime) -> anyhow::Result<()> {
    let mut feed = Feed::open(rt)?;
    for _ in 0..=MOST_BYTES {
        let Some(line) = feed.next_line()? else {
            break;
        };
        match open_line(line) {
            Ok(opening) => return make_engine(opening, Typed { rt }, &mut feed),
            Err(reply) => say(rt, reply)?,
        }
    }
    Ok(())
}

// Prints a reply.
fn say(rt: &HostRuntime, reply: Reply) -> anyhow::Result<()> {
    let mut line = [0u8; BYTES_FOR_A_LINE];
    let mut page = Page::new(&mut line, 0);
    reply.print(&mut page);
    rt.stdout().write_all(page.written())?;
    Ok(())
}

// What is typed behind the line that makes an engine.
#[derive(Clone, Copy)]
struct Typed<'a> {
    rt: &'a HostRuntime,
}

// It is answered on the engine, each line before the next is awaited. The loop has the bound of the one above.
impl<'a> OnEngine<Feed> for Typed<'a> {
    type Outcome = anyhow::Result<()>;

    ghost does = { λ P points table moved policy w typed before after result. ⊤ };

    fn run<S: WordStore + Drop, P: Policy + Drop>(
        self,
        mut memory: Memory<S, P>,
        feed: &mut Feed,
    ) -> anyhow::Result<()> {
        say(self.rt, Reply::Points(P::points()))?;
        for _ in 0..=MOST_BYTES {
            let Some(line) = feed.next_line()? else {
                break;
            };
            say(self.rt, answer_line(&mut memory, line))?;
        }
        Ok(())
    }
}
