use crate::whole::TOO_LONG;
use session::run::MOST_BYTES;
use std::alloc::Global;
use std::io::{BufRead, BufReader, Read, Stdin, Take};
use text::line::{Line, Lines};

// Standard input, line by line. A script past the limit is refused as soon as it has come in.
#[derive(Drop)]
pub struct Feed {
    input: BufReader<Take<Stdin>>,
    line: Vec<u8>,
}

impl Feed {
    // Nothing has come in yet. It may fail, since it makes the room in which it reads.
    pub(crate) fn open(rt: &HostRuntime) -> anyhow::Result<Feed> {
        let most = MOST_BYTES + 1;
        Ok(Feed {
            input: BufReader::with_capacity(rt.alloc(), most, rt.stdin().take(most as u64))?,
            line: Vec::new(rt.alloc()),
        })
    }

    // Reads on until the next line is whole or the input ends; none if nothing is left.
    pub(crate) fn next_line(&mut self) -> anyhow::Result<Option<Line<'_>>> {
        self.line.clear();
        self.input.read_until(b'\n', &mut self.line)?;
        if self.input.get_ref().limit() == 0 {
            return Err(anyhow::Error::msg(TOO_LONG));
        }
        Ok(Lines::new(&self.line).next())
    }
}
