ghost use Rattle.std.specs.Prelude.{◌≡◌, ◌*◌, ◌≤◌, ◌++◌, length, drop, IfOk};
ghost use Rattle.session.specs.Runs.{script_answer, script_output, script_printed};
ghost use Rattle.text.specs.Lines.{lines};

use crate::console_refusal::ConsoleRefusal;
use crate::script::answer_script;
use printing::page::Page;
use text::line::line_count;

// The most bytes that a script has.
pub const MOST_BYTES: usize = 32768;

// The room that each line of a script needs in the output.
pub const BYTES_FOR_A_LINE: usize = 32;

// Answers a whole script into the output, and answers how many bytes it wrote. Bytes behind these stay as they were.
// A script that is too long, or an output that is too short for it, is refused and changes nothing.
pub fn run_script(script: &[u8], output: &mut [u8]) -> Result<usize, ConsoleRefusal>
    ensures answer { result ≡ script_answer script.now (length output.old) }
    ensures after { output.new ≡ script_output script.now output.old }
    ensures few { IfOk result (λ n. n ≤ 1048576) }
{
    if script.len() > MOST_BYTES {
        return Err(ConsoleRefusal::LongScript);
    }
    if output.len() < BYTES_FOR_A_LINE * line_count(script) {
        return Err(ConsoleRefusal::ShortOutput);
    }
    Ok(answer_whole(script, output))
}

// Answers a script that has room for its answers.
fn answer_whole(script: &[u8], output: &mut [u8]) -> usize
    requires { (length script.now ≤ 32768) × (32 * length (lines script.now) ≤ length output.old) }
    ensures count { result ≡ length (script_printed script.now) }
    ensures after { output.new ≡ script_printed script.now ++ drop (length (script_printed script.now)) output.old }
    ensures few { result ≤ 1048576 }
{
    let mut page = Page::new(output, 0);
    answer_script(script, &mut page);
    page.end()
}
