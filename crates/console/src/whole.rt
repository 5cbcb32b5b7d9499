use session::run::{BYTES_FOR_A_LINE, MOST_BYTES, run_script};
use std::fs;
use std::io::Write;
use text::line::line_count;

// Why a script past the limit is refused.
pub const TOO_LONG: &str = "refused (51): a script has at most 32768 bytes";

// Answers the script in a file; one past the limit is refused whole.
// The room is made here, since the crates below the programs allocate nothing.
pub fn answer_file(rt: &HostRuntime, path: &str) -> anyhow::Result<()> {
    let script = fs::read(rt, path)?;
    if script.len() > MOST_BYTES {
        return Err(anyhow::Error::msg(TOO_LONG));
    }
    let room = line_count(&script).saturating_mul(BYTES_FOR_A_LINE);
    let mut output = vec![in rt.alloc(); 0u8; room]?;
    let end = run_script(&script, &mut output).map_err(|_| anyhow::Error::msg(TOO_LONG))?;
    output.truncate(end);
    rt.stdout().write_all(&output)?;
    Ok(())
}
