// The console for programs in other languages: one call on byte buffers.
#![tactic(auto)]

ghost use Rattle.std.specs.Prelude.{◌≡◌, length};
ghost use Rattle.lomkashe.specs.Signed.{length_or_refusal};
ghost use Rattle.session.specs.Runs.{script_answer, script_output};

use session::run::run_script;

// Answers a script into the output. Returns how many bytes it wrote, or the number of a refusal, negated: one number, since
// C has no Result.
#[unsafe(no_mangle)]
pub extern "C" fn lomkashe_run(script: &[u8], output: &mut [u8]) -> i64
    ensures answer { result ≡ length_or_refusal (script_answer script.now (length output.old)) }
    ensures after { output.new ≡ script_output script.now output.old }
{
    match run_script(script, output) {
        Ok(written) => written as i64,
        Err(refusal) => -i64::from(refusal.number()),
    }
}
