// `tonelink run FILE` where there is no such file: a message, and status 1.
#![tactic(auto)]

use script_runner::command::run_words;
use script_runner::input::run_input;

// With no word the script on standard input; else what the words ask for.
fn main(rt: HostRuntime) -> anyhow::Result<()> {
    if !run_words(&rt)? {
        run_input(&rt)?;
    }
    Ok(())
}
