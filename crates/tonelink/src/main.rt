// The program: a walk-through, or a script.
#![tactic(auto)]

mod answer;
mod station;
mod walk;

use script_runner::command::run_words;
use walk::walk;

// With no word the walk-through; else what the words ask for.
fn main(rt: HostRuntime) -> anyhow::Result<()> {
    if !run_words(&rt)? {
        walk(&rt)?;
    }
    Ok(())
}
