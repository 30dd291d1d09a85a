// Where a script is read from.
use crate::run::run;
use std::fs;
use std::io::Read;

// Performs the script on standard input.
pub fn run_input(rt: &HostRuntime) -> anyhow::Result<()> {
    let mut script = Vec::new(rt.alloc());
    rt.stdin().read_to_end(&mut script)?;
    run(rt, &script)
}

// Performs the script in a file.
pub fn run_file(rt: &HostRuntime, path: &str) -> anyhow::Result<()> {
    let script = fs::read(rt, path)?;
    run(rt, &script)
}
