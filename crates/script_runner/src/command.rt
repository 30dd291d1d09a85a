// The words that a program is called with: `run`, and the name of a script.
use crate::input::{run_file, run_input};
use anyhow::anyhow;
use std::env;

// Performs a script: the one in a file, or on standard input where the name is `-` or absent.
fn run_script(rt: &HostRuntime, name: Option<String>) -> anyhow::Result<()> {
    match name {
        Some(name) if name.as_str() != "-" => run_file(rt, name.as_str()),
        _ => run_input(rt),
    }
}

// Does what a first word and the one after it ask for.
fn command(rt: &HostRuntime, word: &str, name: Option<String>) -> anyhow::Result<()> {
    if word == "run" {
        return run_script(rt, name);
    }
    Err(anyhow!("tonelink, tonelink run FILE or tonelink run - was expected"))
}

// Does what the words of the command line ask for, and says whether there are any.
pub fn run_words(rt: &HostRuntime) -> anyhow::Result<bool> {
    let mut words = env::args(rt)?;
    let _program = words.next();
    let Some(word) = words.next() else {
        return Ok(false);
    };
    command(rt, word.as_str(), words.next())?;
    Ok(true)
}
