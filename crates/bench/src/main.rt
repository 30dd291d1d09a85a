// Measures products, the greatest common divisor of a row, frames and blocks, and writes what each comes to, which the gate compares; with
// the word `time`, also how long each took.
#![tactic(auto)]

mod designs;
mod measure;
mod products;
mod rows;

use designs::run_designs;
use measure::Bench;
use products::run_products;
use rows::run_rows;
use tones::Tone;
use towers::Byte;

fn main(rt: HostRuntime) -> anyhow::Result<()> {
    let bench = Bench::start(&rt)?;
    run_products(&bench)?;
    run_rows(&bench)?;
    let heap = rt.alloc();
    run_designs::<Tone>(&bench, heap, "frames over tones")?;
    run_designs::<Byte>(&bench, heap, "frames over bytes")
}
