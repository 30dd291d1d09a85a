// How measurements are printed.
use std::time::Instant;
use std::{env, fmt, io};

// Prints answers, and the times where the word `time` asks for them.
#[derive(Drop)]
pub struct Bench<'a> {
    rt: &'a HostRuntime,
    timed: bool,
}

impl<'a> Bench<'a> {
    // Reads the program's words.
    pub fn start(rt: &'a HostRuntime) -> io::Result<Bench<'a>> {
        let timed = env::args(rt)?.any(|word| word.as_str() == "time");
        Ok(Bench { rt, timed })
    }

    // Prints what a call gives, and where asked how long it took.
    pub fn measure<T: fmt::Display + Drop, C: FnOnce() -> Option<T>>(
        &self,
        name: &str,
        call: C,
    ) -> io::Result<()>
        requires { C.pre call }
    {
        let start = Instant::now(self.rt)?;
        match call() {
            Some(answer) => println!(self.rt; "{name}: {answer}")?,
            None => println!(self.rt; "{name}: refused")?,
        }
        if self.timed {
            let micros = start.elapsed(self.rt)?.as_micros();
            println!(self.rt; "{name}: {micros} microseconds")?;
        }
        Ok(())
    }

    // Prints a heading.
    pub fn heading<T: fmt::Display + Drop>(&self, text: T) -> io::Result<()> {
        println!(self.rt; "{text}")
    }
}
