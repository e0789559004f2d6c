// The program `type_text`: it reads modules, and prints the first fault of types or contracts of each.
#![tactic(auto)]

mod session;
mod texts;
mod verdict;

use crate::session::Session;
use py_base::OutOfMemory;
use std::process::ExitCode;
use std::{io, rt};

// The status where there is no memory.
const NO_MEMORY: u8 = 70;
// The status where input or output failed.
const FAULT: u8 = 74;

// Why the program ends early.
enum Stop {
    Memory,
    Io,
}

impl From<OutOfMemory> for Stop {
    fn from(_: OutOfMemory) -> Self {
        Stop::Memory
    }
}

impl From<io::Error> for Stop {
    fn from(_: io::Error) -> Self {
        Stop::Io
    }
}

fn run(rt: &HostRuntime) -> Result<(), Stop> {
    let mut session = Session::new();
    for line in rt.lines(rt.alloc()) {
        let line = line?;
        let reply = session.reply(rt.alloc(), line.as_str())?;
        rt.print(reply.as_str())?;
    }
    let reply = session.end(rt.alloc())?;
    rt.print(reply.as_str())?;
    Ok(())
}

fn main(rt: HostRuntime) -> ExitCode {
    match run(&rt) {
        Ok(()) => ExitCode::from(0),
        Err(Stop::Memory) => ExitCode::from(NO_MEMORY),
        Err(Stop::Io) => ExitCode::from(FAULT),
    }
}
