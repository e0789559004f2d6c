// The program `condition_text`: it reads conditions, and prints what the prover answers of each. With the word
// `short` it prints one word for each.
#![tactic(auto)]

mod nodes;
mod replying;
mod session;
mod texts;

use crate::session::Session;
use py_base::OutOfMemory;
use std::alloc::Global;
use std::process::ExitCode;
use std::{env, io, rt};

// The status where there is no memory.
const NO_MEMORY: u8 = 70;
// The status where input or output failed.
const FAULT: u8 = 74;

// Why the program ends early.
enum Fault {
    Memory,
    Io,
}

impl From<OutOfMemory> for Fault {
    fn from(_: OutOfMemory) -> Self {
        Fault::Memory
    }
}

impl From<io::Error> for Fault {
    fn from(_: io::Error) -> Self {
        Fault::Io
    }
}

// Whether the first word after the program's name is `short`.
fn is_short<R: rt::Env + Alloc<A = Global>>(rt: &R) -> bool {
    match env::args(rt) {
        Ok(args) => {
            for word in args.skip(1) {
                return word.as_str() == "short";
            }
            false
        }
        Err(_) => false,
    }
}

fn run(rt: &HostRuntime) -> Result<(), Fault> {
    let mut session = Session::new(is_short(rt));
    for line in rt.lines(rt.alloc()) {
        let line = line?;
        let reply = session.reply(rt.alloc(), line.as_str())?;
        rt.print(reply.as_str())?;
    }
    let reply = session.end(rt.alloc())?;
    rt.print(reply.as_str())?;
    Ok(())
}

fn main(rt: HostRuntime) -> ExitCode {
    match run(&rt) {
        Ok(()) => ExitCode::from(0),
        Err(Fault::Memory) => ExitCode::from(NO_MEMORY),
        Err(Fault::Io) => ExitCode::from(FAULT),
    }
}
