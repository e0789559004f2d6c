// The program `nagini`: the top call over the words, the files and the output of the system.
#![tactic(auto)]

use io_edge::{RealFiles, RealSink};
use nagini_cli::nagini;
use std::alloc::{AllocError, Global};
use std::process::ExitCode;
use std::{env, io, rt};

// The status where there is no memory for the words.
const NO_MEMORY: u8 = 70;

// The words after the program's name, or none where one of them is no text: these are no command.
fn words_of<R: rt::Env + Alloc<A = Global>>(rt: &R) -> Result<Vec<String>, AllocError> {
    let mut words = Vec::new(rt.alloc());
    match env::args(rt) {
        Ok(args) => {
            for word in args.skip(1) {
                words.push(word)?;
            }
        }
        Err(e) => {
            if e.kind() == io::ErrorKind::OutOfMemory {
                return Err(AllocError);
            }
        }
    }
    Ok(words)
}

fn main(rt: HostRuntime) -> ExitCode {
    let Ok(words) = words_of(&rt) else {
        return ExitCode::from(NO_MEMORY);
    };
    let mut files = RealFiles::new(&rt);
    let mut out = RealSink::new(io::writer(&rt));
    ExitCode::from(nagini(rt.alloc(), &words, &mut files, &mut out))
}
