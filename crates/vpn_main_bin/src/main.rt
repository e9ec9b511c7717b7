//! The program `vpn`: its commands over real files and the standard streams.
#![tactic(auto)]

mod files;
mod sinks;

use crate::files::HostFiles;
use crate::sinks::Stream;
use std::process::ExitCode;
use std::rt::Runtime;
use std::{env, io};
use vpn_top::{Outside, no_memory, vpn_main};

// The words after the program's name.
fn words<R: Runtime + AllocGlobal>(rt: &R) -> Result<Vec<String>, io::Error> {
    let mut words = Vec::new(rt.alloc());
    for word in env::args(rt)?.skip(1) {
        words.push(word)?;
    }
    Ok(words)
}

fn main(rt: HostRuntime) -> ExitCode {
    let errors = rt.stderr();
    let words = match words(&rt) {
        Ok(words) => words,
        Err(error) if error.kind() == io::ErrorKind::OutOfMemory => {
            let mut err = Stream::new(io::writer(&errors));
            return ExitCode::from(no_memory(rt.alloc(), &mut err));
        }
        // A word that is no text is one of no command.
        Err(_) => Vec::new(rt.alloc()),
    };
    let outside = Outside {
        files: HostFiles::new(rt.alloc(), &rt),
        out: Stream::new(io::writer(&rt)),
        err: Stream::new(io::writer(&errors)),
    };
    let (status, _) = vpn_main(rt.alloc(), words.as_slice(), outside);
    ExitCode::from(status)
}
