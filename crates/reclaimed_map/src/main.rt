//! Runs a schedule of collector and map events from standard input, and prints what each answers. With the arguments `load T N` it runs threads over one shared map in place of that.
#![tactic(auto)]

use reclaimed_engine::{Output, engine};
use reclaimed_load::load;
use std::alloc::AllocError;
use std::io::{self, ErrorKind};
use std::process::ExitCode;
use std::rt::Env;

/// The arguments behind the program's name.
fn words<R: Env + AllocGlobal>(rt: &R) -> io::Result<Vec<String>> {
    let mut words = Vec::new(rt.alloc());
    for word in std::env::args(rt)?.skip(1) {
        words.push(word)?;
    }
    Ok(words)
}

fn main(rt: HostRuntime) -> ExitCode {
    let mut output = Output::new(rt.stdout());
    let mut errors = Output::new(rt.stderr());
    let ended = match words(&rt) {
        Ok(words) if words.is_empty() => {
            engine(rt.alloc(), &mut rt.reader(), &mut output, &mut errors)
        }
        Ok(words) => load(&rt, rt.alloc(), &words, &mut output, &mut errors),
        Err(error) if matches!(error.kind(), ErrorKind::InvalidData) => {
            load(&rt, rt.alloc(), &[], &mut output, &mut errors)
        }
        Err(_) => Err(AllocError),
    };
    match ended {
        Ok(status) => ExitCode::from(status),
        Err(_) => ExitCode::FAILURE,
    }
}
