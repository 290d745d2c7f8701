//! Runs the scripts of data files, and compares what the engine writes for each with what stands there.
//!
//! A file has cases, parted by empty lines. The first word of a line says what it is:
//!
//! - `#`, a comment;
//! - `>`, a line of the script: what stands behind the space, and a line feed;
//! - `~`, a piece of the script with no line feed behind it;
//! - `!`, a line that is told on the standard errors, and the status is 1;
//! - `%`, how the case differs from a plain one (`Case::behave`);
//! - any other, a line that is printed.
//!
//! ` | ` parts what else would be lines of their own. So what is printed for a line of the script stands behind it, or right below. `\` and two digits
//! of base 16 stand for one byte.
#![tactic(auto)]

mod case;
mod cases;
mod given;
mod meeting;
mod narrow;
mod text;

use crate::cases::cases_of;
use crate::meeting::two_meet;
use std::process::ExitCode;
use std::rt::{Env, Files};
use std::sync::Wait;
use std::thread::Threads;
use std::{fs, io};

/// Runs the cases of a file, and prints how many there are. Answers whether each came out as it stands there, and tells those that did not.
fn run_file<R: Files + AllocGlobal + Print + Eprint + Threads + Wait + Sync>(
    rt: &R,
    name: &str,
) -> io::Result<bool> {
    let text = fs::read_to_string(rt, name)?;
    let cases = cases_of(rt.alloc(), text.as_str())?;
    let mut all_right = true;
    for case in &cases {
        let ended = case.run(rt, rt.alloc())?;
        if !case.is_right(&ended) {
            all_right = false;
            ended.tell(rt, name, case.line())?;
        }
    }
    println!(rt; "{name}: {} cases", cases.len())?;
    Ok(all_right)
}

/// Runs the files that the arguments name, and two workers of a load. Answers whether there are files, each case came out as it stands there, and the workers have met.
fn run_files<R: Env + Files + AllocGlobal + Print + Eprint + Threads + Wait + Sync>(
    rt: &R,
) -> io::Result<bool> {
    let mut all_right = true;
    let mut files = 0u64;
    for name in std::env::args(rt)?.skip(1) {
        files = files.saturating_add(1);
        match run_file(rt, name.as_str()) {
            Ok(is_right) => all_right = all_right && is_right,
            Err(error) => {
                all_right = false;
                eprintln!(rt; "{name}: {error}")?;
            }
        }
    }
    if files == 0 {
        eprintln!(rt; "usage: reclaimed_tests FILE..")?;
    }
    let meet = two_meet(rt, rt.alloc())?;
    println!(rt; "two workers of a load meet: {meet}")?;
    Ok(all_right && meet && files > 0)
}

fn main(rt: HostRuntime) -> ExitCode {
    match run_files(&rt) {
        Ok(true) => ExitCode::SUCCESS,
        Ok(false) => ExitCode::FAILURE,
        Err(error) => {
            let _ = eprintln!(rt; "{error}");
            ExitCode::FAILURE
        }
    }
}
