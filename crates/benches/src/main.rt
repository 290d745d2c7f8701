//! Times calls on the map for one owner and on the standard library's, with one hasher, and guards of sections on threads. Each line of the input asks for
//! turns of one kind, and is answered by a sum of what was found, or by how many turns came to what they should, and on the error output by nanoseconds.
#![tactic(auto)]

mod calls;
mod maps;
mod sections;

use std::alloc::Global;
use std::io;
use std::thread::Threads;
use std::time::Clock;

fn number(word: Option<&str>) -> u64 {
    match word {
        Some(word) => word.parse().unwrap_or(0),
        None => 0,
    }
}

/// Answers a line: one of a map has the map, the kind of call, a number of keys and of turns; one of guards the kind of turn, a number of threads, of turns that
/// each of them takes, and of numbers for blocks.
fn answer<R: Clock + Threads + Sync + Print + Eprint>(
    rt: &R,
    alloc: Global,
    line: &str,
) -> io::Result<()> {
    let mut words = line.split_whitespace();
    let first = words.next().unwrap_or("");
    let (took, sum) = if first == "owned" || first == "std" {
        let kind = words.next().unwrap_or("");
        let keys = number(words.next());
        let turns = number(words.next());
        calls::timed_on(rt, alloc, first, kind, keys, turns)?
    } else {
        let threads = number(words.next());
        let turns = number(words.next());
        let numbers = number(words.next());
        sections::timed(rt, alloc, first, threads as usize, turns, numbers)?
    };
    println!(rt; "{line}: {sum}")?;
    eprintln!(rt; "{}", took.as_nanos())?;
    Ok(())
}

fn main(rt: HostRuntime) -> io::Result<()> {
    for line in rt.lines(rt.alloc()) {
        answer(&rt, rt.alloc(), line?.as_str())?;
    }
    Ok(())
}
