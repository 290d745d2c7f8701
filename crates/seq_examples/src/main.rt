//! Programs to learn from, over a map for one owner, each with clauses of its own. A line of the input with `#` before a program's name begins what it reads: words that are counted,
//! places of a sequence, lines that become numbers, or what is done with sessions.
#![tactic(auto)]

mod interner;
mod memo_table;
mod session_registry;
mod word_count;

use std::alloc::Global;
use std::io;

/// Runs the program of this name on these lines.
fn runs<R: Print>(rt: &R, alloc: Global, name: &str, lines: &[String]) -> io::Result<()> {
    println!(rt; "# {name}")?;
    match name {
        "word_count" => word_count::run(rt, alloc, lines),
        "memo_table" => memo_table::run(rt, alloc, lines),
        "interner" => interner::run(rt, alloc, lines),
        "session_registry" => session_registry::run(rt, alloc, lines),
        _ => Err(io::Error::other("word_count, memo_table, interner, session_registry")),
    }
}

fn main(rt: HostRuntime) -> io::Result<()> {
    let alloc = rt.alloc();
    let (mut name, mut lines) = (String::new(alloc), Vec::new(alloc));
    for line in rt.lines(alloc) {
        let line = line?;
        match line.as_str().strip_prefix("# ") {
            Some(next) => {
                if !name.is_empty() {
                    runs(&rt, alloc, name.as_str(), lines.as_slice())?;
                }
                (name, lines) = (String::from_str(alloc, next)?, Vec::new(alloc));
            }
            None => lines.push(line)?,
        }
    }
    runs(&rt, alloc, name.as_str(), lines.as_slice())
}
