//! Makes each call on maps and sets for one owner that asks for memory. Where it is refused, nothing has changed, and it is made again, and done then. The
//! gate has this program run once for each request for memory, with that one refused: each time it prints the same. And tests of the map, the set and their
//! JSON: examples that were worked by hand, and what no clause says.
#![tactic(auto)]

#[cfg(test)]
mod answers;
#[cfg(test)]
mod conveniences;
#[cfg(test)]
mod forms;
#[cfg(test)]
mod json;
mod maps;
#[cfg(test)]
mod one_hash;
mod rows;
mod sets;
#[cfg(test)]
mod shown;
mod texts;

use papaya_seq::{Fault, JsonFault};
use rows::{ROWS, Row};
use std::alloc::Global;
use std::io;

/// Whether a call goes as its row says, or why it can't be made, or what it makes is not there.
fn goes_so(alloc: Global, row: Row) -> Result<bool, JsonFault> {
    match row.on {
        "map" | "new-map" => Ok(maps::goes_so(alloc, row)?),
        "set" | "new-set" => Ok(sets::goes_so(alloc, row)?),
        "map-of-texts" => texts::map_goes_so(alloc, row.call),
        "set-of-texts" => texts::set_goes_so(alloc, row.call),
        _ => Ok(false),
    }
}

/// How a call goes, in a word. One request alone is refused, so what was refused for want of memory is done the second time.
fn word(alloc: Global, row: Row) -> &'static str {
    let mut so = goes_so(alloc, row);
    if so == Err(JsonFault::Refused(Fault::Memory)) {
        so = goes_so(alloc, row);
    }
    if so == Ok(true) { "done" } else { "wrong" }
}

fn main(rt: HostRuntime) -> io::Result<()> {
    for row in ROWS.lines() {
        println!(rt; "{row}: {}", word(rt.alloc(), Row::read(row)))?;
    }
    Ok(())
}
