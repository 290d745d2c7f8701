//! Says of the runner what schedules came to, a line each: what each of their events comes to and does, calls that are refused memory, and crews whose drivers are on threads, or
//! list what did not happen so. Ends with an error where one line is not so.
#![tactic(auto)]

mod beside;
mod crews;
mod deeds;
mod refused;
mod rows;
mod schedules;
mod steps;
mod wrong;

use papaya_steps::Fault;
use rows::{MODES, ROWS};
use schedules::SCHEDULES;
use std::io;

type Told<T> = Result<T, Fault>;

/// Prints whether this is so, or why that can't be said.
fn tells<R: Print>(rt: &R, what: &str, number: usize, is_so: Told<bool>) -> io::Result<bool> {
    match is_so {
        Ok(is_so) => println!(rt; "{what} {number}: {is_so}")?,
        Err(fault) => println!(rt; "{what} {number}: {fault}")?,
    }
    Ok(matches!(is_so, Ok(true)))
}

fn main(rt: HostRuntime) -> io::Result<()> {
    let alloc = rt.alloc();
    let mut all = true;
    for (number, schedule) in SCHEDULES.iter().enumerate() {
        all = tells(&rt, "schedule", number, schedules::holds(alloc, schedule))? && all;
    }
    for (number, row) in ROWS.iter().enumerate() {
        all = tells(
            &rt,
            "calls that are refused memory",
            number,
            refused::calls(alloc, row),
        )? && all;
    }
    for (number, mode) in MODES.iter().enumerate() {
        all = tells(
            &rt,
            "makings that are refused memory",
            number,
            refused::makings(alloc, *mode),
        )? && all;
    }
    all = tells(&rt, "drivers on threads", 2, crews::meet(&rt, alloc))? && all;
    all = tells(&rt, "wrong drivers", 1, crews::finds_the_wrong(&rt, alloc))? && all;
    if all {
        return Ok(());
    }
    Err(io::Error::other("a line is not so"))
}
