//! The cases of a data file.
use crate::case::Case;
use std::alloc::Global;
use std::{io, mem};

/// Returns the cases that a text has, in their order.
pub fn cases_of(alloc: Global, text: &str) -> io::Result<Vec<Case>> {
    let mut cases = Vec::new(alloc);
    let mut case = Case::new(alloc);
    for (at, line) in text.lines().enumerate() {
        if !line.is_empty() {
            case.take_line(at, line)?;
        } else if case.is_begun() {
            cases.push(mem::replace(&mut case, Case::new(alloc)))?;
        }
    }
    if case.is_begun() {
        cases.push(case)?;
    }
    Ok(cases)
}
