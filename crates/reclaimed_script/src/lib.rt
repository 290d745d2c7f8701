//! The language of scripts: from the bytes of a script to its events; and how a program writes what it has to say.
#![tactic(auto)]

mod callers;
mod calls;
pub mod fault;
mod guards;
mod kinds;
mod line;
mod maps;
pub mod output;
pub mod parser;
pub mod reading;
mod replies;
pub mod setup;
mod words;

pub use fault::{LineFault, ScriptStop};
pub use kinds::number_between;
pub use output::{Output, append_number_line, append_refused_line, print};
pub use parser::Script;
pub use reading::read;
pub use setup::{hasher_of, setup_of};
