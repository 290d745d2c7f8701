//! What is printed: the lines of a finished run, or the one line for a schedule that cannot be read.
ghost use Rattle.std.specs.Prelude.{◌≡◌, IfOk};
ghost use Rattle.reclaimed_engine.specs.PrintedText.Text as spelled;

use crate::events::append_events;
use crate::finals::append_final_lines;
use run_schedules::record::Run;
use run_schedules::token::Token;
use std::alloc::{AllocError, Global};

/// Returns all that is printed for a run: its events in their order, and what is left at the end.
pub fn text_of(alloc: Global, run: &Run<u64, Token>) -> Result<Vec<u8>, AllocError>
    ensures { IfOk result (λ text. text.items ≡ spelled.text_of run.now) }
{
    let mut out = Vec::new(alloc);
    append_events(alloc, &mut out, run)?;
    append_final_lines(alloc, &mut out, run)?;
    Ok(out)
}

/// Returns the one line that is printed for a schedule that cannot be read: the number of its line, and why.
#[tactic(auto, using(crate::proofs::PrintedText::Spelling::fault_line_parts))]
pub fn fault_line(alloc: Global, number: u64, text: &str) -> Result<Vec<u8>, AllocError>
    ensures { IfOk result (λ line. line.items ≡ spelled.fault_line number text.now) }
{
    let line = format!(in alloc; "line {number}: {text}\n")?;
    Vec::from_slice(alloc, line.as_bytes())
}
