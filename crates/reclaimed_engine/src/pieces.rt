//! The pair of a number, and its text.
ghost use Rattle.std.specs.Prelude.{◌≡◌, ◌++◌, OnOk};
ghost use Rattle.std.specs.Option.{option_copied};
ghost use Rattle.run_schedules.specs.Schedules.Runs.{pair_of};
ghost use Rattle.reclaimed_engine.specs.PrintedText.Text.{entry, numbered, tag};

use run_schedules::ended::Pair;
use run_schedules::record::Run;
use run_schedules::token::Token;
use std::alloc::{AllocError, Global};

/// Returns the stored pair of this number, or none where the run stored fewer.
pub fn pair_of(run: &Run<u64, Token>, number: u64) -> Option<&Pair<u64, Token>>
    ensures { option_copied result ≡ pair_of run.now number }
{
    match run.given_back.find(number) {
        Some(pair) => Some(pair),
        None => run.kept.find(number),
    }
}

/// Appends the number of a pair.
pub fn append_tag(alloc: Global, out: &mut Vec<u8>, number: u64) -> Result<(), AllocError>
    ensures { OnOk result (out.new.items ≡ out.old.items ++ tag number) }
{
    let tag = format!(in alloc; " #{number}")?;
    out.extend_from_slice(tag.as_bytes())
}

/// Appends the number, the key and the value of a pair.
pub fn append_numbered(
    alloc: Global,
    out: &mut Vec<u8>,
    run: &Run<u64, Token>,
    number: u64,
) -> Result<(), AllocError>
    ensures { OnOk result (out.new.items ≡ out.old.items ++ numbered run.now number) }
{
    append_tag(alloc, out, number)?;
    if let Some(pair) = pair_of(run, number) {
        let key = format!(in alloc; " {} ", pair.key)?;
        out.extend_from_slice(key.as_bytes())?;
        out.extend_from_slice(pair.value.as_bytes())?;
    }
    Ok(())
}

/// Appends a pair as a map's line has it.
pub fn append_entry(
    alloc: Global,
    out: &mut Vec<u8>,
    pair: &Pair<u64, Token>,
) -> Result<(), AllocError>
    ensures { OnOk result (out.new.items ≡ out.old.items ++ entry pair.now) }
{
    let key = format!(in alloc; " {}:", pair.key)?;
    out.extend_from_slice(key.as_bytes())?;
    out.extend_from_slice(pair.value.as_bytes())
}
