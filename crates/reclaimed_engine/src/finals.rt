//! The lines of what is left at the end of a run.
ghost use Rattle.std.specs.Prelude.{◌≡◌, ◌++◌, map, OnOk, IfOk};
ghost use Rattle.std.specs.List.Sorted.{IsNonDecreasingBy, IsPermutation};
ghost use Rattle.std.specs.List.{flat_map, filter_map};
ghost use Rattle.reclaimed_engine.specs.PrintedText.Ascending.{ascending};
ghost use Rattle.run_schedules.specs.Schedules.Runs.{pair_of};
ghost use Rattle.reclaimed_engine.specs.PrintedText.Text.{by_name, entry, final_lines, map_line, name_number, tag, waiting_line};

use crate::pieces::{append_entry, append_tag, pair_of};
use run_schedules::ended::{Living, Pair};
use run_schedules::record::Run;
use run_schedules::token::Token;
use std::alloc::{AllocError, Global};

/// The pairs of these numbers, in ascending order of keys.
fn in_order<'a>(
    alloc: Global,
    run: &'a Run<u64, Token>,
    numbers: &[u64],
) -> Result<Vec<&'a Pair<u64, Token>>, AllocError>
    ensures exact { IfOk result (λ pairs. map (λ pair. pair.now) pairs.items
        ≡ ascending (λ pair. pair.key) (filter_map (pair_of run.now) numbers.now)) }

    // The same in the library's words: no pair is left out or twice, and no key falls.
    ensures complete { IfOk result (λ pairs. IsPermutation
        (filter_map (pair_of run.now) numbers.now) (map (λ pair. pair.now) pairs.items)) }
    ensures ascends { IfOk result (λ pairs. IsNonDecreasingBy (λ pair. pair.now.key) pairs.items) }
{
    let mut pairs = Vec::new(alloc);
    for number in numbers {
        if let Some(pair) = pair_of(run, *number) {
            pairs.push(pair)?;
        }
    }
    pairs.sort_by_key(|pair| pair.key)?;
    Ok(pairs)
}

/// The bytes of a name as digits of a number in base 256, of which the first has this weight.
fn name_number(weight: u128, name: &[u8]) -> u128
    ensures { result ≡ name_number weight name.now }
{
    match name.split_first() {
        None => 0,
        Some((byte, rest)) => u128::from(*byte)
            .wrapping_mul(weight)
            .wrapping_add(name_number(weight / 256, rest)),
    }
}

/// The maps in the order of their names.
fn by_name(alloc: Global, maps: &[Living]) -> Result<Vec<&Living>, AllocError>
    ensures { IfOk result (λ sorted. map (λ living. living.now) sorted.items ≡ by_name maps.now) }
{
    let mut sorted = Vec::new(alloc);
    for living in maps {
        sorted.push(living)?;
    }
    sorted.sort_by_key(|living| name_number(1 << 120, living.name.as_bytes()))?;
    Ok(sorted)
}

/// Appends a map's line.
fn append_map_line(
    alloc: Global,
    out: &mut Vec<u8>,
    run: &Run<u64, Token>,
    living: &Living,
) -> Result<(), AllocError>
    ensures { OnOk result (out.new.items ≡ out.old.items ++ map_line run.now living.now) }
{
    out.extend_from_slice(b"map ")?;
    out.extend_from_slice(living.name.as_bytes())?;
    for pair in &in_order(alloc, run, &living.pairs)? {
        append_entry(alloc, out, pair)?;
    }
    out.extend_from_slice(b"\n")
}

/// Appends the line of the pairs that wait to be reclaimed.
fn append_waiting_line(alloc: Global, out: &mut Vec<u8>, waiting: &[u64]) -> Result<(), AllocError>
    ensures { OnOk result (out.new.items ≡ out.old.items ++ waiting_line waiting.now) }
{
    out.extend_from_slice(b"waiting")?;
    for number in waiting {
        append_tag(alloc, out, *number)?;
    }
    out.extend_from_slice(b"\n")
}

/// Appends the lines of what is left at the end.
pub fn append_final_lines(
    alloc: Global,
    out: &mut Vec<u8>,
    run: &Run<u64, Token>,
) -> Result<(), AllocError>
    ensures { OnOk result (out.new.items ≡ out.old.items ++ final_lines run.now) }
{
    for living in &by_name(alloc, &run.maps)? {
        append_map_line(alloc, out, run, living)?;
    }
    append_waiting_line(alloc, out, &run.waiting)?;
    let tables = format!(in alloc; "tables {}\n", run.tables)?;
    out.extend_from_slice(tables.as_bytes())?;
    let counts = format!(in alloc; "stored {} back {}\n", run.stored, run.given_back.len())?;
    out.extend_from_slice(counts.as_bytes())
}
