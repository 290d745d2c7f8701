//! Each call on a memory that threads share that asks for memory: where it is refused, nothing has changed, and it is made again, and done then. And a thousand sections, in each
//! of which a value is retired: none of that asks for memory.
ghost use Rattle.std.specs.Prelude.{◌≡◌, None, Some, IfOk};

use crate::CHOSEN;
use seize::Fault;
use seize::rows::Defers;
use seize_blocks::{Blocks, Home};
use seize_shared::{Guard, LocalGuard, OfRows, Registration, RootGuard};
use std::alloc::{AllocError, Global};
use std::io;

/// How many values are put, all of which are there at once: the memory begins with fewer numbers for blocks.
const VALUES: u64 = 9;

/// How many slots are taken at once: the first bucket has fewer.
const SLOTS: u64 = 40;

/// A number, which keeps a list at this word of its block.
#[derive(Drop)]
struct Listed {
    number: u64,
    field: u64,
}

impl Defers for Listed {
    ghost defers = { λ x. Some x.field };

    fn deferred(&self) -> Option<u64> {
        Some(self.field)
    }
}

/// How many sections are opened and ended one after another.
const SECTIONS: u64 = 1_000;

/// A number without a list, whose block has no words of its own.
#[derive(Drop)]
struct Plain(u64);

impl Defers for Plain {
    ghost defers = { λ _. None };

    fn deferred(&self) -> Option<u64> {
        None
    }
}

/// A memory that begins with one number for a block.
fn open(alloc: Global) -> Result<Home<Listed, OfRows>, AllocError>
    ensures { IfOk result (λ home. home.blocks.words.fixed ≡ record { batch_size = 5; roots = 1; chains = 0 }) }
{
    Home::<Listed, OfRows>::open(alloc, 1, 1, &CHOSEN)
}

/// Such a memory, also where one request is refused.
fn opens(alloc: Global) -> Result<Home<Listed, OfRows>, AllocError>
    ensures { IfOk result (λ home. home.blocks.words.fixed ≡ record { batch_size = 5; roots = 1; chains = 0 }) }
{
    match open(alloc) {
        Ok(home) => Ok(home),
        Err(_) => open(alloc),
    }
}

/// The next slot.
fn registers<T: Defers + Drop>(blocks: &Blocks<T, OfRows>) -> Result<Registration<'_, T>, Fault>
    requires { blocks.now.words.fixed ≡ record { batch_size = 5; roots = 1; chains = 0 } }
{
    match Registration::new(blocks, &CHOSEN) {
        Err(Fault::Memory) => Registration::new(blocks, &CHOSEN),
        answer => answer,
    }
}

/// The number that is seen at the root, 0 for none.
fn sees(guard: &mut LocalGuard<'_, '_, Listed>) -> u64 {
    guard.see(0);
    match guard.value() {
        Some(value) => value.number,
        None => 0,
    }
}

/// Puts a number in the place of the one before, whose value has words of its own; tells whether it is there. Where it came back, the one before was there
/// still.
fn puts(guard: &mut LocalGuard<'_, '_, Listed>, number: u64) -> bool {
    match guard.put(0, Listed { number, field: 2 }) {
        Ok(()) => sees(guard) == number,
        Err(back) => {
            let same = back.number == number && sees(guard) == u64::wrapping_sub(number, 1);
            same && guard.put(0, back).is_ok() && sees(guard) == number
        }
    }
}

/// Puts numbers one after another within one section, so that none of their values is reclaimed.
fn values(alloc: Global) -> Result<bool, AllocError> {
    let home = opens(alloc)?;
    let Ok(mut registration) = registers(&home.blocks) else {
        return Ok(false);
    };
    let mut guard = registration.enter();
    let mut are_there = true;
    for number in 1..VALUES + 1 {
        are_there = puts(&mut guard, number) && are_there;
    }
    Ok(are_there)
}

/// Room for so many slots.
fn room<'a>(alloc: Global) -> Result<Vec<Registration<'a, Listed>>, AllocError> {
    match Vec::with_capacity(alloc, SLOTS as usize) {
        Ok(room) => Ok(room),
        Err(_) => Vec::with_capacity(alloc, SLOTS as usize),
    }
}

/// Takes slots, one after another, all of which are taken at once; tells whether each is the next one.
fn slots(alloc: Global) -> Result<bool, AllocError> {
    let home = opens(alloc)?;
    let mut all = room(alloc)?;
    let mut are_next = true;
    for slot in 0..SLOTS {
        let Ok(mut registration) = registers(&home.blocks) else {
            return Ok(false);
        };
        are_next = registration.enter().thread_id() == slot && are_next;
        all.push(registration)?;
    }
    Ok(are_next)
}

/// A memory for numbers without lists, with enough numbers for their blocks.
fn open_plain(alloc: Global) -> Result<Home<Plain, OfRows>, AllocError>
    ensures { IfOk result (λ home. home.blocks.words.fixed ≡ record { batch_size = 5; roots = 1; chains = 0 }) }
{
    Home::<Plain, OfRows>::open(alloc, 1, 64, &CHOSEN)
}

/// Such a memory, also where one request is refused.
fn opens_plain(alloc: Global) -> Result<Home<Plain, OfRows>, AllocError>
    ensures { IfOk result (λ home. home.blocks.words.fixed ≡ record { batch_size = 5; roots = 1; chains = 0 }) }
{
    match open_plain(alloc) {
        Ok(home) => Ok(home),
        Err(_) => open_plain(alloc),
    }
}

/// A section, in which the number at the root is seen, and another one is put in its place: that is retired. Tells whether the one before was seen.
fn section(registration: &mut Registration<'_, Plain>, number: u64) -> bool {
    let mut guard = registration.enter();
    guard.see(0);
    let was = match guard.value() {
        Some(value) => value.0,
        None => 0,
    };
    was == u64::wrapping_sub(number, 1) && guard.put(0, Plain(number)).is_ok()
}

/// Sections one after another; batches are reclaimed meanwhile. The last one tries its batch, whatever its length.
fn sections(alloc: Global) -> Result<bool, AllocError> {
    let home = opens_plain(alloc)?;
    let Ok(mut registration) = registers(&home.blocks) else {
        return Ok(false);
    };
    let mut are_put = true;
    for number in 1..SECTIONS + 1 {
        are_put = section(&mut registration, number) && are_put;
    }
    registration.flush();
    Ok(are_put)
}

/// How it went, in a word.
fn word(so: Result<bool, AllocError>) -> &'static str {
    match so {
        Ok(true) => "done",
        _ => "wrong",
    }
}

/// Says of each how it went.
pub(crate) fn calls<R: Print>(rt: &R, alloc: Global) -> io::Result<()> {
    let went = word(values(alloc));
    println!(rt; "values with words of their own, more than the memory has numbers for: {went}")?;
    println!(rt;
        "more slots than the first bucket has: {}",
        word(slots(alloc))
    )?;
    println!(rt;
        "a thousand sections, each with a retirement: {}",
        word(sections(alloc))
    )
}
