//! Gives each word of lines a number, and prints each line in numbers; then the numbers of all words as JSON, which it reads back.
ghost use Rattle.std.specs.Prelude.{◌≡◌, ℕ, Ok, OnErr, IfOk, None, Some};
ghost use Rattle.std.specs.List.Sorted.{IsPermutation};
ghost use Rattle.seq_examples.specs.Numbers.{number_of, HasNext};

use papaya_seq::{Fault, FromJson, HashMap, Text, ToJson};
use serde_json::Value;
use std::alloc::Global;
use std::io;

/// The number of each word.
type Numbers = HashMap<Text, u64>;

/// The number of this word: the one that it has, or else the next one, which it then has. After a fault each word has the number that it had.
fn intern(numbers: &mut Numbers, alloc: Global, word: &str) -> Result<u64, Fault>
    ensures known { (number : ℕ) → number_of word.now numbers.old.pairs ≡ Some number → (result ≡ Ok number) × (numbers.new.pairs ≡ numbers.old.pairs) }
    ensures next { number_of word.now numbers.old.pairs ≡ None → IfOk result (λ number. HasNext word.now number numbers.old.pairs numbers.new.pairs) }
    ensures refused { OnErr result (IsPermutation numbers.new.pairs numbers.old.pairs) }
{
    // The map owns its words, and is asked with one that is lent.
    if let Some(number) = numbers.get(&word).copied() {
        return Ok(number);
    }
    let next = numbers.len();
    numbers.insert(Text::new(alloc, word)?, next)?;
    Ok(next)
}

/// The numbers of the words of a line, with spaces between them.
fn in_numbers(numbers: &mut Numbers, alloc: Global, line: &str) -> io::Result<String> {
    let mut text = String::new(alloc);
    for word in line.split_whitespace() {
        if !text.is_empty() {
            text.push(' ')?;
        }
        let number = intern(numbers, alloc, word)?;
        text.push_str(number.to_string(alloc)?.as_str())?;
    }
    Ok(text)
}

/// Whether a text of JSON has just these numbers.
fn is_of(alloc: Global, text: &str, numbers: &Numbers) -> io::Result<bool> {
    let value = Value::from_str(alloc, text).map_err(|_| io::Error::other("this is no JSON"))?;
    let read = Numbers::from_value(alloc, &value).map_err(|_| io::Error::other("this is no map"))?;
    Ok(read == *numbers)
}

/// Prints all numbers as JSON, and whether the same are read back.
fn print_all<R: Print>(rt: &R, alloc: Global, numbers: &Numbers) -> io::Result<()> {
    let text = numbers.to_value(alloc)?.to_string(alloc)?;
    println!(rt; "{text}")?;
    let same = is_of(alloc, text.as_str(), numbers)?;
    println!(rt; "{} words, the same are read back: {same}", numbers.len())?;
    Ok(())
}

/// Prints the lines in numbers, and then all of these.
pub(crate) fn run<R: Print>(rt: &R, alloc: Global, lines: &[String]) -> io::Result<()> {
    let mut numbers = Numbers::new(alloc)?;
    for line in lines {
        println!(rt; "{}", in_numbers(&mut numbers, alloc, line.as_str())?)?;
    }
    print_all(rt, alloc, &numbers)
}
