//! Counts the words of lines in a map, and prints each with its count, in the order in which they came first.
ghost use Rattle.std.specs.Prelude.{◌≡◌, ◌+◌, ℕ, List, IfOk, OnOk, OnErr};
ghost use Rattle.std.specs.List.Sorted.{IsPermutation};
ghost use Rattle.seq_examples.specs.Counts.{IsCounted, count_of};

use papaya_seq::{Fault, HashMap, Text};
use std::alloc::Global;
use std::io;

/// How often each word came.
type Counts = HashMap<Text, u64>;

/// How often this word came. The map owns its words, and is asked with one that is lent.
fn count_of(counts: &Counts, word: &str) -> u64
    ensures count { result ≡ count_of word.now counts.now.pairs }
    ensures in_any_order { (pairs : List (List ℕ × ℕ)) → IsPermutation counts.now.pairs pairs → result ≡ count_of word.now pairs }
{
    counts.get(&word).copied().unwrap_or(0)
}

/// Counts this word once more, and answers what is found of it then. A count past 64 bits is `Fault::Capacity`, too. After a fault each count is as before.
fn count(counts: &mut Counts, alloc: Global, word: &str) -> Result<u64, Fault>
    ensures found { IfOk result (λ count. count ≡ count_of word.now counts.new.pairs) }
    ensures one_more { IfOk result (λ count. count ≡ count_of word.now counts.old.pairs + 1) }
    ensures counted { OnOk result (IsCounted word.now counts.old.pairs counts.new.pairs) }
    ensures refused { OnErr result (IsPermutation counts.new.pairs counts.old.pairs) }
{
    let Some(count) = count_of(counts, word).checked_add(1) else {
        return Err(Fault::Capacity);
    };
    counts.insert(Text::new(alloc, word)?, count)?;
    Ok(count_of(counts, word))
}

/// Counts the words of these lines, and answers each, in the order in which they came first.
fn read(alloc: Global, counts: &mut Counts, lines: &[String]) -> io::Result<Vec<String>> {
    let mut words = Vec::new(alloc);
    for line in lines {
        for word in line.as_str().split_whitespace() {
            if count(counts, alloc, word)? == 1 {
                words.push(String::from_str(alloc, word)?)?;
            }
        }
    }
    Ok(words)
}

/// Prints these words with their counts, and how many there are.
fn print<R: Print>(rt: &R, counts: &Counts, words: &[String]) -> io::Result<()> {
    for word in words {
        println!(rt; "{word} {}", count_of(counts, word.as_str()))?;
    }
    println!(rt; "{} words", counts.len())?;
    Ok(())
}

/// Counts the words of these lines, and prints them.
pub(crate) fn run<R: Print>(rt: &R, alloc: Global, lines: &[String]) -> io::Result<()> {
    let mut counts = Counts::new(alloc)?;
    let words = read(alloc, &mut counts, lines)?;
    print(rt, &counts, words.as_slice())
}
