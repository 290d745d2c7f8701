//! Prints numbers of the Fibonacci sequence, modulo 2^64, for the places in lines: a map keeps each number that is known.
ghost use Rattle.std.specs.Prelude.{◌≡◌, ◌%◌, ◌^◌, IfOk, IfSome};
ghost use Rattle.seq_examples.specs.Fibonacci.{fibonacci, AreRight};

use papaya_seq::{Fault, HashMap};
use std::alloc::Global;
use std::io;

/// The last place that is computed: each place below one that is not known yet takes a call inside that of the next.
const LAST: u64 = 1000;

/// The numbers that are known, by their places.
type Memo = HashMap<u64, u64>;

/// The number at this place, if it is known.
fn known(memo: &Memo, n: u64) -> Option<u64>
    requires { AreRight memo.now.pairs }
    ensures { IfSome result (λ number. number ≡ fibonacci n % 2 ^ 64) }
{
    memo.get(&n).copied()
}

/// Keeps the number at this place.
fn keep(memo: &mut Memo, n: u64, number: u64) -> Result<(), Fault>
    requires memo { AreRight memo.old.pairs }
    requires number { number ≡ fibonacci n % 2 ^ 64 }
    ensures { AreRight memo.new.pairs }
{
    memo.insert(n, number)?;
    Ok(())
}

/// The number at this place, which is kept. The faults are those of the map; what was kept stays right after one, too.
fn fibonacci(memo: &mut Memo, n: u64) -> Result<u64, Fault>
    requires { AreRight memo.old.pairs }
    ensures number { IfOk result (λ number. number ≡ fibonacci n % 2 ^ 64) }
    ensures memo { AreRight memo.new.pairs }
{
    if let Some(number) = known(memo, n) {
        return Ok(number);
    }
    let number = if n < 2 {
        n
    } else {
        fibonacci(memo, n - 1)?.wrapping_add(fibonacci(memo, n - 2)?)
    };
    keep(memo, n, number)?;
    Ok(number)
}

/// The place in a line.
fn place(line: &str) -> io::Result<u64> {
    match line.parse::<u64>() {
        Ok(n) if n <= LAST => Ok(n),
        _ => Err(io::Error::other("a line has a number of at most 1000")),
    }
}

/// Prints the number at each place in these lines, and how many are known then.
fn print_numbers<R: Print>(rt: &R, memo: &mut Memo, lines: &[String]) -> io::Result<()>
    requires { AreRight memo.old.pairs }
{
    for line in lines {
        let n = place(line.as_str())?;
        let number = fibonacci(memo, n)?;
        println!(rt; "{n}: {number}")?;
    }
    println!(rt; "{} known", memo.len())?;
    Ok(())
}

/// Prints the number at each place in these lines, from a memo that has none.
pub(crate) fn run<R: Print>(rt: &R, alloc: Global, lines: &[String]) -> io::Result<()> {
    let mut memo = Memo::new(alloc)?;
    print_numbers(rt, &mut memo, lines)
}
