//! Cutting a line into words.
ghost use Rattle.std.specs.Prelude.{◌≡◌, ◌==◌, ◌∷◌, option_copied, position};
ghost use Rattle.reclaimed_script.specs.Words.{words_of, words_left, next_of, none_of, one_of, two_of, three_of, Gives};

use crate::fault::LineFault;

/// Where the first space is.
fn space_in(line: &[u8]) -> Option<usize>
    ensures { result ≡ position (λ b. b == 32) line.now }
{
    line.iter().position(|b| *b == b' ')
}

/// Cuts off the first word of a line, and returns it with what is left of the line behind the space that ends the word.
pub fn cut(line: &[u8]) -> (&[u8], Option<&[u8]>)
    ensures { words_of line.now ≡ result.0.now ∷ words_left (option_copied result.1) }
{
    match space_in(line) {
        None => (line, None),
        Some(end) => (&line[..end], Some(&line[end + 1..])),
    }
}

/// Returns the next word of what is left of a line, and what is left behind it.
pub fn next_of(rest: Option<&[u8]>) -> Result<(&[u8], Option<&[u8]>), LineFault>
    ensures { Gives (λ x. (x.0.now, words_left (option_copied x.1))) result
        (next_of (words_left (option_copied rest.entry))) }
{
    match rest {
        None => Err(LineFault::WrongNumberOfWords),
        Some(line) => Ok(cut(line)),
    }
}

/// Checks that no word is left.
pub fn none_of(rest: Option<&[u8]>) -> Result<(), LineFault>
    ensures { Gives (λ x. x) result (none_of (words_left (option_copied rest.entry))) }
{
    match next_of(rest) {
        Err(_) => Ok(()),
        Ok(_) => Err(LineFault::WrongNumberOfWords),
    }
}

/// Reads what is left as one word.
pub fn one_of(rest: Option<&[u8]>) -> Result<&[u8], LineFault>
    ensures { Gives (λ x. x.now) result (one_of (words_left (option_copied rest.entry))) }
{
    let (first, rest) = next_of(rest)?;
    match next_of(rest) {
        Err(_) => Ok(first),
        Ok(_) => Err(LineFault::WrongNumberOfWords),
    }
}

/// Reads what is left as two words.
pub fn two_of(rest: Option<&[u8]>) -> Result<(&[u8], &[u8]), LineFault>
    ensures { Gives (λ x. (x.0.now, x.1.now)) result (two_of (words_left (option_copied rest.entry))) }
{
    let (first, rest) = next_of(rest)?;
    Ok((first, one_of(rest)?))
}

/// Reads what is left as three words.
pub fn three_of(rest: Option<&[u8]>) -> Result<(&[u8], &[u8], &[u8]), LineFault>
    ensures { Gives (λ x. (x.0.now, x.1.now, x.2.now)) result
        (three_of (words_left (option_copied rest.entry))) }
{
    let (first, rest) = next_of(rest)?;
    let (second, third) = two_of(rest)?;
    Ok((first, second, third))
}
