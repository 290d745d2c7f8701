//! Reading a word as a name, a value or a number.
ghost use Rattle.std.specs.Prelude.{◌≡◌};
ghost use Rattle.std.specs.List.{list_all};
ghost use Rattle.reclaimed_script.specs.Words.{is_digit, is_name_byte, is_value_byte, starts_well, is_decimal, name_of, caller_of, value_of, number_of, number_between, Gives};

use crate::fault::LineFault;

fn is_name_byte(byte: u8) -> bool
    ensures { result ≡ is_name_byte byte }
{
    byte.is_ascii_alphanumeric()
}

fn is_value_byte(byte: u8) -> bool
    ensures { result ≡ is_value_byte byte }
{
    is_name_byte(byte) || byte == b'_'
}

fn has_name_bytes(word: &[u8]) -> bool
    ensures { result ≡ list_all is_name_byte word.now }
{
    word.iter().all(|b| is_name_byte(*b))
}

fn has_value_bytes(word: &[u8]) -> bool
    ensures { result ≡ list_all is_value_byte word.now }
{
    word.iter().all(|b| is_value_byte(*b))
}

fn has_digits(word: &[u8]) -> bool
    ensures { result ≡ list_all is_digit word.now }
{
    word.iter().all(|b| b.is_ascii_digit())
}

/// Reads a word as a name.
pub fn name_of(word: &[u8]) -> Result<&[u8], LineFault>
    ensures { Gives (λ x. x.now) result (name_of word.now) }
{
    if 1 <= word.len() && word.len() <= 16 && has_name_bytes(word) {
        Ok(word)
    } else {
        Err(LineFault::BadWord)
    }
}

/// Reads a word as a caller's name, or the dash in its place.
pub fn caller_of(word: &[u8]) -> Result<&[u8], LineFault>
    ensures { Gives (λ x. x.now) result (caller_of word.now) }
{
    if word == b"-".as_slice() {
        Ok(word)
    } else {
        name_of(word)
    }
}

/// Reads a word as a value.
pub fn value_of(word: &[u8]) -> Result<&[u8], LineFault>
    ensures { Gives (λ x. x.now) result (value_of word.now) }
{
    if 1 <= word.len() && word.len() <= 32 && has_value_bytes(word) {
        Ok(word)
    } else {
        Err(LineFault::BadWord)
    }
}

/// Whether a word is not empty, and has no zero in front but as its one digit.
fn starts_well(word: &[u8]) -> bool
    ensures { result ≡ starts_well word.now }
{
    match word {
        [] => false,
        [_] => true,
        [first, ..] => *first != b'0',
    }
}

fn is_decimal(word: &[u8]) -> bool
    ensures { result ≡ is_decimal word.now }
{
    starts_well(word) && has_digits(word)
}

/// Reads a word as a number.
pub fn number_of(word: &[u8]) -> Result<u64, LineFault>
    ensures { result ≡ number_of word.now }
{
    if !is_decimal(word) {
        return Err(LineFault::BadWord);
    }
    let mut number = 0u64;
    for byte in word {
        let next = 10 * (number as u128) + byte.saturating_sub(b'0') as u128;
        if next > u64::MAX as u128 {
            return Err(LineFault::BadWord);
        }
        number = next as u64;
    }
    Ok(number)
}

/// Reads a word as a number from low to high.
#[tactic(auto, unfolding(crate::specs::Words::number_between))]
pub fn number_between(low: u64, high: u64, word: &[u8]) -> Result<u64, LineFault>
    ensures { result ≡ number_between low high word.now }
{
    let number = number_of(word)?;
    if low <= number && number <= high {
        Ok(number)
    } else {
        Err(LineFault::BadWord)
    }
}
