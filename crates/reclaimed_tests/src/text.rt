//! The text of a data file's line as bytes.
ghost use Rattle.std.specs.Prelude.{◌<◌, IfOk};

use std::io::{self, ErrorKind};

/// Returns what is answered for a line that is not written as it has to be.
pub fn malformed() -> io::Error {
    io::Error::from(ErrorKind::InvalidData)
}

fn digit_of(byte: u8) -> io::Result<u8>
    ensures { IfOk result (λ digit. digit < 16) }
{
    match byte {
        b'0'..=b'9' => Ok(byte - b'0'),
        b'a'..=b'f' => Ok(byte - b'a' + 10),
        _ => Err(malformed()),
    }
}

/// Returns the byte that two digits of base 16 stand for.
pub fn byte_of(high: u8, low: u8) -> io::Result<u8> {
    let high = digit_of(high)?;
    let low = digit_of(low)?;
    Ok(16 * high + low)
}

/// Appends what stands behind a `\`: a byte in two digits, and further text.
fn append_escaped(out: &mut Vec<u8>, piece: &[u8]) -> io::Result<()> {
    match piece {
        [high, low, rest @ ..] => {
            out.push(byte_of(*high, *low)?)?;
            out.extend_from_slice(rest)?;
            Ok(())
        }
        _ => Err(malformed()),
    }
}

/// Appends the bytes that a text stands for.
pub fn append_text(out: &mut Vec<u8>, text: &str) -> io::Result<()> {
    let mut is_first = true;
    for piece in text.split('\\') {
        if is_first {
            out.extend_from_slice(piece.as_bytes())?;
        } else {
            append_escaped(out, piece.as_bytes())?;
        }
        is_first = false;
    }
    Ok(())
}
