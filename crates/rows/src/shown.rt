//! Bytes in a line that tells of them.

use std::alloc::{AllocError, Global};
use std::str;

/// So many of them are shown.
const SHOWN: usize = 4000;

/// A text in quotes, other bytes in hexadecimal digits, and of long ones the front.
pub fn shown(alloc: Global, bytes: Option<&[u8]>) -> Result<String, AllocError> {
    let Some(bytes) = bytes else {
        return String::from_str(alloc, "nothing");
    };
    let count = bytes.len();
    let front = bytes.get(..SHOWN).unwrap_or(bytes);
    let mut line = match str::from_utf8(front) {
        Ok(text) => format!(in alloc; "{text:?}")?,
        Err(_) => hex_of(alloc, front)?,
    };
    if front.len() < count {
        write!(line, ".. of {count} bytes")?;
    }
    Ok(line)
}

fn hex_of(alloc: Global, bytes: &[u8]) -> Result<String, AllocError> {
    let mut digits = String::from_str(alloc, "hex ")?;
    for byte in bytes {
        write!(digits, "{byte:02x}")?;
    }
    Ok(digits)
}
