//! Texts given to a sink in pieces.

ghost use Rattle.std.specs.Prelude.{◌≡◌, ◌<◌};
ghost use Rattle.report.specs.Printing.{Prints, joined};
ghost use Rattle.report.specs.Texts.{byte_digits, digest_after, digest_text, hex_digit, hex_digits, number_line};

use itoa::Buffer;
use nm_outside::{Failed, Sink};

/// Gives the pieces one after the other.
pub(crate) fn put_pieces<O: Sink>(out: &mut O, pieces: &[&[u8]]) -> Result<(), Failed>
    ensures { Prints (O.given out.old) (O.given out.new) (O.faults out.old) (O.faults out.new)
        (joined pieces.now) result }
{
    for piece in pieces {
        out.put(piece)?;
    }
    Ok(())
}

// The digit for four bits of a number, from that bit on.
fn hex_digit(n: u32, low: u32) -> u8
    requires { low < 32 }
    ensures { result ≡ hex_digit n low }
{
    let digit = (n >> low & 15) as u8;
    if digit < 10 {
        b'0' + digit
    } else {
        b'a' - 10 + digit
    }
}

/// The number in eight hexadecimal digits, in lower case.
pub(crate) fn hex_digits(n: u32) -> [u8; 8]
    ensures { result ≡ hex_digits n }
{
    [
        hex_digit(n, 28),
        hex_digit(n, 24),
        hex_digit(n, 20),
        hex_digit(n, 16),
        hex_digit(n, 12),
        hex_digit(n, 8),
        hex_digit(n, 4),
        hex_digit(n, 0),
    ]
}

// The byte in two hexadecimal digits, in lower case.
fn byte_digits(byte: u8) -> [u8; 2]
    ensures { result ≡ byte_digits byte }
{
    [hex_digit(byte as u32, 4), hex_digit(byte as u32, 0)]
}

// The digest, in two hexadecimal digits for each byte.
fn put_bytes<O: Sink>(out: &mut O, digest: &[u8; 32]) -> Result<(), Failed>
    ensures { Prints (O.given out.old) (O.given out.new) (O.faults out.old) (O.faults out.new)
        (digest_text digest.now) result }
{
    for byte in digest {
        put_pieces(out, &[byte_digits(*byte).as_slice()])?;
    }
    Ok(())
}

/// The digest behind a text.
pub(crate) fn put_digest<O: Sink>(
    out: &mut O,
    start: &[u8],
    digest: &[u8; 32],
) -> Result<(), Failed>
    ensures { Prints (O.given out.old) (O.given out.new) (O.faults out.old) (O.faults out.new)
        (digest_after start.now digest.now) result }
{
    put_pieces(out, &[start])?;
    put_bytes(out, digest)
}

/// A line with a number.
pub(crate) fn put_number<O: Sink>(
    out: &mut O,
    start: &[u8],
    number: u32,
    end: &[u8],
) -> Result<(), Failed>
    ensures { Prints (O.given out.old) (O.given out.new) (O.faults out.old) (O.faults out.new)
        (number_line start.now number end.now) result }
{
    let mut digits = Buffer::new();
    put_pieces(out, &[start, digits.format(number).as_bytes(), end])
}
