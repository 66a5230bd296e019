//! What `printf` prints.

ghost use Rattle.std.specs.Prelude.{◌≡◌, ℕ, ◌+◌, ◌*◌, ◌<◌, ◌≤◌, ◌^◌, [], ◌++◌, length};
ghost use Rattle.std.specs.Vec.{vec_len, vec_capacity};
ghost use Rattle.std.specs.List.{AllWithin};
ghost use Rattle.c_tree.specs.Print.{digit, digits, decimal, signed_decimal, converted, printed};

use crate::words::word_or_zero;
use nm_base::as_int;

/// A digit of a base up to 16.
fn digit(d: u32) -> u8
    requires { d < 16 }
    ensures { result ≡ digit d }
{
    if d < 10 { 48 + d as u8 } else { 87 + d as u8 }
}

/// Puts the digits of a number, at most so many.
fn push_digits(out: &mut Vec<u8>, places: u32, base: u32, n: u32)
    requires base { (2 ≤ base) × (base ≤ 16) }
    requires room { vec_len out.old + places ≤ vec_capacity out.old }
    ensures items { out.new.items ≡ out.old.items ++ digits places base n [] }
    ensures len { vec_len out.new ≤ vec_len out.old + places }
    ensures capacity { vec_capacity out.new ≡ vec_capacity out.old }
{
    if places == 0 {
        return;
    }
    if n / base > 0 {
        push_digits(out, places - 1, base, n / base);
    }
    out.push_reserved(digit(n % base));
}

fn push_decimal(out: &mut Vec<u8>, n: u32)
    requires room { vec_len out.old + 10 ≤ vec_capacity out.old }
    ensures items { out.new.items ≡ out.old.items ++ decimal n }
    ensures len { vec_len out.new ≤ vec_len out.old + 10 }
    ensures capacity { vec_capacity out.new ≡ vec_capacity out.old }
{
    push_digits(out, 10, 10, n);
}

fn push_signed(out: &mut Vec<u8>, n: i32)
    requires room { vec_len out.old + 11 ≤ vec_capacity out.old }
    ensures items { out.new.items ≡ out.old.items ++ signed_decimal n }
    ensures len { vec_len out.new ≤ vec_len out.old + 11 }
    ensures capacity { vec_capacity out.new ≡ vec_capacity out.old }
{
    if n < 0 {
        out.push_reserved(b'-');
    }
    push_decimal(out, n.unsigned_abs());
}

/// Puts a value as the byte after a percent sign says.
fn push_converted(out: &mut Vec<u8>, conversion: u8, value: u32)
    requires room { vec_len out.old + 11 ≤ vec_capacity out.old }
    ensures items { out.new.items ≡ out.old.items ++ converted conversion value }
    ensures len { vec_len out.new ≤ vec_len out.old + 11 }
    ensures capacity { vec_capacity out.new ≡ vec_capacity out.old }
{
    match conversion {
        b'd' => push_signed(out, as_int(value)),
        b'u' => push_decimal(out, value),
        b'x' => push_digits(out, 8, 16, value),
        _ => out.push_reserved((value % 256) as u8),
    }
}

/// Puts what a format prints of these values: at most 6 bytes for each of its own.
pub(crate) fn push_printed(out: &mut Vec<u8>, text: &[u8], values: &[u64])
    requires room { vec_len out.old + 6 * length text.now ≤ vec_capacity out.old }
    requires words { AllWithin (λ x. x < 2 ^ 32) values.now 0 (length values.now) }
    ensures items { out.new.items ≡ out.old.items ++ printed text.now values.now }
    ensures capacity { vec_capacity out.new ≡ vec_capacity out.old }
{
    let mut after_percent = false;
    let mut taken = 0;
    for byte in text {
        if !after_percent {
            if *byte == b'%' {
                after_percent = true;
            } else {
                out.push_reserved(*byte);
            }
        } else {
            after_percent = false;
            if *byte == b'%' {
                out.push_reserved(*byte);
            } else {
                push_converted(out, *byte, word_or_zero(values, taken));
                taken += 1;
            }
        }
    }
}
