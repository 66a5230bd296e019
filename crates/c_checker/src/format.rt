//! Texts and their conversions.

ghost use Rattle.std.specs.Prelude.{◌≡◌, ◌≤◌, false, length, IfSome};
ghost use Rattle.c_tree.specs.Typing as typing;
ghost use Rattle.c_tree.specs.Typing.{conversions_from};
ghost use Rattle.c_checker.specs.Found.{CheckGives, Tests};
ghost use Rattle.c_checker.specs.Expressions as spec;

use crate::fault::CheckFault;
use nm_base::{Bytes, List};
use std::alloc::Global;

/// The most bytes of a text.
const MAX_TEXT_LEN: usize = 509;

/// The number of conversions, or `None` where a `%` is not followed by `d`, `u`, `x`, `c` or `%`. A text is short, so
/// it recurses.
fn conversions(text: &[u8], after_percent: bool) -> Option<usize>
    ensures value { result ≡ conversions_from after_percent text.now }
    ensures few { IfSome result (λ n. n ≤ length text.now) }
{
    match text {
        [] if after_percent => None,
        [] => Some(0),
        [byte, rest @ ..] => {
            if !after_percent {
                conversions(rest, *byte == b'%')
            } else if *byte == b'%' {
                conversions(rest, false)
            } else if is_conversion(*byte) {
                let count = conversions(rest, false)?;
                Some(count + 1)
            } else {
                None
            }
        }
    }
}

fn is_conversion(byte: u8) -> bool
    ensures { result ≡ typing.is_conversion byte }
{
    byte == b'd' || byte == b'u' || byte == b'x' || byte == b'c'
}

/// Whether a text prints as many arguments as there are. `at` is the line of the text, and `line` that of the call.
#[tactic(auto, using(crate::proofs::Found::refuses_left))]
pub fn test_format(text: &[u8], args: usize, at: u32, line: u32) -> Result<(), CheckFault>
    ensures { Tests (spec.format_faults text.now args at line) result }
{
    if text.len() > MAX_TEXT_LEN {
        return Err(CheckFault::TooMany { line });
    }
    match conversions(text, false) {
        Some(count) if count == args => Ok(()),
        Some(_) => Err(CheckFault::Format { line }),
        None => Err(CheckFault::Format { line: at }),
    }
}

/// Adds a text, and gives its number.
pub fn add_text(alloc: Global, texts: &mut List<Bytes>, text: &Bytes) -> Result<u32, CheckFault>
    ensures { CheckGives (spec.add_text text.now texts.old) result texts.new }
{
    let number = texts.as_slice().len();
    if number > 0xffff_ffff {
        return Err(CheckFault::Memory);
    }
    let text = text.copy(alloc)?;
    texts.push(alloc, text)?;
    Ok(number as u32)
}
