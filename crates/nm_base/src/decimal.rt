//! Decimal numbers in texts.

ghost use Rattle.std.specs.Prelude.{◌≡◌};
ghost use Rattle.nm_base.specs.Decimal.{number_of};

/// The number that the bytes spell: 1 to 10 decimal digits, of which zeros may lead, with a value
/// of at most 4294967295.
pub fn number(word: &[u8]) -> Option<u32>
    ensures { result ≡ number_of word.now }
{
    if word.is_empty() || word.len() > 10 {
        return None;
    }
    let mut value: u64 = 0;
    for digit in word {
        if !digit.is_ascii_digit() {
            return None;
        }
        value = 10 * value + u64::from(*digit - b'0');
    }
    u32::try_from(value).ok()
}
