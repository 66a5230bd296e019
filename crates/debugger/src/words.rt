//! The words of a line.

ghost use Rattle.std.specs.Prelude.{◌≡◌, not, length, drop, take_while};
ghost use Rattle.std.specs.List.{prefix_len};
ghost use Rattle.debugger.specs.Lines.{is_blank, words_of};
ghost use Rattle.debugger.specs.private.Words.{first_words, is_visible};

// Whether a byte separates words.
fn is_blank(b: u8) -> bool
    ensures { result ≡ is_blank b }
{
    b == b' ' || b == b'\t'
}

// How many blanks a text begins with.
fn blank_length(text: &[u8]) -> usize
    ensures { result ≡ length (take_while is_blank text.now) }
{
    text.iter().take_while(|b| is_blank(**b)).count()
}

// How many bytes stand before the first blank.
fn word_length(text: &[u8]) -> usize
    ensures { result ≡ length (take_while is_visible text.now) }
{
    text.iter().take_while(|b| !is_blank(**b)).count()
}

/// The first word, and the text behind it.
pub(crate) fn first_word(text: &[u8]) -> Option<(&[u8], &[u8])>
    ensures { words_of text.now ≡ first_words result }
{
    let seen = text.split_at(blank_length(text)).1;
    if seen.is_empty() {
        return None;
    }
    Some(seen.split_at(word_length(seen)))
}
