// How the text of a symbol is cut.
ghost use Rattle.std.specs.Prelude.{◌≡◌, ◌≢◌, ◌<◌, [], ◌∷◌, length, drop, MatchOption};
ghost use Rattle.plain_text.specs.Text.{words_between_spaces};
ghost use Rattle.hall_symbol.specs.Cuts.{skip_spaces, before_byte, from_byte, first, begins, without};

/// What stands in front of the first such byte, and the text from it on.
pub fn cut(text: &[u8], byte: u8) -> (&[u8], &[u8])
    ensures before { result.0.now ≡ before_byte byte text.now }
    ensures from { result.1.now ≡ from_byte byte text.now }
{
    for (i, b) in text.iter().enumerate() {
        if *b == byte {
            return (&text[..i], &text[i..]);
        }
    }
    (text, &text[text.len()..])
}

/// The text without the spaces in front.
pub fn skip_spaces(text: &[u8]) -> &[u8]
    ensures { result.now ≡ skip_spaces text.now }
{
    for (i, b) in text.iter().enumerate() {
        if *b != b' ' {
            return &text[i..];
        }
    }
    &text[text.len()..]
}

/// The first word of a text, and what stands behind it.
pub(crate) fn first_word(text: &[u8]) -> Option<(&[u8], &[u8])>
    ensures words { MatchOption result (words_between_spaces text.now ≡ []) (λ p. (words_between_spaces text.now ≡ p.0.now ∷ words_between_spaces p.1.now) × (length p.1.now < length text.now)) }
    ensures parts { MatchOption result (skip_spaces text.now ≡ []) (λ p. (skip_spaces text.now ≢ []) × (p.0.now ≡ before_byte 32 (skip_spaces text.now)) × (p.1.now ≡ from_byte 32 (skip_spaces text.now))) }
{
    let found = skip_spaces(text);
    if found.is_empty() {
        return None;
    }
    let (word, rest) = cut(found, b' ');
    Some((word, rest))
}

/// The first byte, 0 where there is none.
pub(crate) fn first(text: &[u8]) -> u8
    ensures { result ≡ first text.now }
{
    match text {
        [b, ..] => *b,
        [] => 0,
    }
}

/// Whether this byte stands in front.
pub fn begins(byte: u8, text: &[u8]) -> bool
    ensures { result ≡ begins byte text.now }
{
    match text {
        [b, ..] => *b == byte,
        [] => false,
    }
}

/// The text without one such byte in front.
pub(crate) fn without(byte: u8, text: &[u8]) -> &[u8]
    ensures { result.now ≡ without byte text.now }
{
    match text {
        [b, rest @ ..] if *b == byte => rest,
        _ => text,
    }
}

/// The text behind the first byte.
pub(crate) fn behind_first(text: &[u8]) -> &[u8]
    ensures { result.now ≡ drop 1 text.now }
{
    match text {
        [_, rest @ ..] => rest,
        [] => text,
    }
}
