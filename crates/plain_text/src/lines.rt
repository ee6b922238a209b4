// Lines, words, and the bytes that a line may have.
ghost use Rattle.std.specs.Prelude.{◌≡◌, ◌<◌, List, ℕ, [], ◌∷◌, length, map, MatchOption, IfOk, true};
ghost use Rattle.std.specs.List.{list_any};
ghost use Rattle.plain_text.specs.Text.{lines, words, words_between, words_between_spaces, without_return, begins_word, is_plain_byte, has_bad_byte};
ghost use Rattle.plain_text.specs.Views.{blank_test};

use crate::blanks::Blanks;
use std::alloc::{AllocError, Global};

/// The piece without one CR at its end.
fn without_return(piece: &[u8]) -> &[u8]
    ensures { result.now ≡ without_return piece.now }
{
    let len = piece.len();
    if len == 0 {
        return piece;
    }
    if piece[len - 1] != b'\r' {
        return piece;
    }
    &piece[..len - 1]
}

/// The first line of a text, and what stands behind it.
///
/// Lines end with LF or CR LF; the last may have no end. Asks that the text is not empty.
pub fn first_line(text: &[u8]) -> (&[u8], &[u8])
    requires { 0 < length text.now }
    ensures cut { lines text.now ≡ result.0.now ∷ lines result.1.now }
    ensures shorter { length result.1.now < length text.now }
{
    for (i, b) in text.iter().enumerate() {
        if *b == b'\n' {
            return (without_return(&text[..i]), &text[i + 1..]);
        }
    }
    (without_return(text), &text[text.len()..])
}

fn is_blank(blanks: Blanks, b: u8) -> bool
    ensures { result ≡ blank_test blanks b }
{
    match blanks {
        Blanks::SpacesAndTabs => b == b' ' || b == b'\t',
        Blanks::Spaces => b == b' ',
    }
}

/// The word in front, and what stands behind it.
fn split_word(blanks: Blanks, text: &[u8]) -> (&[u8], &[u8])
    requires { begins_word (blank_test blanks) text.now ≡ true }
    ensures cut { words_between (blank_test blanks) text.now ≡ result.0.now ∷ words_between (blank_test blanks) result.1.now }
    ensures shorter { length result.1.now < length text.now }
{
    for (i, b) in text.iter().enumerate() {
        if is_blank(blanks, *b) {
            return (&text[..i], &text[i..]);
        }
    }
    (text, &text[text.len()..])
}

/// The first word of a line, and what stands behind it.
fn first_word(blanks: Blanks, line: &[u8]) -> Option<(&[u8], &[u8])>
    ensures { MatchOption result (words_between (blank_test blanks) line.now ≡ []) (λ p. (words_between (blank_test blanks) line.now ≡ p.0.now ∷ words_between (blank_test blanks) p.1.now) × (length p.1.now < length line.now)) }
{
    for (i, b) in line.iter().enumerate() {
        if !is_blank(blanks, *b) {
            let (word, rest) = split_word(blanks, &line[i..]);
            return Some((word, rest));
        }
    }
    None
}

/// The words of a line between blanks of this kind.
fn words_between(alloc: Global, blanks: Blanks, line: &[u8]) -> Result<Vec<&[u8]>, AllocError>
    ensures { IfOk result (λ v. map (λ w. w.now) v.items ≡ words_between (blank_test blanks) line.now) }
{
    let mut found = Vec::new(alloc);
    let mut rest = line;
    while let Some((word, after)) = first_word(blanks, rest) {
        found.push(word)?;
        rest = after;
    }
    Ok(found)
}

/// The words of a line, which stand between spaces and tabs. Refuses for want of memory alone.
pub fn words(alloc: Global, line: &[u8]) -> Result<Vec<&[u8]>, AllocError>
    ensures { IfOk result (λ v. map (λ w. w.now) v.items ≡ words line.now) }
{
    words_between(alloc, Blanks::SpacesAndTabs, line)
}

/// The words of a line, which stand between spaces; a tab belongs to a word. Refuses for want of memory alone.
pub fn words_between_spaces(alloc: Global, line: &[u8]) -> Result<Vec<&[u8]>, AllocError>
    ensures { IfOk result (λ v. map (λ w. w.now) v.items ≡ words_between_spaces line.now) }
{
    words_between(alloc, Blanks::Spaces, line)
}

/// Whether it is tab or one of the bytes from space to `~`.
pub fn is_plain_byte(b: u8) -> bool
    ensures { result ≡ is_plain_byte b }
{
    b == b'\t' || (b' ' <= b && b <= b'~')
}

/// Whether a byte of the line is not plain.
#[tactic(auto, unfolding(crate::specs::Text::has_bad_byte))]
pub fn has_bad_byte(line: &[u8]) -> bool
    ensures { result ≡ has_bad_byte line.now }
{
    for b in line {
        if !is_plain_byte(*b) {
            return true;
        }
    }
    false
}
