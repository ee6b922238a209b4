// The form of a rotation token: its parts from the left.
ghost use Rattle.std.specs.Prelude.{◌≡◌, ◌≤◌};
ghost use Rattle.std.specs.List.{list_all};
ghost use Rattle.hall_symbol.specs.TokenForms.{order_digit, screw_digit, order_in, behind_order, screw_in, behind_screw, mark_in, behind_axis, ends_primed, without_prime, letters_in, sign_in, is_letter, is_token_form};

use crate::mark::{Mark, axis_mark, goes_with, is_written};
use crate::text::{behind_first, first, without};
use crystal_spec::Sign;

/// The order that a digit names, 0 where it names none.
fn order_digit(b: u8) -> u32
    ensures { result ≡ order_digit b }
{
    match b {
        b'1' => 1,
        b'2' => 2,
        b'3' => 3,
        b'4' => 4,
        b'6' => 6,
        _ => 0,
    }
}

/// The screw digit, 0 where it is none.
fn screw_digit(b: u8) -> u32
    ensures value { result ≡ screw_digit b }
    ensures at_most { result ≤ 5 }
{
    match b {
        b'1' => 1,
        b'2' => 2,
        b'3' => 3,
        b'4' => 4,
        b'5' => 5,
        _ => 0,
    }
}

/// The order of the rotation, 0 where there is none.
pub(crate) fn order_in(word: &[u8]) -> u32
    ensures { result ≡ order_in word.now }
{
    order_digit(first(without(b'-', word)))
}

/// What stands behind the order.
fn behind_order(word: &[u8]) -> &[u8]
    ensures { result.now ≡ behind_order word.now }
{
    behind_first(without(b'-', word))
}

/// The screw digit, 0 where there is none.
pub(crate) fn screw_in(word: &[u8]) -> u32
    ensures value { result ≡ screw_in word.now }
    ensures at_most { result ≤ 5 }
{
    screw_digit(first(behind_order(word)))
}

/// What stands behind the screw digit.
fn behind_screw(word: &[u8]) -> &[u8]
    ensures { result.now ≡ behind_screw word.now }
{
    let rest = behind_order(word);
    if screw_in(word) == 0 {
        rest
    } else {
        behind_first(rest)
    }
}

/// The mark of the axis.
pub(crate) fn mark_in(word: &[u8]) -> Mark
    ensures { result ≡ mark_in word.now }
{
    axis_mark(first(behind_screw(word)))
}

/// What stands behind the axis.
fn behind_axis(word: &[u8]) -> &[u8]
    ensures { result.now ≡ behind_axis word.now }
{
    let rest = behind_screw(word);
    if is_written(mark_in(word)) {
        behind_first(rest)
    } else {
        rest
    }
}

/// The letters, and whether `!` stands behind them.
fn split_prime(text: &[u8]) -> (&[u8], bool)
    ensures letters { result.0.now ≡ without_prime text.now }
    ensures primed { result.1 ≡ ends_primed text.now }
{
    let len = text.len();
    if len == 0 {
        return (text, false);
    }
    if text[len - 1] != b'!' {
        return (text, false);
    }
    (&text[..len - 1], true)
}

/// The bytes between the axis and an optional `!` at the end.
pub(crate) fn letters_in(word: &[u8]) -> &[u8]
    ensures { result.now ≡ letters_in word.now }
{
    split_prime(behind_axis(word)).0
}

/// The time sign: -1 where `!` stands at the end.
pub(crate) fn sign_in(word: &[u8]) -> Sign
    ensures { result ≡ sign_in word.now }
{
    if split_prime(behind_axis(word)).1 {
        Sign::Reversed
    } else {
        Sign::Same
    }
}

/// Whether it is one of the letters that stand for translations.
fn is_letter(b: u8) -> bool
    ensures { result ≡ is_letter b }
{
    b == b'a'
        || b == b'b'
        || b == b'c'
        || b == b'n'
        || b == b'u'
        || b == b'v'
        || b == b'w'
        || b == b'd'
}

/// Whether each byte is a letter.
fn are_letters(text: &[u8]) -> bool
    ensures { result ≡ list_all is_letter text.now }
{
    text.iter().all(|b| is_letter(*b))
}

/// Whether the word has the form of a token, and its axis goes with its order.
#[tactic(auto, unfolding(crate::specs::TokenForms::is_token_form))]
pub(crate) fn is_token_form(word: &[u8]) -> bool
    ensures { result ≡ is_token_form word.now }
{
    let order = order_in(word);
    order != 0 && are_letters(letters_in(word)) && goes_with(order, mark_in(word))
}
