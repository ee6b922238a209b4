// The shift of the origin.
ghost use Rattle.std.specs.Prelude.{◌≡◌, ◌-◌, ◌<◌, ◌≤◌, [], ◌∷◌, MatchOption, IfSome, true, false, length};
ghost use Rattle.plain_text.specs.Text.{words_between_spaces};
ghost use Rattle.plain_text.specs.Digits.{value_of_digits};
ghost use Rattle.hall_symbol.specs.Symbols.{AreTwelfths};
ghost use Rattle.hall_symbol.specs.Spelling.{is_decimal, is_shift_number, shift_number, are_shift_numbers, shift_by, is_shift_form, shift_in};

use crate::text::{begins, behind_first, cut, first_word, without};
use matrix3::Vec3;
use plain_text::count;

/// The number of one or two digits.
fn decimal(digits: &[u8]) -> Option<u32>
    ensures value { MatchOption result (is_decimal digits.now ≡ false) (λ n. (is_decimal digits.now ≡ true) × (n ≡ value_of_digits digits.now)) }
{
    if digits.len() > 2 {
        return None;
    }
    count(digits)
}

/// The number of twelfths that the word spells, modulo 12.
fn shift_number(word: &[u8]) -> Option<u32>
    ensures value { MatchOption result (is_shift_number word.now ≡ false) (λ n. (is_shift_number word.now ≡ true) × (n ≡ shift_number word.now)) }
    ensures below_12 { IfSome result (λ n. n < 12) }
{
    let Some(size) = decimal(without(b'-', word)) else {
        return None;
    };
    if begins(b'-', word) {
        return Some((12 - size % 12) % 12);
    }
    Some(size % 12)
}

/// The three numbers that the text spells.
fn three_numbers(text: &[u8]) -> Option<Vec3<u32>>
    ensures below_12 { IfSome result AreTwelfths }
    ensures value { MatchOption result (are_shift_numbers (words_between_spaces text.now) ≡ false) (λ v. (are_shift_numbers (words_between_spaces text.now) ≡ true) × (v ≡ shift_by (words_between_spaces text.now))) }
{
    let Some((x, rest)) = first_word(text) else {
        return None;
    };
    let Some((y, rest)) = first_word(rest) else {
        return None;
    };
    let Some((z, rest)) = first_word(rest) else {
        return None;
    };
    if first_word(rest).is_some() {
        return None;
    }
    shift_of(x, y, z)
}

/// The shift by these three numbers.
fn shift_of(x: &[u8], y: &[u8], z: &[u8]) -> Option<Vec3<u32>>
    ensures below_12 { IfSome result AreTwelfths }
    ensures value { let ws = x.now ∷ y.now ∷ z.now ∷ [] in MatchOption result (are_shift_numbers ws ≡ false) (λ v. (are_shift_numbers ws ≡ true) × (v ≡ shift_by ws)) }
{
    let Some(x) = shift_number(x) else {
        return None;
    };
    let Some(y) = shift_number(y) else {
        return None;
    };
    let Some(z) = shift_number(z) else {
        return None;
    };
    Some(Vec3 { x, y, z })
}

/// The shift that begins with the bracket, 0 where the text is empty; or none where it has not this form.
#[tactic(auto, unfolding(crate::specs::Spelling::is_shift_form))]
pub(crate) fn read_shift(text: &[u8]) -> Option<Vec3<u32>>
    ensures below_12 { IfSome result AreTwelfths }
    ensures value { MatchOption result (is_shift_form text.now ≡ false) (λ v. (is_shift_form text.now ≡ true) × (v ≡ shift_in text.now)) }
{
    if text.is_empty() {
        return Some(Vec3 { x: 0, y: 0, z: 0 });
    }
    let (inside, closing) = cut(behind_first(text), b')');
    if closing.is_empty() {
        return None;
    }
    if first_word(behind_first(closing)).is_some() {
        return None;
    }
    three_numbers(inside)
}
