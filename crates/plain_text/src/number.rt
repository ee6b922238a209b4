// Number words: reading, and what is asked of the numbers. A number in units of 1/d is an integer where d is a multiple of its
// denominator.
ghost use Rattle.std.specs.Prelude.{◌≡◌, ℕ, ◌<◌, ◌≤◌, ◌+◌, ◌%◌, ◌==◌, ◌^◌, ◌++◌, length, MatchOption, MatchResult, Some, None, true, false, ◌&&◌, ◌||◌, ◌*◌, ◌/◌, nat_lt, [], pos, unsigned_abs, ◌-ℤ◌};
ghost use Rattle.ring.specs.Size.{AtMost};
ghost use Rattle.numbers.specs.Gcd.{gcd, lcm};
ghost use Rattle.numbers.specs.Fraction.{fraction, lowest};
ghost use Rattle.plain_text.specs.Digits.{is_digits, value_of_digits};
ghost use Rattle.plain_text.specs.NumberWords.{is_negative, without_sign, before_mark, behind_mark, reads_decimals, fraction_fault, decimal_fault, number_fault, number_value, scaled, signed, is_same_modulo_1};
ghost use Rattle.plain_text.specs.Views.{fraction_of, Grown, IsMultiple};

use crate::digits::{is_digits, value_of_digits};
use crate::fault::NumberFault;
use crate::number_form::NumberForm;
use crate::number_word::NumberWord;
use exact_num::{gcd, lcm_within};

/// The greatest common divisor.
fn common_divisor(a: u128, b: u128) -> u128
    ensures { result ≡ gcd a b }
{
    gcd(a, b)
}

/// The least common multiple, where it is at most the bound.
fn common_multiple(a: u128, b: u128, bound: u128) -> Option<u128>
    requires a { 0 < a }
    requires b { 0 < b }
    ensures { MatchOption result (bound < lcm a b) (λ m. IsMultiple a b m × (m ≤ bound)) }
{
    lcm_within(a, b, bound)
}

fn is_negative(word: &[u8]) -> bool
    ensures { result ≡ is_negative word.now }
{
    match word {
        [b'-', ..] => true,
        _ => false,
    }
}

fn without_sign(word: &[u8]) -> &[u8]
    ensures { result.now ≡ without_sign word.now }
{
    match word {
        [b'-', rest @ ..] => rest,
        _ => word,
    }
}

/// What stands before and behind the first of these marks; where there is none, the word and the other text.
fn halves<'a>(word: &'a [u8], mark: u8, other: &'a [u8]) -> (&'a [u8], &'a [u8])
    ensures before { result.0.now ≡ before_mark mark word.now }
    ensures behind { result.1.now ≡ behind_mark mark other.now word.now }
{
    for (i, b) in word.iter().enumerate() {
        if *b == mark {
            return (&word[..i], &word[i + 1..]);
        }
    }
    (word, other)
}

/// a / b in lowest terms.
fn lowest(negative: bool, a: u128, b: u128) -> NumberWord
    requires num { a < 10 ^ 18 }
    requires den { b < 10 ^ 18 }
    requires positive { 0 < b }
    ensures { fraction_of result ≡ lowest (signed negative a) (pos b) }
{
    let common = common_divisor(a, b);
    NumberWord {
        negative,
        num: a / common,
        den: b / common,
    }
}

fn are_digits(one: &[u8], other: &[u8]) -> bool
    ensures { result ≡ (is_digits one.now && is_digits other.now) }
{
    if !is_digits(one) {
        return false;
    }
    is_digits(other)
}

fn are_long(over: &[u8], under: &[u8]) -> bool
    ensures { result ≡ (nat_lt 18 (length over.now) || nat_lt 18 (length under.now)) }
{
    if over.len() > 18 {
        return true;
    }
    under.len() > 18
}

/// The number of a numerator and a denominator, in lowest terms.
fn read_fraction(negative: bool, over: &[u8], under: &[u8]) -> Result<NumberWord, NumberFault>
    ensures { MatchResult result (λ f. (fraction_fault over.now under.now ≡ None) × (fraction_of f ≡ lowest (signed negative (value_of_digits over.now)) (pos (value_of_digits under.now)))) (λ e. fraction_fault over.now under.now ≡ Some e) }
{
    if !are_digits(over, under) {
        return Err(NumberFault::BadNumber);
    }
    if are_long(over, under) {
        return Err(NumberFault::NumberRange);
    }
    let den = value_of_digits(under);
    if den == 0 {
        return Err(NumberFault::ZeroDenominator);
    }
    Ok(lowest(negative, value_of_digits(over), den))
}

fn reads_decimals(form: NumberForm) -> bool
    ensures { result ≡ reads_decimals form }
{
    match form {
        NumberForm::Fraction => false,
        NumberForm::FractionOrDecimal => true,
    }
}

/// The number of the digits before and behind a point, at most 18 together, in lowest terms.
fn decimal(negative: bool, before: &[u8], behind: &[u8]) -> NumberWord
    requires before { is_digits before.now ≡ true }
    requires behind { is_digits behind.now ≡ true }
    requires short { length before.now + length behind.now ≤ 18 }
    ensures { fraction_of result ≡ lowest (signed negative (value_of_digits (before.now ++ behind.now))) (pos (10 ^ length behind.now)) }
{
    let unit = 10u128.pow(behind.len() as u32);
    lowest(
        negative,
        value_of_digits(before) * unit + value_of_digits(behind),
        unit,
    )
}

/// The number of the digits before and behind a point, in lowest terms, where decimals are read.
fn read_decimal(
    form: NumberForm,
    negative: bool,
    before: &[u8],
    behind: &[u8],
) -> Result<NumberWord, NumberFault>
    requires before { is_digits before.now ≡ true }
    requires behind { is_digits behind.now ≡ true }
    ensures { MatchResult result (λ f. (decimal_fault form before.now behind.now ≡ None) × (fraction_of f ≡ lowest (signed negative (value_of_digits (before.now ++ behind.now))) (pos (10 ^ length behind.now)))) (λ e. decimal_fault form before.now behind.now ≡ Some e) }
{
    if !reads_decimals(form) {
        return Err(NumberFault::BadNumber);
    }
    if before.len() + behind.len() > 18 {
        return Err(NumberFault::NumberRange);
    }
    Ok(decimal(negative, before, behind))
}

/// The number that a word spells, in lowest terms.
///
/// An optional `-`, and a fraction: digits, and optionally `/` and digits; where the form says so, also a decimal: digits, `.`
/// and digits. `BadNumber` where the word has another form; else `NumberRange` where a numerator or a denominator has more than
/// 18 digits, or a decimal more than 18 before and behind the point together; else `ZeroDenominator`.
pub fn read_number(form: NumberForm, word: &[u8]) -> Result<NumberWord, NumberFault>
    ensures { MatchResult result (λ f. (number_fault form word.now ≡ None) × (fraction_of f ≡ number_value word.now)) (λ e. number_fault form word.now ≡ Some e) }
{
    let negative = is_negative(word);
    let size = without_sign(word);
    let (before, behind) = halves(size, b'.', b"");
    if are_digits(before, behind) {
        return read_decimal(form, negative, before, behind);
    }
    let (over, under) = halves(size, b'/', b"1");
    read_fraction(negative, over, under)
}

/// The number 0, which the definition gives to the empty word too.
#[tactic(auto, unfolding(crate::specs::NumberWords::number_value))]
pub fn zero() -> NumberWord
    ensures value { fraction_of result ≡ fraction (pos 0) (pos 1) }
    ensures empty { fraction_of result ≡ number_value [] }
{
    NumberWord {
        negative: false,
        num: 0,
        den: 1,
    }
}

/// The least common multiple of a number and three denominators, where it is at most the bound.
pub fn grown(d: u128, x: &NumberWord, y: &NumberWord, z: &NumberWord, bound: u128) -> Option<u128>
    requires { 0 < d }
    ensures { MatchOption result (bound < lcm (lcm (lcm d x.now.den) y.now.den) z.now.den) (λ m. Grown d x.now.den y.now.den z.now.den m × (m ≤ bound)) }
{
    let x = *x;
    let y = *y;
    let z = *z;
    let Some(one) = common_multiple(d, x.den, bound) else {
        return None;
    };
    let Some(two) = common_multiple(one, y.den, bound) else {
        return None;
    };
    let Some(all) = common_multiple(two, z.den, bound) else {
        return None;
    };
    Some(all)
}

/// The size of the difference of two signed numbers.
fn apart(negative: bool, a: u128, other: bool, b: u128) -> u128
    requires a { a ≤ 10 ^ 36 }
    requires b { b ≤ 10 ^ 36 }
    ensures { result ≡ unsigned_abs (signed negative a -ℤ signed other b) }
{
    if negative != other {
        return a + b;
    }
    if a < b {
        return b - a;
    }
    a - b
}

/// Whether the one number is a multiple of the other. A number below it is so only where it is 0, and needs no division.
fn is_multiple_of(a: u128, unit: u128) -> bool
    requires { 1 ≤ unit }
    ensures { result ≡ (a % unit == 0) }
{
    if a < unit {
        return a == 0;
    }
    a % unit == 0
}

/// Whether the difference of the two is whole.
pub fn is_same_modulo_1(f: &NumberWord, g: &NumberWord) -> bool
    ensures { result ≡ is_same_modulo_1 (fraction_of f.now) (fraction_of g.now) }
{
    let f = *f;
    let g = *g;
    let apart = apart(f.negative, f.num * g.den, g.negative, g.num * f.den);
    is_multiple_of(apart, f.den * g.den)
}

/// The size of d times the fraction.
fn size_of(f: &NumberWord, d: u128) -> u128
    requires { d ≤ 1000000000 }
    ensures value { result ≡ f.now.num * (d / f.now.den) }
    ensures size { result ≤ 10 ^ 27 }
{
    let f = *f;
    f.num * (d / f.den)
}

/// The number of this size and sign.
fn with_sign(negative: bool, size: u128) -> i128
    requires { size ≤ 10 ^ 27 }
    ensures value { result ≡ signed negative size }
    ensures size { AtMost (10 ^ 27) result }
{
    let number = size as i128;
    if negative { -number } else { number }
}

/// d times the fraction, where d is a multiple of the denominator; else its numerator times the whole part of d over the
/// denominator. Asks that d is at most 10^9.
pub fn times(f: &NumberWord, d: u128) -> i128
    requires { d ≤ 1000000000 }
    ensures value { result ≡ scaled d (fraction_of f.now) }
    ensures size { AtMost (10 ^ 27) result }
{
    let size = size_of(f, d);
    with_sign(f.negative, size)
}
