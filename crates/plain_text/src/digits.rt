// Digits and their value.
ghost use Rattle.std.specs.Prelude.{◌≡◌, ◌<◌, ◌≤◌, ◌^◌, length, true};
ghost use Rattle.plain_text.specs.Digits.{is_digit, is_digits, value_of_digits, is_count, count_of};

fn is_digit(b: u8) -> bool
    ensures { result ≡ is_digit b }
{
    b'0' <= b && b <= b'9'
}

/// Whether there are one or more digits, and nothing else.
pub fn is_digits(part: &[u8]) -> bool
    ensures { result ≡ is_digits part.now }
{
    if part.is_empty() {
        return false;
    }
    for b in part {
        if !is_digit(*b) {
            return false;
        }
    }
    true
}

/// The number that at most 18 digits spell to base ten.
pub fn value_of_digits(digits: &[u8]) -> u128
    requires digits { is_digits digits.now ≡ true }
    requires short { length digits.now ≤ 18 }
    ensures value { result ≡ value_of_digits digits.now }
    ensures bound { result < 10 ^ 18 }
{
    let mut value: u128 = 0;
    for b in digits {
        value = 10 * value + (*b - b'0') as u128;
    }
    value
}

/// Whether there are 1 to 9 digits, and nothing else.
fn is_count(word: &[u8]) -> bool
    ensures { result ≡ is_count word.now }
{
    is_digits(word) && word.len() <= 9
}

/// The number that 1 to 9 digits spell to base ten. `None` where the word is anything else.
pub fn count(word: &[u8]) -> Option<u32>
    ensures { result ≡ count_of word.now }
{
    if !is_count(word) {
        return None;
    }
    Some(value_of_digits(word) as u32)
}
