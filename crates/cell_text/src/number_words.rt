// Three words read as numbers, and numbers in units of 1/d.
ghost use Rattle.std.specs.Prelude.{◌≡◌, ◌≤◌, ◌^◌, [], ◌∷◌};
ghost use Rattle.std.specs.List.{list_all};
ghost use Rattle.ring.specs.Size.{AtMost};
ghost use Rattle.plain_text.specs.NumberWords.{scaled};
ghost use Rattle.plain_text.specs.Views.{fraction_of};
ghost use Rattle.cell_text.specs.Lines.{number_form};
ghost use Rattle.cell_text.specs.Entries.{values, is_billion};
ghost use Rattle.cell_text.specs.Views.{words_view, numbers_view, first_three, ReadsWords};

use crate::fault::CellFault;
use crate::three::{ThreeNumbers, ThreeWords};
use crate::version::Version;
use exact_num::Int;
use plain_text::{NumberForm, NumberWord, read_number, times, zero};

/// Which numbers a file of this version has.
fn number_form(version: Version) -> NumberForm
    ensures { result ≡ number_form version }
{
    match version {
        Version::One => NumberForm::Fraction,
        Version::Two => NumberForm::FractionOrDecimal,
    }
}

/// The numbers that three words of a file of this version spell, or the first rule that one of them breaks.
#[tactic(auto, unfolding(crate::specs::Lines::word_fault))]
pub(crate) fn read_numbers(version: Version, words: ThreeWords) -> Result<ThreeNumbers, CellFault>
    ensures { ReadsWords version (words_view words.entry) (λ f. numbers_view f ≡ values (words_view words.entry)) result }
{
    let form = number_form(version);
    let a = read_number(form, words.a)?;
    let b = read_number(form, words.b)?;
    let c = read_number(form, words.c)?;
    Ok(ThreeNumbers { a, b, c })
}

/// The moment of the scalar that a word of a file of this version spells, or the first rule that the word breaks.
#[tactic(auto, unfolding(crate::specs::Lines::word_fault))]
pub(crate) fn read_scalar(version: Version, word: &[u8]) -> Result<ThreeNumbers, CellFault>
    ensures { ReadsWords version (word.now ∷ []) (λ f. numbers_view f ≡ first_three (values (word.now ∷ []))) result }
{
    let a = read_number(number_form(version), word)?;
    Ok(ThreeNumbers {
        a,
        b: zero(),
        c: zero(),
    })
}

/// Whether d times the fraction is at most 10^9 in size; d is a multiple of the denominator.
fn is_billion(f: &NumberWord, d: u128) -> bool
    requires { d ≤ 1000000000 }
    ensures { result ≡ is_billion (scaled d (fraction_of f.now)) }
{
    times(f, d).unsigned_abs() <= 1_000_000_000
}

/// Whether d times each of the three is at most 10^9 in size.
pub(crate) fn are_billions(numbers: &ThreeNumbers, d: u128) -> bool
    requires { d ≤ 1000000000 }
    ensures { result ≡ list_all (λ f. is_billion (scaled d f)) (numbers_view numbers.now) }
{
    is_billion(&numbers.a, d) && is_billion(&numbers.b, d) && is_billion(&numbers.c, d)
}

/// d times the fraction; d is a multiple of the denominator.
pub(crate) fn whole(f: &NumberWord, d: u128) -> Int
    requires { d ≤ 1000000000 }
    ensures value { result ≡ scaled d (fraction_of f.now) }
    ensures size { AtMost (10 ^ 27) result }
{
    Int::new(times(f, d)).unwrap()
}
