//! Plain text: lines, words, digits, number words read, and numbers printed.
//!
//! Text is a list of bytes. A number is an optional `-` and a fraction, digits and optionally `/` and digits, each part of at most
//! 18 digits; or, where decimals are read, digits, `.` and digits, at most 18 together. It is printed as a fraction in lowest terms,
//! and read back as the same number.
//!
//! Definitions: `specs/Text` (lines, words, bytes), `specs/Digits`, `specs/NumberWords` (number words and what they spell),
//! `specs/NumberText` (numbers as they are printed) and `specs/FirstFaults` (the first of some faults). The formats are our
//! own.
#![tactic(auto)]

mod blanks;
mod digits;
mod fault;
mod lines;
mod number;
mod number_form;
mod number_word;
mod print;
pub mod texts;

pub use digits::{count, is_digits, value_of_digits};
pub use fault::NumberFault;
pub use lines::{first_line, has_bad_byte, is_plain_byte, words, words_between_spaces};
pub use number::{grown, is_same_modulo_1, read_number, times, zero};
pub use number_form::NumberForm;
pub use number_word::NumberWord;
pub use print::{push_decimal, push_number, push_numbers};
