// Rotation tokens.
ghost use Rattle.std.specs.Prelude.{◌≡◌, ◌<◌, ◌≤◌, length, MatchResult, IfOk, Some, None};
ghost use Rattle.hall_symbol.specs.Tokens.{token_fault, token_in};

use crate::fault::HallFault;
use crate::rotation::{found_rotation, is_screw_right, rotation_in};
use crate::symbol::Token;
use crate::text::begins;
use crate::token_form::{is_token_form, letters_in, screw_in, sign_in};
use crate::translation::{letters_translation, plus, screw_translation};

/// The token that the word spells behind these ones, or its first fault.
#[tactic(auto, unfolding(crate::specs::Tokens::token_fault))]
pub(crate) fn read_token(before: &[Token], word: &[u8]) -> Result<Token, HallFault>
    requires { length before.now ≤ 5 }
    ensures value { MatchResult result (λ t. (token_fault before.now word.now ≡ None) × (t ≡ token_in before.now word.now)) (λ f. token_fault before.now word.now ≡ Some f) }
    ensures few { IfOk result (λ _. length before.now < 5) }
{
    if before.len() == 5 {
        return Err(HallFault::TooManyTokens);
    }
    let number = before.len() as u32 + 1;
    if !is_token_form(word) {
        return Err(HallFault::BadToken(number));
    }
    if rotation_in(before, word).is_none() {
        return Err(HallFault::NoAxis(number));
    }
    if !is_screw_right(before, word) {
        return Err(HallFault::BadScrew(number));
    }
    Ok(token_in(before, word))
}

/// The token that the word spells behind these ones.
#[tactic(auto, unfolding(crate::specs::Tokens::token_in))]
fn token_in(before: &[Token], word: &[u8]) -> Token
    ensures { result ≡ token_in before.now word.now }
{
    let rotation = found_rotation(rotation_in(before, word));
    let screw = screw_translation(rotation, screw_in(word));
    Token {
        is_negated: begins(b'-', word),
        rotation,
        translation: plus(screw, letters_translation(letters_in(word))),
        sign: sign_in(word),
    }
}
