// A Hall symbol, read from the left.
ghost use Rattle.std.specs.Prelude.{◌≡◌, ◌≢◌, ◌<◌, [], length, MatchResult, IfOk, IfErr, Some, None};
ghost use Rattle.plain_text.specs.Text.{words_between_spaces};
ghost use Rattle.hall_symbol.specs.Symbols.{HallSymbol};
ghost use Rattle.hall_symbol.specs.Spelling.{tokens_fault, tokens_in, symbol_fault, Spells};
ghost use Rattle.hall_symbol.specs.Views.{with_tokens};

use crate::fault::HallFault;
use crate::lattice::lattice_of;
use crate::shift::read_shift;
use crate::symbol::Symbol;
use crate::text::{begins, cut, first_word};
use crate::token::read_token;

/// The symbol with the tokens that the words of the text spell, or their first fault.
fn read_tokens(symbol: Symbol, text: &[u8]) -> Result<Symbol, HallFault>
    requires { symbol.tokens ≡ [] }
    ensures { MatchResult result (λ s. (tokens_fault [] (words_between_spaces text.now) ≡ None) × (s ≡ with_tokens symbol (tokens_in [] (words_between_spaces text.now)))) (λ f. tokens_fault [] (words_between_spaces text.now) ≡ Some f) }
{
    let mut found = symbol;
    let mut rest = text;
    while let Some((word, after)) = first_word(rest) {
        match read_token(found.tokens(), word) {
            Ok(token) => found.push(token),
            Err(fault) => return Err(fault),
        }
        rest = after;
    }
    if found.tokens().is_empty() {
        return Err(HallFault::BadToken(1));
    }
    Ok(found)
}

/// The symbol that the text spells, or its first fault from the left. It takes no memory.
///
/// Words stand between spaces; a tab is a byte of a word. Tokens are counted from 1. Of two faults of one token, or at one
/// place of the text, the one is told that comes first in the order: no word, lattice, a sixth token, form of the token,
/// axis, screw digit, shift. The mark `!` is our own. [Hal81; ITVB A1.4.2.3]
#[tactic(auto, unfolding(crate::specs::Spelling::symbol_fault, crate::specs::Spelling::symbol_of))]
pub fn read_symbol(text: &[u8]) -> Result<Symbol, HallFault>
    ensures value { IfOk result (Spells text.now) }
    ensures refused { IfErr result (λ f. symbol_fault text.now ≡ Some f) }
{
    let Some((word, rest)) = first_word(text) else {
        return Err(HallFault::Empty);
    };
    let Some(lattice) = lattice_of(word) else {
        return Err(HallFault::BadLattice);
    };
    let (tokens, shift) = cut(rest, b'(');
    let mut symbol = match read_tokens(Symbol::new(begins(b'-', word), lattice), tokens) {
        Ok(symbol) => symbol,
        Err(fault) => return Err(fault),
    };
    let Some(shift) = read_shift(shift) else {
        return Err(HallFault::BadShift);
    };
    symbol.set_shift(shift);
    Ok(symbol)
}
