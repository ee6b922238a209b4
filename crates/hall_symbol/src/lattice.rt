// The lattice letter.
ghost use Rattle.std.specs.Prelude.{◌≡◌};
ghost use Rattle.hall_symbol.specs.TokenForms.{lattice_letter, lattice_of};

use crate::symbol::Lattice;
use crate::text::{first, without};

/// The lattice that the letter names, or `None`.
fn lattice_letter(b: u8) -> Option<Lattice>
    ensures { result ≡ lattice_letter b }
{
    match b {
        b'P' => Some(Lattice::P),
        b'A' => Some(Lattice::A),
        b'B' => Some(Lattice::B),
        b'C' => Some(Lattice::C),
        b'I' => Some(Lattice::I),
        b'R' => Some(Lattice::R),
        b'F' => Some(Lattice::F),
        _ => None,
    }
}

/// The lattice that the first word of a symbol names, behind an optional `-`, or `None`.
pub(crate) fn lattice_of(word: &[u8]) -> Option<Lattice>
    ensures { result ≡ lattice_of word.now }
{
    let letters = without(b'-', word);
    if letters.len() == 1 {
        lattice_letter(first(letters))
    } else {
        None
    }
}
