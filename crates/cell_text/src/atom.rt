// Atom lines read, their ranges, and atoms at one position.
ghost use Rattle.std.specs.Prelude.{true, ◌≡◌, ◌≤◌, ◌+◌, ◌++◌, map, length, MatchResult, Some, None, [], ◌∷◌};
ghost use Rattle.std.specs.List.{list_all};
ghost use Rattle.plain_text.specs.NumberWords.{scaled};
ghost use Rattle.cell_text.specs.Entries.{values, atom_line_of, moments, is_billion, is_same_place};
ghost use Rattle.cell_text.specs.Rules.{same_place, are_numbers_of};
ghost use Rattle.cell_text.specs.Views.{atom_view, words_view, numbers_view, first_three, moment_view, ReadsWords};

use crate::atom_line::AtomLine;
use crate::fault::CellFault;
use crate::number_words::{are_billions, read_numbers, read_scalar};
use crate::three::{MomentWords, ThreeNumbers, ThreeWords};
use crate::version::Version;
use crystal::{MOST_ATOMS, MomentKind, Name};
use plain_text::{is_same_modulo_1, zero};

/// Whether these are the words of a moment of this kind.
pub(crate) fn is_of_kind(kind: MomentKind, words: &MomentWords) -> bool
    ensures { result ≡ are_numbers_of kind (3 + length (moment_view words.now)) }
{
    match words {
        MomentWords::Absent => true,
        MomentWords::Scalar(_) => !kind.vector,
        MomentWords::Vector(_) => kind.vector,
    }
}

/// The moment that its words spell in a file of this version, 0 where there are none; or the first rule that a word breaks.
fn read_moment(version: Version, words: MomentWords) -> Result<ThreeNumbers, CellFault>
    ensures { ReadsWords version (moment_view words.entry) (λ f. numbers_view f ≡ first_three (values (moment_view words.entry))) result }
{
    match words {
        MomentWords::Vector(words) => read_numbers(version, words),
        MomentWords::Scalar(word) => read_scalar(version, word),
        MomentWords::Absent => Ok(ThreeNumbers {
            a: zero(),
            b: zero(),
            c: zero(),
        }),
    }
}

/// What an atom line of a file of this version says, or the first rule that a word breaks that is to be a number.
pub(crate) fn read_atom(
    version: Version,
    name: Name,
    position: ThreeWords,
    moment: MomentWords,
) -> Result<AtomLine, CellFault>
    ensures { ReadsWords version (words_view position.entry ++ moment_view moment.entry) (λ a. atom_view a ≡ atom_line_of name (values (words_view position.entry ++ moment_view moment.entry))) result }
{
    let position = read_numbers(version, position)?;
    let moment = read_moment(version, moment)?;
    Ok(AtomLine {
        name,
        position,
        moment,
    })
}

/// Whether k times its moment is at most 10^9 in size.
#[tactic(auto, unfolding(crate::specs::Entries::moments))]
pub(crate) fn is_moment_in_range(a: &AtomLine, k: u128) -> bool
    requires { k ≤ 1000000 }
    ensures { result ≡ list_all (λ m. is_billion (scaled k m)) (moments (atom_view a.now ∷ [])) }
{
    are_billions(&a.moment, k)
}

/// Whether k times their moments are.
pub(crate) fn are_moments_in_range(atoms: &[AtomLine], k: u128) -> bool
    requires { k ≤ 1000000 }
    ensures { result ≡ list_all (λ m. is_billion (scaled k m)) (moments (map atom_view atoms.now)) }
{
    for a in atoms {
        if !is_moment_in_range(a, k) {
            return false;
        }
    }
    true
}

fn is_same_place(a: &AtomLine, b: &AtomLine) -> bool
    ensures { result ≡ is_same_place (atom_view a.now) (atom_view b.now) }
{
    is_same_modulo_1(&a.position.a, &b.position.a)
        && is_same_modulo_1(&a.position.b, &b.position.b)
        && is_same_modulo_1(&a.position.c, &b.position.c)
}

/// The first of these atoms at whose position the next atom stands.
#[tactic(auto, unfolding(crate::specs::Rules::same_place))]
pub(crate) fn same_place(atoms: &[AtomLine], b: &AtomLine) -> Result<(), CellFault>
    requires { length atoms.now ≤ MOST_ATOMS }
    ensures { MatchResult result (λ _. same_place (map atom_view atoms.now) (atom_view b.now) ≡ None) (λ e. same_place (map atom_view atoms.now) (atom_view b.now) ≡ Some e) }
{
    for (i, a) in atoms.iter().enumerate() {
        if is_same_place(a, b) {
            return Err(CellFault::SamePlace(i as u32 + 1, atoms.len() as u32 + 1));
        }
    }
    Ok(())
}
