// What a line is, by its words.
ghost use Rattle.std.specs.Prelude.{◌≡◌, ℕ, map, MatchResult, None, Some};
ghost use Rattle.plain_text.specs.Text.{words};
ghost use Rattle.cell_text.specs.Lines.{begins_comment, version_numbered, version_of_words, version_of, vector_of, axial_of, kind_by_default, kind_with, kind_of_words, behind_metric, behind_atom, behind_end, behind_kind, entry_behind, entry_of_words};
ghost use Rattle.cell_text.specs.Rules.{heading_fault};
ghost use Rattle.cell_text.specs.Views.{entry_view};

use crate::fault::CellFault;
use crate::form::Form;
use crate::three::{MomentWords, ThreeWords};
use crate::version::Version;
use crystal::{MomentKind, Name};
use plain_text::has_bad_byte;

/// The version of this number.
fn version_numbered(word: &[u8]) -> Option<Version>
    ensures { result ≡ version_numbered word.now }
{
    if word == b"1".as_slice() {
        Some(Version::One)
    } else if word == b"2".as_slice() {
        Some(Version::Two)
    } else {
        None
    }
}

/// The version that the words `magcell 1` or `magcell 2` tell.
fn version_of(words: &[&[u8]]) -> Option<Version>
    ensures { result ≡ version_of_words (map (λ w. w.now) words.now) }
{
    match words {
        [first, second] => {
            if *first == b"magcell".as_slice() {
                version_numbered(*second)
            } else {
                None
            }
        },
        _ => None,
    }
}

/// The version that the first line tells.
#[tactic(auto, unfolding(crate::specs::Lines::version_of, crate::specs::Rules::heading_fault))]
pub(crate) fn heading(line: &[u8], parts: &[&[u8]]) -> Result<Version, CellFault>
    requires cut { map (λ w. w.now) parts.now ≡ words line.now }
    ensures { MatchResult result (λ v. (heading_fault line.now ≡ None) × (version_of line.now ≡ Some v)) (λ e. heading_fault line.now ≡ Some e) }
{
    if has_bad_byte(line) {
        return Err(CellFault::BadByte);
    }
    let Some(version) = version_of(parts) else {
        return Err(CellFault::NotMagcell);
    };
    Ok(version)
}

fn begins_comment(word: &[u8]) -> bool
    ensures { result ≡ begins_comment word.now }
{
    match word {
        [b'#', ..] => true,
        _ => false,
    }
}

/// What a line is whose first word is `metric`.
fn behind_metric<'a>(words: &'a [&'a [u8]]) -> Form<'a>
    ensures { entry_view result ≡ behind_metric (map (λ w. w.now) words.now) }
{
    match words {
        [aa, bb, cc, bc, ac, ab] => Form::Metric(
            ThreeWords {
                a: *aa,
                b: *bb,
                c: *cc,
            },
            ThreeWords {
                a: *bc,
                b: *ac,
                c: *ab,
            },
        ),
        _ => Form::Other,
    }
}

/// What a line is whose first word is `atom`.
fn behind_atom<'a>(words: &'a [&'a [u8]]) -> Form<'a>
    ensures { entry_view result ≡ behind_atom (map (λ w. w.now) words.now) }
{
    let [name, numbers @ ..] = words else {
        return Form::Other;
    };
    let Some(name) = Name::new(*name) else {
        return Form::Other;
    };
    match numbers {
        [x, y, z] => Form::Atom(
            name,
            ThreeWords {
                a: *x,
                b: *y,
                c: *z,
            },
            MomentWords::Absent,
        ),
        [x, y, z, s] => Form::Atom(
            name,
            ThreeWords {
                a: *x,
                b: *y,
                c: *z,
            },
            MomentWords::Scalar(*s),
        ),
        [x, y, z, ma, mb, mc] => Form::Atom(
            name,
            ThreeWords {
                a: *x,
                b: *y,
                c: *z,
            },
            MomentWords::Vector(ThreeWords {
                a: *ma,
                b: *mb,
                c: *mc,
            }),
        ),
        _ => Form::Other,
    }
}

/// What a line is whose first word is `end`.
fn behind_end<'a>(words: &'a [&'a [u8]]) -> Form<'a>
    ensures { entry_view result ≡ behind_end (map (λ w. w.now) words.now) }
{
    if words.is_empty() {
        Form::End
    } else {
        Form::Other
    }
}

/// Whether moments are vectors, by the word for it.
fn is_vector(word: &[u8]) -> Option<bool>
    ensures { result ≡ vector_of word.now }
{
    if word == b"vector".as_slice() {
        Some(true)
    } else if word == b"scalar".as_slice() {
        Some(false)
    } else {
        None
    }
}

/// Whether moments are axial, by the word for it.
fn is_axial(word: &[u8]) -> Option<bool>
    ensures { result ≡ axial_of word.now }
{
    if word == b"axial".as_slice() {
        Some(true)
    } else if word == b"plain".as_slice() {
        Some(false)
    } else {
        None
    }
}

/// The kind of moments, where they are vectors or not, and nothing else is said.
fn kind_by_default(vector: Option<bool>) -> Option<MomentKind>
    ensures { result ≡ kind_by_default vector }
{
    let vector = vector?;
    Some(MomentKind {
        vector,
        axial: vector,
    })
}

/// The kind of moments, where they are vectors or not, and axial or not.
fn kind_with(vector: Option<bool>, axial: Option<bool>) -> Option<MomentKind>
    ensures { result ≡ kind_with vector axial }
{
    let vector = vector?;
    let axial = axial?;
    Some(MomentKind { vector, axial })
}

/// The kind of moments that the words behind `kind` tell.
fn kind_of(words: &[&[u8]]) -> Option<MomentKind>
    ensures { result ≡ kind_of_words (map (λ w. w.now) words.now) }
{
    match words {
        [shape] => kind_by_default(is_vector(*shape)),
        [shape, factor] => kind_with(is_vector(*shape), is_axial(*factor)),
        _ => None,
    }
}

/// What a line is whose first word is `kind`. Only version 2 has it.
fn behind_kind<'a>(version: Version, words: &'a [&'a [u8]]) -> Form<'a>
    ensures { entry_view result ≡ behind_kind version (map (λ w. w.now) words.now) }
{
    match version {
        Version::One => Form::Other,
        Version::Two => match kind_of(words) {
            Some(kind) => Form::Kind(kind),
            None => Form::Other,
        },
    }
}

/// What a line is, by its first word and those behind it.
fn form_behind<'a>(version: Version, first: &[u8], words: &'a [&'a [u8]]) -> Form<'a>
    ensures { entry_view result ≡ entry_behind version first.now (map (λ w. w.now) words.now) }
{
    if begins_comment(first) {
        Form::Skipped
    } else if first == b"metric".as_slice() {
        behind_metric(words)
    } else if first == b"atom".as_slice() {
        behind_atom(words)
    } else if first == b"end".as_slice() {
        behind_end(words)
    } else if first == b"kind".as_slice() {
        behind_kind(version, words)
    } else {
        Form::Other
    }
}

/// What a later line of a file of this version is, by its words.
pub(crate) fn form_of<'a>(version: Version, words: &'a [&'a [u8]]) -> Form<'a>
    ensures { entry_view result ≡ entry_of_words version (map (λ w. w.now) words.now) }
{
    match words {
        [] => Form::Skipped,
        [first, rest @ ..] => form_behind(version, *first, rest),
    }
}
