// The cell of the lines of a cell file.
ghost use Rattle.std.specs.Prelude.{◌≡◌, ◌≤◌, ◌<◌, ◌^◌, pos, map, length, IfOk, OnOk, true, [], ◌∷◌};
ghost use Rattle.crystal_spec.specs.Moments.{axial_vectors, IsOfKind};
ghost use Rattle.crystal.specs.Views.{metric_of as tensor};
ghost use Rattle.crystal.specs.Occupants.{NoneAt};
ghost use Rattle.plain_text.specs.NumberWords.{common_denominator};
ghost use Rattle.cell_text.specs.Entries.{positions, moments, is_positive};
ghost use Rattle.cell_text.specs.CellFile.{with_name, number_of, position_of, moment_of, cell_with};
ghost use Rattle.cell_text.specs.Filling.{with_atom, whole_of};
ghost use Rattle.cell_text.specs.Views.{atom_view, AreApart, AreOfKind};
ghost use Rattle.cell_text.specs.Readers.{metric_view, kinds_of, kind_or_default};

use crate::atom_line::AtomLine;
use crate::in_units::{moment_of, position_of};
use crate::names::{first_names, number_name};
use crate::scaled_metric::ScaledMetric;
use crystal::{Atom, Cell, MOST_ATOMS, MOST_NAMES, MomentKind, Name};
use exact_num::Int;
use indexmap::IndexSet;
use std::alloc::{AllocError, Global};

/// The kind that a line tells, or axial vectors where none does.
pub(crate) fn kind_or_default(kind: Option<MomentKind>) -> MomentKind
    ensures { result ≡ kind_or_default kind }
{
    match kind {
        Some(kind) => kind,
        None => MomentKind {
            vector: true,
            axial: true,
        },
    }
}

/// Names the species of this number, unless it has its name.
fn name_species(cell: &mut Cell, number: usize, name: &Name) -> Result<(), AllocError>
    requires number { number ≡ number_of cell.old.names name.now }
    requires fewer { length cell.old.names < MOST_NAMES }
    ensures { OnOk result (cell.new ≡ record cell.old { names = with_name cell.old.names name.now }) }
{
    if number < cell.names() {
        return Ok(());
    }
    cell.add_name(name.copied())?;
    Ok(())
}

/// Adds an atom, and its name where it is new.
fn add_atom(
    alloc: Global,
    cell: &mut Cell,
    names: &mut IndexSet<Vec<u8>>,
    atom: &AtomLine,
) -> Result<(), AllocError>
    requires names { map (λ v. v.items) names.old.keys ≡ cell.old.names }
    requires n_at_least { 1 ≤ cell.old.n }
    requires n_at_most { cell.old.n ≤ 10 ^ 6 }
    requires k_at_most { cell.old.k ≤ 10 ^ 6 }
    requires of_kind { IsOfKind cell.old.kind (moment_of cell.old.k (atom_view atom.now)) }
    requires free { NoneAt (position_of cell.old.n (atom_view atom.now)) cell.old.atoms }
    requires fewer_names { length cell.old.names < MOST_NAMES }
    requires fewer { length cell.old.atoms < MOST_ATOMS }
    ensures cell { OnOk result (cell.new ≡ with_atom cell.old (atom_view atom.now)) }
    ensures names { OnOk result (map (λ v. v.items) names.new.keys ≡ with_name cell.old.names atom.now.name) }
{
    let name = Vec::from_slice(alloc, atom.name.as_bytes())?;
    let number = number_name(names, name)?;
    name_species(cell, number, &atom.name)?;
    let n = cell.n();
    let k = cell.k();
    cell.add(Atom {
        species: number as u16,
        place: position_of(atom, n),
        moment: moment_of(atom, k),
    })
}

/// The scale as an exact integer.
fn exact_scale(metric: &ScaledMetric) -> Int
    ensures { result ≡ pos metric.now.scale }
{
    let metric = *metric;
    Int::new(metric.scale as i128).unwrap()
}

/// The cell of the first atom.
fn first_cell(
    alloc: Global,
    kind: MomentKind,
    metric: &ScaledMetric,
    n: u32,
    k: u32,
    atom: &AtomLine,
) -> Result<Cell, AllocError>
    requires positive { is_positive (tensor metric.now.metric) ≡ true }
    requires n_at_least { 1 ≤ n }
    requires n_at_most { n ≤ 10 ^ 6 }
    requires k_at_least { 1 ≤ k }
    requires k_at_most { k ≤ 10 ^ 6 }
    requires of_kind { IsOfKind kind (moment_of k (atom_view atom.now)) }
    ensures { IfOk result (λ c. c ≡ record { names = atom.now.name ∷ []; scale = pos metric.now.scale; metric = tensor metric.now.metric; n = n; k = k; kind = kind; atoms = record { species = 0; position = position_of n (atom_view atom.now); moment = moment_of k (atom_view atom.now) } ∷ [] }) }
{
    let first = Atom {
        species: 0,
        place: position_of(atom, n),
        moment: moment_of(atom, k),
    };
    let scale = exact_scale(metric);
    Cell::build(
        alloc,
        scale,
        metric.metric,
        n,
        k,
        kind,
        atom.name.copied(),
        first,
    )
}

/// The cell of a metric tensor and of one or more atoms, no two at one position. Its moments are of this kind.
///
/// The least common denominators of positions and moments are n and k. Refuses for want of memory alone.
pub(crate) fn cell_of(
    alloc: Global,
    kind: &Option<MomentKind>,
    metric: &ScaledMetric,
    n: u32,
    k: u32,
    atoms: &[AtomLine],
) -> Result<Cell, AllocError>
    requires positive { is_positive (tensor metric.now.metric) ≡ true }
    requires n { n ≡ common_denominator (positions (map atom_view atoms.now)) }
    requires k { k ≡ common_denominator (moments (map atom_view atoms.now)) }
    requires n_at_least { 1 ≤ n }
    requires n_at_most { n ≤ 10 ^ 6 }
    requires k_at_least { 1 ≤ k }
    requires k_at_most { k ≤ 10 ^ 6 }
    requires some { 0 < length atoms.now }
    requires few { length atoms.now ≤ MOST_ATOMS }
    requires apart { AreApart (map atom_view atoms.now) }
    requires of_kind { AreOfKind (kind_or_default kind.now) (map atom_view atoms.now) }
    ensures { IfOk result (λ c. c ≡ cell_with (whole_of (kinds_of kind.now) (metric_view metric.now) (map atom_view atoms.now))) }
{
    let [first, rest @ ..] = atoms else {
        unreachable!();
    };
    let mut cell = first_cell(alloc, kind_or_default(*kind), metric, n, k, first)?;
    let mut names = first_names(alloc, first.name.as_bytes())?;
    for atom in rest {
        add_atom(alloc, &mut cell, &mut names, atom)?;
    }
    Ok(cell)
}
