ghost use Rattle.std.specs.Prelude.{◌≡◌, ◌↔◌, ◌⊎◌, ◌^◌, IfOk, OnOk};
ghost use Rattle.lists.specs.Increasing.{IsIncreasing, IsMember};
ghost use Rattle.crystal_spec.specs.Matrices.{Matrix, transposed};
ghost use Rattle.crystal_spec.specs.Crystals.{KeepsMetric};
ghost use Rattle.lattice_spec.specs.Niggli.{HasShortAxes, IsNiggli};
ghost use Rattle.crystal.specs.Views.{metric_of};
ghost use Rattle.matrix3.specs.Bounds.{EntriesAtMost, CoordinatesAtMost};
ghost use Rattle.lattice_iso.specs.Isometries.{matrix_order, ListsIsometries};
ghost use Rattle.lattice_iso.specs.Columns.{ListsOfLength, IsMatrixOf, HasColumns, HasFirstColumn, HasColumnsOf};

use crate::columns::{columns_of_length, product};
use crate::list::Isos;
use crystal::Metric;
use exact_num::Int;
use matrix3::{Mat3, Vec3};
use std::alloc::{AllocError, Global};

/// Puts the matrix of these columns into the list, where the products of c with a and b are those of the axes.
fn add_matrix(
    g: &Mat3<Int>,
    a: &Vec3<Int>,
    b: &Vec3<Int>,
    c: &Vec3<Int>,
    found: &mut Isos,
) -> Result<(), AllocError>
    requires metric { EntriesAtMost (10 ^ 34) g.now }
    requires a { CoordinatesAtMost 1 a.now }
    requires b { CoordinatesAtMost 1 b.now }
    requires c { CoordinatesAtMost 1 c.now }
    ensures members { OnOk result ((w : Matrix) → IsMember w found.new ↔ (IsMatrixOf g.now a.now b.now c.now w ⊎ IsMember w found.old)) }
{
    if product(g, a, c) == g.a13 && product(g, b, c) == g.a23 {
        found.insert(Mat3::of_columns(a, b, c))?;
    }
    Ok(())
}

/// Puts the isometries of these first two columns into the list, where their product is that of the axes.
fn add_with_columns(
    g: &Mat3<Int>,
    a: &Vec3<Int>,
    b: &Vec3<Int>,
    third: &[Vec3<Int>],
    found: &mut Isos,
) -> Result<(), AllocError>
    requires metric { EntriesAtMost (10 ^ 34) g.now }
    requires a { CoordinatesAtMost 1 a.now }
    requires b { CoordinatesAtMost 1 b.now }
    requires third { ListsOfLength g.now g.now.a33 third.now }
    ensures members { OnOk result ((w : Matrix) → IsMember w found.new ↔ (HasColumns g.now a.now b.now third.now w ⊎ IsMember w found.old)) }
{
    if product(g, a, b) != g.a12 {
        return Ok(());
    }
    for c in third {
        add_matrix(g, a, b, c, found)?;
    }
    Ok(())
}

/// Puts the isometries of this first column into the list.
fn add_with_first_column(
    g: &Mat3<Int>,
    a: &Vec3<Int>,
    second: &[Vec3<Int>],
    third: &[Vec3<Int>],
    found: &mut Isos,
) -> Result<(), AllocError>
    requires metric { EntriesAtMost (10 ^ 34) g.now }
    requires a { CoordinatesAtMost 1 a.now }
    requires second { ListsOfLength g.now g.now.a22 second.now }
    requires third { ListsOfLength g.now g.now.a33 third.now }
    ensures members { OnOk result ((w : Matrix) → IsMember w found.new ↔ (HasFirstColumn g.now a.now second.now third.now w ⊎ IsMember w found.old)) }
{
    for b in second {
        add_with_columns(g, a, b, third, found)?;
    }
    Ok(())
}

/// All isometries, of columns that are listed by their squared lengths.
fn all_of_columns(
    alloc: Global,
    g: &Mat3<Int>,
    first: &[Vec3<Int>],
    second: &[Vec3<Int>],
    third: &[Vec3<Int>],
) -> Result<Isos, AllocError>
    requires metric { EntriesAtMost (10 ^ 34) g.now }
    requires first { ListsOfLength g.now g.now.a11 first.now }
    requires second { ListsOfLength g.now g.now.a22 second.now }
    requires third { ListsOfLength g.now g.now.a33 third.now }
    ensures increasing { IfOk result (λ list. IsIncreasing matrix_order list) }
    ensures members { IfOk result (λ list. (w : Matrix) → IsMember w list ↔ HasColumnsOf g.now first.now second.now third.now w) }
{
    let mut found = Isos::new(alloc);
    for a in first {
        add_with_first_column(g, a, second, third, &mut found)?;
    }
    let _count = found.count();
    Ok(found)
}

/// All isometries of a metric tensor, each once, in increasing order of their nine entries row by row.
///
/// The metric tensor is that of a Niggli-reduced basis, with entries up to 10^16. Each isometry has entries -1, 0 and 1, as
/// it has for every metric tensor that meets the main conditions, so its columns are among 26, and those of the squared
/// lengths A, B and C are tried. Refuses for want of memory alone.
pub fn isometries(alloc: Global, metric: &Metric) -> Result<Isos, AllocError>
    requires niggli { IsNiggli (metric_of metric.now) }
    requires small { EntriesAtMost (10 ^ 16) (metric_of metric.now) }
    ensures exact { IfOk result (λ list. ListsIsometries (metric_of metric.now) list) }
    ensures small { IfOk result (λ list. (w : Matrix) → IsMember w list → EntriesAtMost 1 w) }
    ensures entries { (g w : Matrix) → transposed g ≡ g → HasShortAxes g → KeepsMetric g w → EntriesAtMost 1 w }
{
    let g = metric.matrix();
    let first = columns_of_length(alloc, &g, g.a11)?;
    let second = columns_of_length(alloc, &g, g.a22)?;
    let third = columns_of_length(alloc, &g, g.a33)?;
    all_of_columns(alloc, &g, &first, &second, &third)
}
