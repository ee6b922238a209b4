// Operations of a primitive cell in the cell that it was made of.

ghost use Rattle.std.specs.Prelude.{◌≡◌, ◌↔◌, ◌⊎◌, ◌^◌, ◌≤◌, pos, ◌+ℤ◌, map, OnOk, IfOk, IfSome, IfNone};
ghost use Rattle.std.specs.Int.{int_rem_euclid};
ghost use Rattle.ring.specs.Size.{AtMost};
ghost use Rattle.lists.specs.Any.{AnyOf};
ghost use Rattle.lists.specs.Increasing.{IsMember};
ghost use Rattle.crystal_spec.specs.Matrices.{Triple, Matrix, product, image, multiple, sum_of};
ghost use Rattle.crystal_spec.specs.Crystals.{Structure};
ghost use Rattle.crystal_spec.specs.Operations.{Operation, IsWithinCell, ListsAll, ListsAllSame};
ghost use Rattle.crystal_spec.specs.Cells.{IsCell};
ghost use Rattle.matrix3.specs.Bounds.{EntriesAtMost, CoordinatesAtMost};
ghost use Rattle.positions.specs.Positions.{modulo, triple_of};
ghost use Rattle.basis_spec.specs.Bases.{IsPrimitiveIn, cell_in_basis};
ghost use Rattle.basis_spec.specs.Carrying.{IsCarried};
ghost use Rattle.matrix3.specs.Matrices.{of_columns};
ghost use Rattle.op_group.specs.Views.{operation_of};
ghost use Rattle.mag_ops.specs.Carried.{IsCarriedFrom};

use crystal::Sign;
use exact_num::Int;
use matrix3::{Mat3, Vec3};
use op_group::{Op, OpList};
use positions::{column, modulo};
use prim_cell::Primitive;
use std::alloc::{AllocError, Global};

/// The column divided by the index, or `None` where a quotient is no integer.
fn divided(column: &Vec3<Int>, index: u32) -> Option<Vec3<Int>>
    requires { 1 ≤ index }
    ensures found { IfSome result (λ v. column.now ≡ multiple (pos index) v) }
    ensures absent { IfNone result ((v : Triple) → ¬ (column.now ≡ multiple (pos index) v)) }
{
    let index = Int::from(index);
    Some(Vec3 {
        x: column.x.div_exact(&index)?,
        y: column.y.div_exact(&index)?,
        z: column.z.div_exact(&index)?,
    })
}

/// The column that Q takes to this one, or `None` where its coordinates are no integers.
fn column_in_cell(prim: &Primitive, column: &Vec3<Int>) -> Option<Vec3<Int>>
    requires { CoordinatesAtMost (2 ^ 32) column.now }
    ensures found { IfSome result (λ v. image prim.now.back v ≡ column.now) }
    ensures absent { IfNone result ((v : Triple) → ¬ (image prim.now.back v ≡ column.now)) }
    ensures size { IfSome result (λ v. CoordinatesAtMost (10 ^ 26) v) }
{
    let index = prim.index();
    let times_index = prim.fore().apply(column);
    divided(&times_index, index)
}

/// The matrix W with V Q = Q W, or `None` where its entries are no integers.
fn matrix_in_cell(prim: &Primitive, v: &Mat3<Int>) -> Option<Mat3<Int>>
    requires { EntriesAtMost 1 v.now }
    ensures found { IfSome result (λ w. product v.now prim.now.back ≡ product prim.now.back w) }
    ensures absent { IfNone result ((w : Matrix) → ¬ (product v.now prim.now.back ≡ product prim.now.back w)) }
{
    prim.invariant();
    let turned = v.times(prim.back());
    let (first, second, third) = turned.columns();
    Some(Mat3::of_columns(
        &column_in_cell(prim, &first)?,
        &column_in_cell(prim, &second)?,
        &column_in_cell(prim, &third)?,
    ))
}

/// The sum of a column and a translation part, modulo n.
fn moved(start: &Vec3<Int>, shift: [u32; 3], n: u32) -> [u32; 3]
    requires size { CoordinatesAtMost (10 ^ 26) start.now }
    requires at_least { 1 ≤ n }
    requires at_most { n ≤ 10 ^ 6 }
    ensures { triple_of result ≡ modulo n (sum_of start.now (triple_of shift)) }
{
    modulo(&start.plus(&column(shift)), n)
}

/// The sums of a column and the pure translations of the cell, modulo n, in order.
///
/// Refuses for want of memory alone.
fn shifts_of(
    alloc: Global,
    prim: &Primitive,
    start: &Vec3<Int>,
) -> Result<Vec<[u32; 3]>, AllocError>
    requires { CoordinatesAtMost (10 ^ 26) start.now }
    ensures { IfOk result (λ shifts. (t : Triple) → IsMember t (map triple_of shifts.items) ↔ AnyOf prim.now.shifts.operations (λ p. t ≡ modulo prim.now.cell.n (sum_of start.now p.translation))) }
{
    let cell = prim.cell();
    cell.invariant();
    let n = cell.n();
    let pure_translations = prim.shifts().ops();
    let mut shifts = Vec::with_capacity(alloc, pure_translations.len())?;
    for pure in pure_translations {
        shifts.push(moved(start, pure.shift, n))?;
    }
    shifts.sort_unstable();
    Ok(shifts)
}

/// Adds the operations of this matrix and time sign with each of the translation parts.
fn add_shifted(
    w: &Mat3<Int>,
    sign: Sign,
    shifts: &[[u32; 3]],
    found: &mut Vec<Op>,
) -> Result<(), AllocError>
    ensures { OnOk result ((o : Operation) → IsMember o (map operation_of found.new.items) ↔ (AnyOf (map triple_of shifts.now) (λ t. o ≡ record { matrix = w.now; translation = t; sign = sign }) ⊎ IsMember o (map operation_of found.old.items))) }
{
    for shift in shifts {
        found.push(Op {
            w: *w,
            shift: *shift,
            sign,
        })?;
    }
    Ok(())
}

/// Adds the operations of the cell that Q takes to this one of the primitive cell.
fn add_carried(
    alloc: Global,
    prim: &Primitive,
    op: &Op,
    found: &mut Vec<Op>,
) -> Result<(), AllocError>
    requires small { EntriesAtMost 1 op.now.w }
    requires below_n { IsWithinCell prim.now.cell.n (triple_of op.now.shift) }
    ensures { OnOk result ((o : Operation) → IsMember o (map operation_of found.new.items) ↔ (IsCarriedFrom prim.now.cell.n prim.now.back (operation_of op.now) o ⊎ IsMember o (map operation_of found.old.items))) }
{
    prim.cell().invariant();
    prim.invariant();
    prim.shifts().invariant();
    let Some(w) = matrix_in_cell(prim, &op.w) else {
        return Ok(());
    };
    let Some(start) = column_in_cell(prim, &column(op.shift)) else {
        return Ok(());
    };
    let shifts = shifts_of(alloc, prim, &start)?;
    add_shifted(&w, op.sign, &shifts, found)
}

/// All operations of the crystal in the basis of the cell that the primitive cell was made of, each once in order, with n that
/// of the cell.
///
/// It is given all operations of the primitive cell, or all that do not reverse time, and lists the same of the cell. With Q,
/// which takes coordinates in the cell to those in the primitive cell, an operation (V, v, sign) gives those (W, w, sign) of
/// integers with V Q = Q W and Q w = v modulo n; where W has fractions it gives none. Refuses for want of memory alone.
pub fn in_cell(alloc: Global, prim: &Primitive, list: &OpList) -> Result<OpList, AllocError>
    requires group { ListsAll prim.now.cell list.now.operations ⊎ ListsAllSame prim.now.cell list.now.operations }
    ensures n { IfOk result (λ found. found.n ≡ prim.now.cell.n) }
    ensures exact { IfOk result (λ found. (o : Operation) → IsMember o found.operations ↔ IsCarried prim.now.cell.n prim.now.back list.now.operations o) }
    ensures all { IfOk result (λ found. (c : Structure) → IsCell c → IsPrimitiveIn c prim.now.back → cell_in_basis c prim.now.back ≡ prim.now.cell → ListsAll prim.now.cell list.now.operations → ListsAll c found.operations) }
    ensures all_same { IfOk result (λ found. (c : Structure) → IsCell c → IsPrimitiveIn c prim.now.back → cell_in_basis c prim.now.back ≡ prim.now.cell → ListsAllSame prim.now.cell list.now.operations → ListsAllSame c found.operations) }
{
    let cell = prim.cell();
    cell.invariant();
    prim.invariant();
    let ops = list.ops();
    let most = ops.len().saturating_mul(prim.shifts().count());
    let mut carried = Vec::with_capacity(alloc, most)?;
    for op in ops {
        add_carried(alloc, prim, op, &mut carried)?;
    }
    let found = OpList::sorted(cell.n(), carried)?;
    found.invariant();
    Ok(found)
}
