// The primitive cell in a reduced basis.

ghost use Rattle.std.specs.Prelude.{◌≡◌, ◌≤◌, ◌^◌, ◌≤ℤ◌, pos, length, IfOk};
ghost use Rattle.crystal_spec.specs.Matrices.{determinant, adjugate};
ghost use Rattle.lattice_spec.specs.Niggli.{IsNiggli};
ghost use Rattle.matrix3.specs.Bounds.{EntriesAtMost};
ghost use Rattle.crystal.specs.Numbering.{AreByFirstUse};
ghost use Rattle.basis_spec.specs.Translations.{ListsPureTranslations};
ghost use Rattle.basis_spec.specs.Bases.{cell_in_basis, IsPrimitiveIn};
ghost use Rattle.crystal.specs.Sizes.{HasSizesOfRead};
ghost use Rattle.prim_cell.specs.Primitives.{TakesToStepBasis};

use crate::basis::{Basis, reduced_basis};
use crate::primitive_cell::Primitive;
use crate::rebased::rebased;
use crate::translation::pure_shifts;
use crystal::{Cell, Places};
use std::alloc::{AllocError, Global};

/// The primitive cell of the crystal in a Niggli-reduced basis of all its translations.
///
/// Where the triangular basis of the pure translations has a reduced metric tensor it is that basis. Of atoms at one position
/// in the primitive cell the first is kept, so that species numbered by first use stay so. The index is the number of pure
/// translations. Asks for the sizes of a cell that was read: scale, entries of the metric tensor
/// and moments in units of 1/k up to 10^9. Refuses for want of memory alone.
pub fn primitive(alloc: Global, cell: &Cell) -> Result<Primitive, AllocError>
    requires sizes { HasSizesOfRead cell.now }
    ensures shifts { IfOk result (λ p. ListsPureTranslations cell.now p.shifts.operations) }
    ensures cell { IfOk result (λ p. p.cell ≡ cell_in_basis cell.now p.back) }
    ensures primitive { IfOk result (λ p. IsPrimitiveIn cell.now p.back) }
    ensures index { IfOk result (λ p. pos p.index ≡ determinant p.back) }
    ensures count { IfOk result (λ p. length p.shifts.operations ≡ p.index) }
    ensures fore { IfOk result (λ p. p.fore ≡ adjugate p.back) }
    ensures niggli { IfOk result (λ p. IsNiggli p.cell.metric) }
    ensures numbered { IfOk result (λ p. AreByFirstUse 0 (length cell.now.names) cell.now.atoms → AreByFirstUse 0 (length p.cell.names) p.cell.atoms) }
    ensures kept { IfOk result (λ p. TakesToStepBasis cell.now p.shifts.operations p.back) }
{
    cell.invariant();
    let places = Places::new(alloc, cell)?;
    let shifts = pure_shifts(alloc, &places)?;
    let basis = reduced_basis(cell, &shifts);
    let made = rebased(alloc, cell, &basis.back, basis.index, basis.metric)?;
    let Basis {
        back,
        fore,
        index,
        ..
    } = basis;
    Ok(Primitive::new(made, back, fore, index, shifts))
}
