// The text of the moments that the atoms of a cell allow.
ghost use Rattle.std.specs.Prelude.{◌≡◌, ◌++◌, ◌∷◌, [], ◌<◌, length, slice_get, IfOk, OnOk, IfSome};
ghost use Rattle.exact_num.specs.Meanings.{fraction_of};
ghost use Rattle.matrix3.specs.Matrices.{matrix_map};
ghost use Rattle.basis_spec.specs.Bases.{cell_in_basis, IsPrimitiveIn};
ghost use Rattle.moments_text.specs.MomentsText.{fraction_text, row_text, fractions_text, allowed_text, name_text, atom_text, atom_lines, moments_text, allowed_by, AreOrbits};

use cell_print::push_name;
use crystal::{Cell, Name};
use exact_num::Frac;
use io_edge::Bytes;
use matrix3::Mat3;
use moment_space::{Allowed, projector};
use operation_text::push_entries;
use plain_text::{push_decimal, push_number};
use prim_cell::Primitive;
use site_orbits::Orbits;
use std::alloc::{AllocError, Global};

/// Adds a fraction in lowest terms, behind a space.
fn push_fraction(out: &mut Bytes, fraction: Frac) -> Result<(), AllocError>
    ensures { OnOk result (out.new ≡ out.old ++ fraction_text (fraction_of fraction)) }
{
    out.push(b' ')?;
    push_number(out, fraction.num(), fraction.den().unsigned_abs())
}

/// Adds a row of three fractions.
fn push_row(out: &mut Bytes, first: Frac, second: Frac, third: Frac) -> Result<(), AllocError>
    ensures { OnOk result (out.new ≡ out.old ++ row_text (fraction_of first) (fraction_of second) (fraction_of third)) }
{
    push_fraction(out, first)?;
    push_fraction(out, second)?;
    push_fraction(out, third)
}

/// Adds the nine entries of a matrix of fractions, row by row.
fn push_fractions(out: &mut Bytes, matrix: &Mat3<Frac>) -> Result<(), AllocError>
    ensures { OnOk result (out.new ≡ out.old ++ fractions_text (matrix_map fraction_of matrix.now)) }
{
    let p = *matrix;
    push_row(out, p.a11, p.a12, p.a13)?;
    push_row(out, p.a21, p.a22, p.a23)?;
    push_row(out, p.a31, p.a32, p.a33)
}

/// Adds the allowed count, the projector, and LF.
fn push_allowed(out: &mut Bytes, allowed: &Allowed) -> Result<(), AllocError>
    ensures { OnOk result (out.new ≡ out.old ++ allowed_text allowed.now) }
{
    out.append(b" allowed ")?;
    push_decimal(out, allowed.count() as u128)?;
    push_fractions(out, allowed.projector())?;
    out.push(b'\n')
}

/// Adds the number of an atom and its name.
fn push_heading(out: &mut Bytes, number: usize, name: &Name) -> Result<(), AllocError>
    ensures { OnOk result (out.new ≡ out.old ++ name_text number name.now) }
{
    out.append(b"atom ")?;
    push_decimal(out, number as u128)?;
    out.push(b' ')?;
    push_name(out, name)
}

/// Adds the line of an atom, of this number from 1.
fn push_atom(
    out: &mut Bytes,
    number: usize,
    name: &Name,
    allowed: &Allowed,
) -> Result<(), AllocError>
    ensures { OnOk result (out.new ≡ out.old ++ atom_text number name.now allowed.now) }
{
    push_heading(out, number, name)?;
    push_allowed(out, allowed)?;
    Ok(())
}

/// Which moments the site of the atom number i allows.
fn allowed_at(prim: &Primitive, cell: &Cell, orbits: &Orbits, i: usize) -> Allowed
    requires primitive { IsPrimitiveIn cell.now prim.now.back }
    requires same_cell { cell_in_basis cell.now prim.now.back ≡ prim.now.cell }
    requires orbits { AreOrbits cell.now prim.now.back prim.now.cell orbits.now }
    requires below { i < length cell.now.atoms }
    ensures { IfSome (slice_get orbits.now i) (λ orbit. result ≡ allowed_by cell.now.kind orbit.site.operations) }
{
    prim.invariant();
    prim.cell().invariant();
    projector(orbits.site(i), cell.kind())
}

/// Adds the lines of the atoms.
fn push_atoms(
    out: &mut Bytes,
    prim: &Primitive,
    cell: &Cell,
    orbits: &Orbits,
) -> Result<(), AllocError>
    requires primitive { IsPrimitiveIn cell.now prim.now.back }
    requires same_cell { cell_in_basis cell.now prim.now.back ≡ prim.now.cell }
    requires orbits { AreOrbits cell.now prim.now.back prim.now.cell orbits.now }
    ensures { OnOk result (out.new ≡ out.old ++ atom_lines cell.now.kind cell.now.names 1 cell.now.atoms orbits.now) }
{
    for i in 0..cell.count() {
        let name = cell.name(cell.atom(i).species);
        push_atom(out, i + 1, name, &allowed_at(prim, cell, orbits, i))?;
    }
    Ok(())
}

/// The text of the moments that the atoms of a cell allow.
///
/// First Q of its primitive cell, which takes coordinates of the cell to those in that basis; then a line an atom of the cell,
/// in order: its number from 1, its name, the allowed count, and the nine entries of the projector row by row, along the axes
/// of the primitive cell. Asks for the primitive cell of the cell, and the orbits of its atoms under all operations of that.
/// Refuses for want of memory alone.
pub fn moments_report(
    alloc: Global,
    prim: &Primitive,
    cell: &Cell,
    orbits: &Orbits,
) -> Result<Bytes, AllocError>
    requires primitive { IsPrimitiveIn cell.now prim.now.back }
    requires same_cell { cell_in_basis cell.now prim.now.back ≡ prim.now.cell }
    requires orbits { AreOrbits cell.now prim.now.back prim.now.cell orbits.now }
    ensures value { IfOk result (λ text. text ≡ moments_text prim.now.back cell.now orbits.now) }
{
    let mut out = Bytes::copy(alloc, b"back")?;
    push_entries(alloc, &mut out, prim.back())?;
    out.push(b'\n')?;
    push_atoms(&mut out, prim, cell, orbits)?;
    Ok(out)
}
