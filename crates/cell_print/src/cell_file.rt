// The lines of a cell file.
ghost use Rattle.std.specs.Prelude.{◌≡◌, ◌++◌, List, ℕ, IfOk, OnOk, OnErr, length, ◌<◌, ◌≤◌};
ghost use Rattle.crystal_spec.specs.Crystals.{Structure};
ghost use Rattle.crystal.specs.Views.{metric_of, atom_of};
ghost use Rattle.positions.specs.Positions.{triple_of};
ghost use Rattle.cell_text.specs.CellFile.{Spells};
ghost use Rattle.cell_print.specs.Printable.{IsPrintable};
ghost use Rattle.cell_print.specs.CellFileText.{heading_text, kind_text, scalar_products, position_text, metric_text, moment_text, atom_text, atoms_text, metric_and_atoms_text, cell_lines_text, cell_file_text};
ghost use Rattle.plain_text.specs.NumberText.{numbers_text};

use crystal::{Atom, Cell, Metric, MomentKind, Name};
use exact_num::Int;
use io_edge::Bytes;
use matrix3::Vec3;
use plain_text::push_numbers;
use std::alloc::{AllocError, Global};

/// Adds the first line of the cell file of a cell with moments of this kind, which tells the version.
///
/// It is `magcell 1` where moments are axial vectors, and else `magcell 2`. Refuses for want of memory alone, and then leaves
/// the list as it was.
pub fn push_heading(out: &mut Bytes, kind: MomentKind) -> Result<(), AllocError>
    ensures value { OnOk result (out.new ≡ out.old ++ heading_text kind) }
    ensures unchanged { OnErr result (out.new ≡ out.old) }
{
    if kind.vector && kind.axial {
        out.append(b"magcell 1\n")
    } else {
        out.append(b"magcell 2\n")
    }
}

/// Adds the kind line, which axial vectors do not have.
fn push_kind(out: &mut Bytes, kind: MomentKind) -> Result<(), AllocError>
    ensures { OnOk result (out.new ≡ out.old ++ kind_text kind) }
{
    if kind.vector {
        if kind.axial {
            Ok(())
        } else {
            out.append(b"kind vector plain\n")
        }
    } else if kind.axial {
        out.append(b"kind scalar axial\n")
    } else {
        out.append(b"kind scalar plain\n")
    }
}

/// Adds the six scalar products of the axes, of a metric tensor in units of 1/scale, a space before each.
///
/// Each is in lowest terms, in the order a·a, b·b, c·c, b·c, a·c, a·b. Asks that the scale is at least 1. Refuses for want of
/// memory alone; what is added then is left open.
pub fn push_products(out: &mut Bytes, scale: u128, metric: &Metric) -> Result<(), AllocError>
    requires { 1 ≤ scale }
    ensures { OnOk result (out.new ≡ out.old ++ numbers_text scale (scalar_products (metric_of metric.now))) }
{
    let g = *metric;
    let products = [
        g.aa.get(),
        g.bb.get(),
        g.cc.get(),
        g.bc.get(),
        g.ac.get(),
        g.ab.get(),
    ];
    push_numbers(out, &products, scale)
}

/// Adds the metric line, of a metric tensor in units of 1/scale.
fn push_metric(out: &mut Bytes, scale: u128, metric: &Metric) -> Result<(), AllocError>
    requires { 1 ≤ scale }
    ensures { OnOk result (out.new ≡ out.old ++ metric_text scale (metric_of metric.now)) }
{
    out.append(b"metric")?;
    push_products(out, scale, metric)?;
    out.push(b'\n')?;
    Ok(())
}

/// Adds a name. Refuses for want of memory alone; what is added then is left open.
pub fn push_name(out: &mut Bytes, name: &Name) -> Result<(), AllocError>
    ensures { OnOk result (out.new ≡ out.old ++ name.now) }
{
    for i in 0..name.count() {
        out.push(name.byte(i))?;
    }
    Ok(())
}

/// Adds a moment in units of 1/k, where it is not 0: three numbers of a vector, one of a scalar.
fn push_moment(
    out: &mut Bytes,
    kind: MomentKind,
    k: u128,
    moment: &Vec3<Int>,
) -> Result<(), AllocError>
    requires { 1 ≤ k }
    ensures { OnOk result (out.new ≡ out.old ++ moment_text kind k moment.now) }
{
    let m = *moment;
    if m.x.get() == 0 && m.y.get() == 0 && m.z.get() == 0 {
        return Ok(());
    }
    if kind.vector {
        push_numbers(out, &[m.x.get(), m.y.get(), m.z.get()], k)
    } else {
        push_numbers(out, &[m.x.get()], k)
    }
}

/// Adds a position in units of 1/n.
fn push_position(out: &mut Bytes, n: u128, place: [u32; 3]) -> Result<(), AllocError>
    requires { 1 ≤ n }
    ensures { OnOk result (out.new ≡ out.old ++ position_text n (triple_of place)) }
{
    let [x, y, z] = place;
    push_numbers(out, &[x as i128, y as i128, z as i128], n)
}

/// Adds the line of an atom of the cell.
fn push_atom(out: &mut Bytes, cell: &Cell, atom: &Atom) -> Result<(), AllocError>
    requires species { atom.now.species < length cell.now.names }
    ensures { OnOk result (out.new ≡ out.old ++ atom_text cell.now (atom_of atom.now)) }
{
    cell.invariant();
    out.append(b"atom ")?;
    push_name(out, cell.name(atom.species))?;
    push_position(out, cell.n() as u128, atom.place)?;
    push_moment(out, cell.kind(), cell.k() as u128, &atom.moment)?;
    out.push(b'\n')?;
    Ok(())
}

/// Adds the lines of all atoms of the cell.
fn push_atoms(out: &mut Bytes, cell: &Cell) -> Result<(), AllocError>
    ensures { OnOk result (out.new ≡ out.old ++ atoms_text cell.now cell.now.atoms) }
{
    for i in 0..cell.count() {
        push_atom(out, cell, cell.atom(i))?;
    }
    Ok(())
}

/// Adds the metric line, the lines of all atoms, and `end`.
fn push_metric_and_atoms(out: &mut Bytes, cell: &Cell) -> Result<(), AllocError>
    ensures { OnOk result (out.new ≡ out.old ++ metric_and_atoms_text cell.now) }
{
    cell.invariant();
    let scale = cell.scale().get().unsigned_abs();
    push_metric(out, scale, cell.metric())?;
    push_atoms(out, cell)?;
    out.append(b"end\n")?;
    Ok(())
}

/// Adds the lines of the cell file of a cell behind its first.
///
/// They are the kind line, which a cell of axial vectors does not have, the metric line, one line an atom in order, and `end`.
/// Each number is in lowest terms, and a moment of 0 is left out. Refuses for want of memory alone; what is added then is left
/// open.
pub fn push_cell(out: &mut Bytes, cell: &Cell) -> Result<(), AllocError>
    ensures { OnOk result (out.new ≡ out.old ++ cell_lines_text cell.now) }
{
    push_kind(out, cell.kind())?;
    push_metric_and_atoms(out, cell)
}

/// The cell file of a cell: of version 1 where moments are axial vectors, and else of version 2.
///
/// Each number is in lowest terms, and a moment of 0 is left out. A cell whose units are the least ones, within the limits of
/// the cell file, is the one that the text spells. Refuses for want of memory alone.
pub fn print_cell(alloc: Global, cell: &Cell) -> Result<Bytes, AllocError>
    ensures value { IfOk result (λ text. text ≡ cell_file_text cell.now) }
    ensures spelled { IfOk result (λ text. IsPrintable cell.now → Spells text cell.now) }
{
    cell.invariant();
    let mut out = Bytes::new(alloc);
    push_heading(&mut out, cell.kind())?;
    push_cell(&mut out, cell)?;
    Ok(out)
}

/// Each cell that a text spells is printable, so a cell that is read, printed and read again is the same cell.
pub fn spelled_is_printable()
    ensures { (text : List ℕ) (c : Structure) → Spells text c → IsPrintable c }
{}
