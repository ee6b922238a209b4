// The lines of the orbits of the atoms of a cell.
ghost use Rattle.std.specs.Prelude.{◌≡◌, ◌++◌, ◌+◌, ◌<◌, length, slice_get, IfOk, OnOk, IfSome};
ghost use Rattle.report_text.specs.OrbitText.{counted_text, atom_text, atom_lines, orbit_lines_of, orbit_part, orbit_lines, orbit_text};

use cell_print::push_name;
use crystal::{Cell, Name};
use io_edge::Bytes;
use op_group::OpList;
use operation_text::ops_report;
use plain_text::push_decimal;
use site_orbits::Orbits;
use std::alloc::{AllocError, Global};

/// Adds words and a number in decimal.
fn push_counted(out: &mut Bytes, words: &[u8], number: u128) -> Result<(), AllocError>
    ensures { OnOk result (out.new ≡ out.old ++ counted_text words.now number) }
{
    out.append(words)?;
    push_decimal(out, number)?;
    Ok(())
}

/// Adds the line of the atom number i, of this name.
///
/// `first` is the number of its first alike atom, and `count` tells how many operations its site-symmetry group has.
fn push_atom(
    out: &mut Bytes,
    i: usize,
    name: &Name,
    first: usize,
    count: usize,
) -> Result<(), AllocError>
    ensures { OnOk result (out.new ≡ out.old ++ atom_text i name.now first count) }
{
    push_counted(out, b"atom ", i as u128 + 1)?;
    out.push(b' ')?;
    push_name(out, name)?;
    push_counted(out, b" orbit ", first as u128 + 1)?;
    push_counted(out, b" site ", count as u128)?;
    out.push(b'\n')?;
    Ok(())
}

/// Adds the lines of the atoms.
fn push_atoms(out: &mut Bytes, cell: &Cell, orbits: &Orbits) -> Result<(), AllocError>
    requires same_atoms { length orbits.now ≡ length cell.now.atoms }
    ensures { OnOk result (out.new ≡ out.old ++ atom_lines cell.now.names 0 cell.now.atoms orbits.now) }
{
    for i in 0..cell.count() {
        let name = cell.name(cell.atom(i).species);
        push_atom(out, i, name, orbits.first(i), orbits.site(i).count())?;
    }
    Ok(())
}

/// Adds the lines of the orbit of the atom number i, of this size and site-symmetry group.
fn push_orbit(
    alloc: Global,
    out: &mut Bytes,
    i: usize,
    size: u32,
    site: &OpList,
) -> Result<(), AllocError>
    ensures { OnOk result (out.new ≡ out.old ++ orbit_lines_of i size site.now) }
{
    push_counted(out, b"orbit ", i as u128 + 1)?;
    push_counted(out, b" size ", size as u128)?;
    push_counted(out, b" site ", site.count() as u128)?;
    out.push(b'\n')?;
    let operations = ops_report(alloc, site, 0, None)?;
    out.append(operations.as_slice())?;
    Ok(())
}

/// Adds the lines of the orbit of the atom number i, where no atom before it is alike.
fn push_part(alloc: Global, out: &mut Bytes, orbits: &Orbits, i: usize) -> Result<(), AllocError>
    requires { i < length orbits.now }
    ensures { OnOk result (IfSome (slice_get orbits.now i) (λ orbit. out.new ≡ out.old ++ orbit_part i orbit)) }
{
    if orbits.first(i) == i {
        push_orbit(alloc, out, i, orbits.size(i), orbits.site(i))
    } else {
        Ok(())
    }
}

/// Adds the lines of the orbits.
fn push_orbits(alloc: Global, out: &mut Bytes, orbits: &Orbits) -> Result<(), AllocError>
    ensures { OnOk result (out.new ≡ out.old ++ orbit_lines 0 orbits.now) }
{
    for i in 0..orbits.count() {
        push_part(alloc, out, orbits, i)?;
    }
    Ok(())
}

/// The orbits of the atoms of a cell: one line an atom, and then the lines of each orbit, in the order of their first atoms.
///
/// The line of an atom has its number from 1, the name of its species, the number of the first alike atom, and how many
/// operations its site-symmetry group has. That of an orbit has the number of its first atom, how many atoms of the
/// primitive cell are in it, and how many operations the site-symmetry group of that atom has; these follow, one line
/// each, in the basis of the primitive cell. Refuses for want of memory alone.
pub fn orbit_report(alloc: Global, cell: &Cell, orbits: &Orbits) -> Result<Bytes, AllocError>
    requires same_atoms { length orbits.now ≡ length cell.now.atoms }
    ensures { IfOk result (λ text. text ≡ orbit_text cell.now.names cell.now.atoms orbits.now) }
{
    let mut out = Bytes::new(alloc);
    push_atoms(&mut out, cell, orbits)?;
    push_orbits(alloc, &mut out, orbits)?;
    Ok(out)
}
