// The text of all maps between two crystals.

ghost use Rattle.std.specs.Prelude.{◌≡◌, ◌++◌, IfOk, OnOk};
ghost use Rattle.exact_num.specs.Meanings.{fraction_of};
ghost use Rattle.crystal_compare.specs.Lists.{map_of};
ghost use Rattle.compare_text.specs.ComparisonText.{shift_text, coordinate_text, map_text, maps_text, listed_text, back_text, comparison_text};

use crystal_compare::{CrystalMap, MapList};
use exact_num::{Frac, Int};
use io_edge::Bytes;
use matrix3::Mat3;
use operation_text::{push_entries, push_sign, push_terms};
use plain_text::push_number;
use prim_cell::Primitive;
use std::alloc::{AllocError, Global};

/// Adds a translation in lowest terms, behind a plus, where it is not 0.
fn push_shift(out: &mut Bytes, shift: Frac) -> Result<(), AllocError>
    ensures { OnOk result (out.new ≡ out.old ++ shift_text (fraction_of shift)) }
{
    if shift.num() == 0 {
        return Ok(());
    }
    out.push(b'+')?;
    push_number(out, shift.num(), shift.den().unsigned_abs())?;
    Ok(())
}

/// Adds the part of a coordinate: the terms of a row of the matrix, and a translation.
fn push_coordinate(out: &mut Bytes, x: Int, y: Int, z: Int, shift: Frac) -> Result<(), AllocError>
    ensures { OnOk result (out.new ≡ out.old ++ coordinate_text x y z (fraction_of shift)) }
{
    push_terms(out, x.get(), y.get(), z.get())?;
    push_shift(out, shift)?;
    Ok(())
}

/// Adds the line of a map.
fn push_map(out: &mut Bytes, map: &CrystalMap) -> Result<(), AllocError>
    ensures { OnOk result (out.new ≡ out.old ++ map_text (map_of map.now)) }
{
    let w = map.w;
    let shift = map.shift;
    push_coordinate(out, w.a11, w.a12, w.a13, shift.x)?;
    out.push(b',')?;
    push_coordinate(out, w.a21, w.a22, w.a23, shift.y)?;
    out.push(b',')?;
    push_coordinate(out, w.a31, w.a32, w.a33, shift.z)?;
    out.push(b',')?;
    push_sign(out, map.sign)?;
    out.push(b'\n')?;
    Ok(())
}

/// Adds the lines of the maps, in order.
fn push_maps(out: &mut Bytes, maps: &MapList) -> Result<(), AllocError>
    ensures { OnOk result (out.new ≡ out.old ++ maps_text maps.now) }
{
    for i in 0..maps.count() {
        push_map(out, maps.at(i))?;
    }
    Ok(())
}

/// Adds the lines of the maps, or that there are none.
fn push_listed(out: &mut Bytes, maps: &MapList) -> Result<(), AllocError>
    ensures { OnOk result (out.new ≡ out.old ++ listed_text maps.now) }
{
    if maps.count() == 0 {
        out.append(b"none\n")
    } else {
        push_maps(out, maps)
    }
}

/// Adds a key, the nine entries of a matrix row by row, and LF.
fn push_back(alloc: Global, out: &mut Bytes, key: &[u8], back: &Mat3<Int>) -> Result<(), AllocError>
    ensures { OnOk result (out.new ≡ out.old ++ back_text key.now back.now) }
{
    out.append(key)?;
    push_entries(alloc, out, back)?;
    out.push(b'\n')?;
    Ok(())
}

/// The text of the maps that carry one crystal onto another, given by their primitive cells.
///
/// First Q of each of the two cells, which takes coordinates of the cell that it was made of to those in its basis; then the
/// maps in order, each spelled as a symmetry operation, or `none` where there is none. Refuses for want of memory alone.
pub fn compare_report(
    alloc: Global,
    one: &Primitive,
    other: &Primitive,
    maps: &MapList,
) -> Result<Bytes, AllocError>
    ensures value { IfOk result (λ text. text ≡ comparison_text one.now.back other.now.back maps.now) }
{
    let mut out = Bytes::new(alloc);
    push_back(alloc, &mut out, b"back1", one.back())?;
    push_back(alloc, &mut out, b"back2", other.back())?;
    push_listed(&mut out, maps)?;
    Ok(out)
}
