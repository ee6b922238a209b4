// The images of a position under a list of operations, the atoms at them, and the operations that leave the position.

ghost use Rattle.std.specs.Prelude.{◌≡◌, ◌↔◌, ◌⊎◌, ◌<◌, ◌≤◌, ◌^◌, length, map, IfOk, OnOk, IsTrue};
ghost use Rattle.lists.specs.Increasing.{IsIncreasing, IsMember};
ghost use Rattle.crystal_spec.specs.Operations.{Operation, compare_of};
ghost use Rattle.positions.specs.Positions.{triple_of};
ghost use Rattle.matrix3.specs.Bounds.{EntriesAtMost};
ghost use Rattle.op_group.specs.Views.{operation_of};
ghost use Rattle.site_orbits.specs.Images.{image_within, atoms_at, IsFirstAmong};
ghost use Rattle.op_group.specs.Lists.{HasEntriesAtMost};

use crate::position::{carried, is_same};
use crystal::Cell;
use exact_num::Int;
use matrix3::Mat3;
use op_group::{Op, OpList};
use positions::MatrixModulo;
use std::alloc::{AllocError, Global};

/// Where the operations of the list carry a position, modulo n, in their order.
///
/// Refuses for want of memory alone.
pub(crate) fn images(
    alloc: Global,
    list: &OpList,
    place: [u32; 3],
) -> Result<Vec<[u32; 3]>, AllocError>
    requires small { HasEntriesAtMost 1 list.now.operations }
    requires at_least { 1 ≤ list.now.n }
    requires at_most { list.now.n ≤ 10 ^ 6 }
    ensures { IfOk result (λ images. map triple_of images.items ≡ map (image_within list.now.n (triple_of place)) list.now.operations) }
{
    let n = list.n();
    let ops = list.ops();
    let mut images = Vec::new(alloc);
    for op in ops {
        images.push(carried(op, place, n))?;
    }
    Ok(images)
}

/// Whether the position is one of the images.
fn is_among(images: &[[u32; 3]], place: [u32; 3]) -> bool
    ensures { IsTrue result ↔ IsMember (triple_of place) (map triple_of images.now) }
{
    for image in images {
        if is_same(*image, place) {
            return true;
        }
    }
    false
}

/// The number of the first atom whose position in the basis to which Q takes coordinates is one of the images, or `i` where
/// none before the atom number i is.
pub(crate) fn first_among(cell: &Cell, r: &Mat3<Int>, images: &[[u32; 3]], i: usize) -> usize
    requires below { i < length cell.now.atoms }
    ensures { IsFirstAmong cell.now.n r.now (map triple_of images.now) cell.now.atoms i result }
{
    cell.invariant();
    let basis = MatrixModulo::new(r, cell.n());
    for j in 0..i {
        if is_among(images, basis.image(cell.atom(j).place)) {
            return j;
        }
    }
    i
}

/// How many atoms of the cell are at one of the images.
pub(crate) fn count_among(cell: &Cell, images: &[[u32; 3]]) -> u32
    ensures { result ≡ length (atoms_at (map triple_of images.now) cell.now.atoms) }
{
    let mut count = 0;
    for i in 0..cell.count() {
        if is_among(images, cell.atom(i).place) {
            count += 1;
        }
    }
    count
}

/// Adds the operation where it carries the position to itself, modulo n.
fn add_fixing(op: &Op, place: [u32; 3], n: u32, found: &mut Vec<Op>) -> Result<(), AllocError>
    requires small { EntriesAtMost 1 op.now.w }
    requires at_least { 1 ≤ n }
    requires at_most { n ≤ 10 ^ 6 }
    ensures { OnOk result ((o : Operation) → IsMember o (map operation_of found.new.items) ↔ (((o ≡ operation_of op.now) × (image_within n (triple_of place) o ≡ triple_of place)) ⊎ IsMember o (map operation_of found.old.items))) }
{
    if is_same(carried(op, place, n), place) {
        found.push(*op)?;
    }
    Ok(())
}

/// The operations of the list that carry the position to itself, modulo n, in order.
///
/// Refuses for want of memory alone.
pub(crate) fn fixing(alloc: Global, list: &OpList, place: [u32; 3]) -> Result<OpList, AllocError>
    requires small { HasEntriesAtMost 1 list.now.operations }
    requires at_least { 1 ≤ list.now.n }
    requires at_most { list.now.n ≤ 10 ^ 6 }
    ensures n { IfOk result (λ site. site.n ≡ list.now.n) }
    ensures ordered { IfOk result (λ site. IsIncreasing compare_of site.operations) }
    ensures exact { IfOk result (λ site. (o : Operation) → IsMember o site.operations ↔ (IsMember o list.now.operations × (image_within list.now.n (triple_of place) o ≡ triple_of place))) }
{
    let n = list.n();
    list.invariant();
    let ops = list.ops();
    let mut found = Vec::new(alloc);
    for op in ops {
        add_fixing(op, place, n, &mut found)?;
    }
    let site = OpList::sorted(n, found)?;
    site.invariant();
    Ok(site)
}
