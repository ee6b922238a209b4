// The list of all maps between two crystals.

ghost use Rattle.std.specs.Prelude.{◌≡◌, ◌<◌, ◌^◌, ◌≤ℤ◌, ◌<ℤ◌, ℕ, List, pos, length, map, slice_get, Some, IfOk};
ghost use Rattle.numbers.specs.Fraction.{Fraction, lowest};
ghost use Rattle.lists.specs.Increasing.{IsIncreasing, IsMember};
ghost use Rattle.matrix3.specs.declared.vector.Vec3.{Vec3 as Column};
ghost use Rattle.exact_num.specs.Meanings.{fraction_of};
ghost use Rattle.crystal_spec.specs.declared.Sign.{Sign as TimeSign};
ghost use Rattle.crystal_spec.specs.Matrices.{Matrix};
ghost use Rattle.crystal_spec.specs.Operations.{Operation, IsWithinCell};
ghost use Rattle.crystal_compare.specs.Lists.{map_of, map_order, ListsMaps};
ghost use Rattle.crystal_compare.specs.Maps.{AffineMap};
ghost use Rattle.crystal_compare.specs.AnyMaps.{TakesAny, IsListedIn};
ghost use Rattle.crystal_compare.specs.Groups.{HaveGroupsAlike};
ghost use Rattle.crystal_compare.specs.Steps.{operation_of};
ghost use Rattle.crystal_compare.specs.Search.{steps, shifted};

use crate::map::CrystalMap;
use crate::search::all_small;
use crate::whole_map::{WholeMap, WholeMaps};
use crystal::{Cell, Places};
use exact_num::{Frac, Int};
use matrix3::Vec3;
use prim_cell::Primitive;
use std::alloc::{AllocError, Global};
use std::marker::Model;

/// The maps that carry one crystal onto another: strictly increasing by the nine entries row by row, then by the three
/// fractions, then +1 before -1.
#[derive(Drop)]
pub struct MapList {
    items: Vec<CrystalMap>,
}

impl Model for MapList {
    ghost use Rattle.std.specs.Prelude.{List, map};
    ghost use Rattle.lists.specs.Increasing.{IsIncreasing};
    ghost use Rattle.crystal_compare.specs.Maps.{AffineMap};
    ghost use Rattle.crystal_compare.specs.Lists.{map_of, map_order};

    ghost Value = { List AffineMap };

    ghost view = { λ l. map map_of l.items.items };

    ghost invariant = { λ l. IsIncreasing map_order (map map_of l.items.items) };
}

impl MapList {
    /// How many maps there are.
    pub fn count(&self) -> usize
        ensures value { result ≡ length self.now }
        ensures ordered { IsIncreasing map_order self.now }
    {
        self.items.len()
    }

    /// The map at a place, counted from 0.
    pub fn at(&self, i: usize) -> &CrystalMap
        requires { i < length self.now }
        ensures { slice_get self.now i ≡ Some (map_of result.now) }
    {
        &self.items[i]
    }
}

/// The fraction t / n.
fn fraction(t: Int, n: Int) -> Frac
    requires at_least { pos 0 ≤ℤ t }
    requires below { t <ℤ n }
    requires small { n ≤ℤ pos (10 ^ 12) }
    ensures { fraction_of result ≡ lowest t n }
{
    Frac::new(t.get(), n.get()).unwrap()
}

/// How many steps each axis is divided into: n n'.
fn step_count(one: &Cell, other: &Cell) -> Int
    ensures value { result ≡ pos (steps one.now other.now) }
    ensures small { result ≤ℤ pos (10 ^ 12) }
{
    one.invariant();
    other.invariant();
    Int::from(one.n()) * Int::from(other.n())
}

/// A map with its translation part as fractions, where it is in units of 1/n.
fn with_fractions(map: &WholeMap, n: Int) -> CrystalMap
    requires x { (pos 0 ≤ℤ map.now.shift.x) × (map.now.shift.x <ℤ n) }
    requires y { (pos 0 ≤ℤ map.now.shift.y) × (map.now.shift.y <ℤ n) }
    requires z { (pos 0 ≤ℤ map.now.shift.z) × (map.now.shift.z <ℤ n) }
    requires small { n ≤ℤ pos (10 ^ 12) }
    ensures { (k : ℕ) → n ≡ pos k → map_of result ≡ shifted k (operation_of map.now) }
{
    let shift = map.shift;
    CrystalMap {
        w: map.w,
        shift: Vec3 {
            x: fraction(shift.x, n),
            y: fraction(shift.y, n),
            z: fraction(shift.z, n),
        },
        sign: map.sign,
    }
}

/// All maps of a list with their translation parts as fractions.
fn all_with_fractions(
    alloc: Global,
    one: &Cell,
    other: &Cell,
    found: &WholeMaps,
) -> Result<Vec<CrystalMap>, AllocError>
    requires { (o : Operation) → IsMember o found.now → IsWithinCell (steps one.now other.now) o.translation }
    ensures { IfOk result (λ maps. map map_of maps.items ≡ map (shifted (steps one.now other.now)) found.now) }
{
    let n = step_count(one, other);
    let mut maps = Vec::new(alloc);
    for i in 0..found.count() {
        maps.push(with_fractions(found.at(i), n))?;
    }
    Ok(maps)
}

/// All isometric maps that carry the first crystal onto the second, each once in order.
///
/// A map takes the point of coordinates x along the axes of the first primitive cell to W x + w along those of the second,
/// with w from 0 to below 1, and reverses time or not. It takes lengths and angles to the same ones, in units of the two
/// scales, and each atom to an atom of the same name with the image of its moment. No affine isometry with fractions in its
/// matrix does so but these. There is none where the moments are of two kinds. Where there is one, there are as many as either
/// crystal has symmetry operations, and the two groups are of one magnetic type, with family groups of one order and maximal
/// space subgroups of one order. Refuses for want of memory alone.
pub fn all_maps(alloc: Global, one: &Primitive, other: &Primitive) -> Result<MapList, AllocError>
    ensures exact { IfOk result (λ list. ListsMaps one.now.cell other.now.cell list) }
    ensures nothing_missed { IfOk result (λ list. (b : Matrix) (f : Column Fraction) (d : ℕ) (sign : TimeSign) → TakesAny one.now.cell other.now.cell b f d sign → IsListedIn list b f d sign) }
    ensures groups { IfOk result (λ list. (a : AffineMap) → IsMember a list → HaveGroupsAlike one.now.cell other.now.cell list) }
{
    one.invariant();
    other.invariant();
    let first = one.cell();
    let second = other.cell();
    first.invariant();
    second.invariant();
    let places = Places::new(alloc, second)?;
    let found = all_small(alloc, first, &places)?;
    let _found = found.count();
    let items = all_with_fractions(alloc, first, second, &found)?;
    Ok(MapList { items })
}
