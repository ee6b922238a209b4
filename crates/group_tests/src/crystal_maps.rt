// Maps between crystals that were worked by hand: one atom in a cube of edge 1.

ghost use Rattle.std.specs.Prelude.{◌≡◌, ◌*◌, ◌^◌, ◌≤◌, ◌≤ℤ◌, ◌∷◌, [], pos, IfOk};
ghost use Rattle.ring.specs.Size.{AtMost};
ghost use Rattle.crystal_spec.specs.Crystals.{IsPositive};
ghost use Rattle.crystal.specs.Views.{metric_of};
ghost use Rattle.matrix3.specs.Bounds.{EntriesAtMost, CoordinatesAtMost};
ghost use Rattle.crystal.specs.Sizes.{HasSizesOfRead};

use crystal::{Atom, Cell, Metric, MomentKind, Name, Sign};
use crystal_compare::{CrystalMap, MapList, all_maps};
use exact_num::Int;
use matrix3::Vec3;
use prim_cell::{Primitive, primitive};
use std::alloc::Global;
use std::test::Fail;

/// One atom in a cube of edge 1, with the metric tensor in units of 1/4 or of 1: its name, n, its position along a, its moment
/// along c, and whether moments are axial.
#[derive(Clone, Copy)]
struct Cube {
    quarters: bool,
    name: &'static str,
    n: u32,
    place: u32,
    moment: i8,
    axial: bool,
}

/// Two crystals, and how many maps there are from the one onto the other.
struct Pair(Cube, Cube, usize);

/// Without a moment, and with one.
const CUBE: Cube = Cube {
    quarters: false,
    name: "A",
    n: 1,
    place: 0,
    moment: 0,
    axial: true,
};

const MAGNET: Cube = Cube {
    quarters: false,
    name: "A",
    n: 1,
    place: 0,
    moment: 1,
    axial: true,
};

/// With twice the moment.
const STRONGER: Cube = Cube {
    quarters: false,
    name: "A",
    n: 1,
    place: 0,
    moment: 2,
    axial: true,
};

/// A third of the edge along a.
const THIRD: Cube = Cube {
    quarters: false,
    name: "A",
    n: 3,
    place: 1,
    moment: 1,
    axial: true,
};

/// Half of the edge along a, with the opposite moment.
const HALF: Cube = Cube {
    quarters: false,
    name: "A",
    n: 2,
    place: 1,
    moment: -1,
    axial: true,
};

/// In other units.
const QUARTERS: Cube = Cube {
    quarters: true,
    name: "A",
    n: 2,
    place: 0,
    moment: 0,
    axial: true,
};

/// With a longer name.
const NAMED: Cube = Cube {
    quarters: false,
    name: "AB",
    n: 2,
    place: 0,
    moment: 0,
    axial: true,
};

/// With moments that are not axial.
const POLAR: Cube = Cube {
    quarters: false,
    name: "A",
    n: 2,
    place: 0,
    moment: 0,
    axial: false,
};

/// The same in other units.
const POLAR_QUARTERS: Cube = Cube {
    quarters: true,
    name: "A",
    n: 2,
    place: 0,
    moment: 0,
    axial: false,
};

#[rattlefmt::skip]
const PAIRS: &[Pair] = &[
    Pair(MAGNET, THIRD, 16),
    Pair(THIRD, HALF, 16),
    Pair(QUARTERS, CUBE, 96),
    Pair(POLAR, POLAR_QUARTERS, 96),
    Pair(MAGNET, CUBE, 0),
    Pair(MAGNET, STRONGER, 0),
    Pair(CUBE, NAMED, 0),
    Pair(CUBE, POLAR, 0),
];

fn whole(value: i8) -> Int
    ensures value { result ≡ value }
    ensures size { AtMost 128 result }
{
    Int::new(value as i128).unwrap()
}

fn scale(quarters: bool) -> Int
    ensures at_least { pos 1 ≤ℤ result }
    ensures at_most { result ≤ℤ pos 128 }
{
    if quarters { whole(4) } else { whole(1) }
}

fn units() -> Metric
    ensures positive { IsPositive (metric_of result) }
    ensures entries { EntriesAtMost 128 (metric_of result) }
{
    Metric {
        aa: whole(1),
        bb: whole(1),
        cc: whole(1),
        bc: whole(0),
        ac: whole(0),
        ab: whole(0),
    }
}

fn quarters() -> Metric
    ensures positive { IsPositive (metric_of result) }
    ensures entries { EntriesAtMost 128 (metric_of result) }
{
    Metric {
        aa: whole(4),
        bb: whole(4),
        cc: whole(4),
        bc: whole(0),
        ac: whole(0),
        ab: whole(0),
    }
}

fn metric(is_in_quarters: bool) -> Metric
    ensures positive { IsPositive (metric_of result) }
    ensures entries { EntriesAtMost 128 (metric_of result) }
{
    if is_in_quarters { quarters() } else { units() }
}

/// An atom of the first species, with its moment along c.
fn atom(place: u32, moment: i8) -> Atom
    ensures species { result.species ≡ 0 }
    ensures moment { CoordinatesAtMost (2 * 10 ^ 27) result.moment }
    ensures small { CoordinatesAtMost (10 ^ 9) result.moment }
    ensures place { result.place ≡ place ∷ 0 ∷ 0 ∷ [] }
{
    let moment = Vec3 {
        x: whole(0),
        y: whole(0),
        z: whole(moment),
    };
    Atom {
        species: 0,
        place: [place, 0, 0],
        moment,
    }
}

fn cell(alloc: Global, cube: Cube) -> Result<Cell, Fail>
    ensures { IfOk result (λ cell. HasSizesOfRead cell) }
{
    if cube.n == 0 || cube.n > 100 || cube.place >= cube.n {
        return Err(Fail::new("the atom is not within the cell"));
    }
    let name = Name::new(cube.name.as_bytes()).ok_or("it is no name")?;
    let first = atom(cube.place, cube.moment);
    let kind = MomentKind {
        vector: true,
        axial: cube.axial,
    };
    let scale = scale(cube.quarters);
    let metric = metric(cube.quarters);
    let cell = Cell::build(alloc, scale, metric, cube.n, 1, kind, name, first)?;
    Ok(cell)
}

fn crystal(alloc: Global, cube: Cube) -> Result<Primitive, Fail> {
    let cell = cell(alloc, cube)?;
    Ok(primitive(alloc, &cell)?)
}

fn maps(alloc: Global, one: Cube, other: Cube) -> Result<MapList, Fail> {
    let first = crystal(alloc, one)?;
    let second = crystal(alloc, other)?;
    Ok(all_maps(alloc, &first, &second)?)
}

/// Whether there are so many maps.
fn holds(alloc: Global, pair: &Pair) -> Result<bool, Fail> {
    let list = maps(alloc, pair.0, pair.1)?;
    Ok(list.count() == pair.2)
}

/// The number of the first pair with another number of maps, or how many pairs there are.
fn first_wrong(alloc: Global, pairs: &[Pair]) -> Result<usize, Fail> {
    for i in 0..pairs.len() {
        if !holds(alloc, &pairs[i])? {
            return Ok(i);
        }
    }
    Ok(pairs.len())
}

#[test]
fn crystals_have_these_numbers_of_maps(rt: HostRuntime) -> Result<(), Fail> {
    assert_eq!(rt; first_wrong(rt.alloc(), PAIRS)?, PAIRS.len());
    Ok(())
}

/// Whether the map is -x+1/3,-y,-z,+1.
fn is_inversion_about_a_sixth(map: &CrystalMap) -> bool {
    let w = map.w;
    let shift = map.shift;
    [w.a11.get(), w.a22.get(), w.a33.get()] == [-1, -1, -1]
        && [shift.x.num(), shift.x.den()] == [1, 3]
        && [shift.y.num(), shift.z.num()] == [0, 0]
        && map.sign == Sign::Same
}

/// Whether the first of the maps is this one.
fn begins_with_the_inversion(alloc: Global) -> Result<bool, Fail> {
    let list = maps(alloc, MAGNET, THIRD)?;
    Ok(list.count() > 0 && is_inversion_about_a_sixth(list.at(0)))
}

#[test]
fn the_first_map_is_the_inversion(rt: HostRuntime) -> Result<(), Fail> {
    assert!(rt; begins_with_the_inversion(rt.alloc())?);
    Ok(())
}
