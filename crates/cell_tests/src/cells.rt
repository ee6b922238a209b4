// Maps of small crystals, worked by hand, and that a cell is read back as it was made.

ghost use Rattle.std.specs.Prelude.{◌≡◌, ◌*◌, ◌^◌, ◌<◌, ◌≤◌, IfOk, [], ◌∷◌};
ghost use Rattle.ring.specs.Size.{AtMost};
ghost use Rattle.crystal_spec.specs.Crystals.{IsPositive};
ghost use Rattle.crystal.specs.Views.{metric_of};
ghost use Rattle.matrix3.specs.Bounds.{EntriesAtMost, CoordinatesAtMost};

use crystal::{Atom, Cell, MOST_ATOMS, Metric, MomentKind, Name, Places, Sign, Steps};
use crystal_spec::Sign::{Reversed, Same};
use exact_num::Int;
use matrix3::{Mat3, Vec3};
use std::alloc::Global;
use std::marker::Brand;
use std::sync::ledger::{Blank, Ledger};

type Rows = [[i8; 3]; 3];

const IDENTITY: Rows = [[1, 0, 0], [0, 1, 0], [0, 0, 1]];

const INVERSION: Rows = [[-1, 0, 0], [0, -1, 0], [0, 0, -1]];

const QUARTER_TURN_ABOUT_C: Rows = [[0, -1, 0], [1, 0, 0], [0, 0, 1]];

const HALF_TURN_ABOUT_A: Rows = [[1, 0, 0], [0, -1, 0], [0, 0, -1]];

const MIRROR_ACROSS_C: Rows = [[1, 0, 0], [0, 1, 0], [0, 0, -1]];

const SHEAR: Rows = [[1, 1, 0], [0, 1, 0], [0, 0, 1]];

/// An atom: its species, its position and its moment along c.
struct Placed(u16, [u32; 3], i8);

/// The parts n of the axes, and the atom beside an atom Mn with moment 1 along c at the origin.
struct Crystal(u32, Option<Placed>);

const ONE: Crystal = Crystal(1, None);

const CENTRED: Crystal = Crystal(2, Some(Placed(0, [1, 1, 1], 1)));

const MIXED: Crystal = Crystal(2, Some(Placed(1, [1, 1, 1], 1)));

const OPPOSED: Crystal = Crystal(2, Some(Placed(0, [0, 0, 1], -1)));

const UNEQUAL: Crystal = Crystal(2, Some(Placed(0, [0, 0, 1], -2)));

const OF_TWO_SPECIES: Crystal = Crystal(4, Some(Placed(1, [1, 2, 3], -5)));

/// A crystal, a map, and whether the map keeps the crystal.
struct Map(Crystal, Rows, [u32; 3], Sign, bool);

#[rattlefmt::skip]
const MAPS: &[Map] = &[
    Map(ONE, IDENTITY, [0, 0, 0], Same, true),
    Map(ONE, IDENTITY, [0, 0, 0], Reversed, false),
    Map(ONE, INVERSION, [0, 0, 0], Same, true),
    Map(ONE, QUARTER_TURN_ABOUT_C, [0, 0, 0], Same, true),
    Map(ONE, HALF_TURN_ABOUT_A, [0, 0, 0], Same, false),
    Map(ONE, HALF_TURN_ABOUT_A, [0, 0, 0], Reversed, true),
    Map(ONE, MIRROR_ACROSS_C, [0, 0, 0], Same, true),
    Map(ONE, SHEAR, [0, 0, 0], Same, false),
    Map(CENTRED, IDENTITY, [1, 1, 1], Same, true),
    Map(CENTRED, IDENTITY, [1, 0, 0], Same, false),
    Map(MIXED, IDENTITY, [0, 0, 0], Same, true),
    Map(MIXED, IDENTITY, [1, 1, 1], Same, false),
    Map(OPPOSED, IDENTITY, [0, 0, 1], Same, false),
    Map(OPPOSED, IDENTITY, [0, 0, 1], Reversed, true),
    Map(OPPOSED, HALF_TURN_ABOUT_A, [0, 0, 1], Same, true),
    Map(UNEQUAL, IDENTITY, [0, 0, 1], Reversed, false),
];

/// Whether moments are vectors, whether they are axial, and whether the inversion keeps a moment of the kind.
#[rattlefmt::skip]
const KINDS: &[(bool, bool, bool)] = &[
    (true, true, true),
    (true, false, false),
    (false, true, false),
    (false, false, true),
];

fn whole(value: i8) -> Int
    ensures value { result ≡ value }
    ensures size { AtMost 128 result }
{
    Int::new(value as i128).unwrap()
}

fn matrix(rows: &Rows) -> Mat3<Int>
    ensures { EntriesAtMost 150000000 result }
{
    let [[a11, a12, a13], [a21, a22, a23], [a31, a32, a33]] = *rows;
    Mat3 {
        a11: whole(a11),
        a12: whole(a12),
        a13: whole(a13),
        a21: whole(a21),
        a22: whole(a22),
        a23: whole(a23),
        a31: whole(a31),
        a32: whole(a32),
        a33: whole(a33),
    }
}

/// An atom with a moment along c.
fn atom(species: u16, place: [u32; 3], moment: i8) -> Atom
    ensures species { result.species ≡ species }
    ensures place { result.place ≡ place }
    ensures moment { CoordinatesAtMost (2 * 10 ^ 27) result.moment }
{
    let moment = Vec3 {
        x: whole(0),
        y: whole(0),
        z: whole(moment),
    };
    Atom {
        species,
        place,
        moment,
    }
}

/// Axes at right angles, the first two of length 1 and the third of length 2.
fn axes() -> Metric
    ensures positive { IsPositive (metric_of result) }
    ensures entries { EntriesAtMost (10 ^ 16) (metric_of result) }
{
    let zero = whole(0);
    Metric {
        aa: whole(1),
        bb: whole(1),
        cc: whole(4),
        bc: zero,
        ac: zero,
        ab: zero,
    }
}

/// Adds an atom of a species that has a name, at a free position within the cell.
fn put(cell: &mut Cell, atom: Atom) -> Option<()>
    requires { CoordinatesAtMost (2 * 10 ^ 27) atom.moment }
{
    let n = cell.n();
    let [x, y, z] = atom.place;
    if x >= n || y >= n || z >= n {
        return None;
    }
    if atom.species as usize >= cell.names() || cell.count() >= MOST_ATOMS || !cell.kind().vector {
        return None;
    }
    if !cell.is_free(atom.place) {
        return None;
    }
    cell.add(atom).ok()
}

/// A cell with the species Mn and O, and an atom Mn with moment 1 along c at the origin.
fn one_atom(alloc: Global, n: u32) -> Option<Cell>
    requires at_least { 1 ≤ n }
    requires at_most { n ≤ 10 ^ 6 }
{
    let manganese = Name::new(b"Mn")?;
    let first = atom(0, [0, 0, 0], 1);
    let kind = MomentKind {
        vector: true,
        axial: true,
    };
    let mut cell = Cell::build(alloc, whole(1), axes(), n, 1, kind, manganese, first).ok()?;
    cell.add_name(Name::new(b"O")?).ok()?;
    Some(cell)
}

/// The atom of a row.
fn atom_of(placed: &Placed) -> Atom
    ensures { CoordinatesAtMost (2 * 10 ^ 27) result.moment }
{
    let Placed(species, place, moment) = placed;
    let place = *place;
    atom(*species, place, *moment)
}

/// The cell of the crystal.
fn cell_of(alloc: Global, crystal: &Crystal) -> Option<Cell> {
    let Crystal(n, second) = crystal;
    if *n < 1 || *n > 1_000_000 {
        return None;
    }
    let mut cell = one_atom(alloc, *n)?;
    if let Some(placed) = second {
        put(&mut cell, atom_of(placed))?;
    }
    Some(cell)
}

/// Whether the map keeps the crystal of the cell, over a new counter of steps.
fn keeps<L: Ledger>(
    alloc: Global,
    blank: Blank,
    cell: &Cell,
    rows: &Rows,
    shift: [u32; 3],
    sign: Sign,
) -> Option<bool>
    requires name { blank.name ≡ L.name }
    requires parts { blank.parts ≡ L.parts }
    requires some { 0 < L.parts }
{
    let n = cell.n();
    let [x, y, z] = shift;
    if x >= n || y >= n || z >= n {
        return None;
    }
    let places = Places::new(alloc, cell).ok()?;
    let mut steps = Steps::<L>::new(blank);
    Some(places.keeps_map(&matrix(rows), shift, sign, &mut steps))
}

/// Whether the map keeps the crystal of the cell.
fn is_kept(alloc: Global, cell: &Cell, rows: &Rows, shift: [u32; 3], sign: Sign) -> Option<bool> {
    let blank = Blank::new(1);
    keeps::<Brand>(alloc, blank, cell, rows, shift, sign)
}

/// Whether the map does to the crystal what the row says.
fn holds(alloc: Global, map: &Map) -> bool {
    let Map(crystal, rows, shift, sign, kept) = map;
    match cell_of(alloc, crystal) {
        Some(cell) => is_kept(alloc, &cell, rows, *shift, *sign) == Some(*kept),
        None => false,
    }
}

/// The number of the first map that does something else; else how many there are.
fn first_wrong_map(alloc: Global) -> usize {
    for i in 0..MAPS.len() {
        if !holds(alloc, &MAPS[i]) {
            return i;
        }
    }
    MAPS.len()
}

#[test]
fn maps_keep_the_crystal_or_not(rt: HostRuntime) {
    assert_eq!(rt; first_wrong_map(rt.alloc()), MAPS.len());
}

/// A cell of one atom at the origin, whose moment is 1 along a, or the scalar 1.
fn one_of_kind(alloc: Global, kind: MomentKind) -> Option<Cell> {
    let name = Name::new(b"Mn")?;
    let moment = Vec3 {
        x: whole(1),
        y: whole(0),
        z: whole(0),
    };
    let first = Atom {
        species: 0,
        place: [0, 0, 0],
        moment,
    };
    Cell::build(alloc, whole(1), axes(), 1, 1, kind, name, first).ok()
}

/// Whether the inversion keeps the moment of a cell of this kind, and the cell tells its kind.
fn is_inverted(alloc: Global, kind: MomentKind, kept: bool) -> bool {
    match one_of_kind(alloc, kind) {
        Some(cell) => {
            cell.kind() == kind && is_kept(alloc, &cell, &INVERSION, [0, 0, 0], Same) == Some(kept)
        }
        None => false,
    }
}

/// The number of the first kind to whose moments the inversion does something else; else how many there are.
fn first_wrong_kind(alloc: Global) -> usize {
    for i in 0..KINDS.len() {
        let (vector, axial, kept) = KINDS[i];
        if !is_inverted(alloc, MomentKind { vector, axial }, kept) {
            return i;
        }
    }
    KINDS.len()
}

#[test]
fn the_inversion_turns_moments_by_their_kind(rt: HostRuntime) {
    assert_eq!(rt; first_wrong_kind(rt.alloc()), KINDS.len());
}

/// Whether the cell has the units that it was made with, two names and two atoms.
fn has_its_units(cell: &Cell) -> bool {
    cell.scale().get() == 1
        && *cell.metric() == axes()
        && cell.n() == 4
        && cell.k() == 1
        && cell.names() == 2
        && cell.count() == 2
}

/// Whether the second atom is that of the crystal.
fn has_its_second_atom(cell: &Cell) -> bool {
    if cell.count() < 2 {
        return false;
    }
    let second = *cell.atom(1);
    second.species == 1 && second.place == [1, 2, 3] && second.moment.z.get() == -5
}

/// Whether the second name is that of oxygen.
fn has_its_second_name(cell: &Cell) -> bool {
    if cell.names() < 2 {
        return false;
    }
    let name = cell.name(1);
    name.count() == 1 && name.byte(0) == b'O'
}

/// Whether the second atom is found at its position and none at another; `None` for want of memory.
fn are_found(alloc: Global, cell: &Cell) -> Option<bool> {
    let places = Places::new(alloc, cell).ok()?;
    if places.cell().n() != 4 {
        return None;
    }
    Some(places.occupant([1, 2, 3]) == Some(1) && places.occupant([3, 2, 1]).is_none())
}

/// Whether the cell of two species is read back as it was made.
fn is_read_back(alloc: Global) -> bool {
    match cell_of(alloc, &OF_TWO_SPECIES) {
        Some(cell) => {
            has_its_units(&cell)
                && has_its_second_atom(&cell)
                && has_its_second_name(&cell)
                && are_found(alloc, &cell) == Some(true)
        }
        None => false,
    }
}

#[test]
fn a_cell_is_read_back(rt: HostRuntime) {
    assert!(rt; is_read_back(rt.alloc()));
}
