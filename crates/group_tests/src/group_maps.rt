// Groups of two operations; the maps were found by a search over all matrices of the class and all balanced origins.

ghost use Rattle.std.specs.Prelude.{◌≡◌, ◌≢◌, ◌≤◌, ◌^◌, IsTrue, IfOk};
ghost use Rattle.ring.specs.Size.{AtMost};
ghost use Rattle.matrix3.specs.Matrices.{EachEntry};
ghost use Rattle.crystal_spec.specs.Matrices.{Triple, identity as identity_matrix};
ghost use Rattle.crystal_spec.specs.Operations.{IsWithinCell};
ghost use Rattle.basis_spec.specs.Translations.{pure_translation};
ghost use Rattle.op_group.specs.Views.{operation_of};
ghost use Rattle.positions.specs.Positions.{triple_of};
ghost use Rattle.op_group.specs.Composition.{identity_operation, IsComposed};
ghost use Rattle.op_group.specs.Groups.{IsGroupModulo};
ghost use Rattle.mag_type.specs.MagneticTypes.{HasOnlyZeroTranslation};
ghost use Rattle.op_group.specs.Lists.{HasEntriesAtMost, HasFewMatrices};

use crystal_spec::Sign;
use crystal_spec::Sign::{Reversed, Same};
use exact_num::{Frac, Int};
use group_match::{Map, Maps, match_row};
use matrix3::{Mat3, Vec3};
use op_group::{Op, OpList, compare, compose};
use std::alloc::Global;
use std::test::Fail;

/// An operation beside the identity: its matrix, its translation part and its time sign.
struct Given([[i8; 3]; 3], [u32; 3], Sign);

/// The symbol's operation in units of 1/12, and the found one in units of 1/n; P, and the origin shift as fractions.
struct Mapped(Given, u32, Given, [[i8; 3]; 3], [[i8; 2]; 3]);

/// The symbol's operation in units of 1/12, and the found one in units of 1/n.
struct Unmapped(Given, u32, Given);

const INVERSION: [[i8; 3]; 3] = [[-1, 0, 0], [0, -1, 0], [0, 0, -1]];

const HALF_TURN_X: [[i8; 3]; 3] = [[1, 0, 0], [0, -1, 0], [0, 0, -1]];

const HALF_TURN_Z: [[i8; 3]; 3] = [[-1, 0, 0], [0, -1, 0], [0, 0, 1]];

/// About the diagonal of a and b: of another lattice than a half turn about an axis.
const HALF_TURN_XY: [[i8; 3]; 3] = [[0, 1, 0], [1, 0, 0], [0, 0, -1]];

const MIRROR_Y: [[i8; 3]; 3] = [[1, 0, 0], [0, -1, 0], [0, 0, 1]];

const MIRROR_Z: [[i8; 3]; 3] = [[1, 0, 0], [0, 1, 0], [0, 0, -1]];

/// A reflection in other axes.
const SLANTED_MIRROR: [[i8; 3]; 3] = [[1, 0, 0], [-2, -1, 0], [0, 0, 1]];

#[rattlefmt::skip]
const MAPPED: &[Mapped] = &[
    Mapped(Given(INVERSION, [0, 0, 0], Same), 7, Given(INVERSION, [2, 2, 2], Same), [[-1, -1, -1], [-1, -1, 0], [-1, 0, -1]], [[1, 7], [1, 7], [1, 7]]),
    Mapped(Given(INVERSION, [0, 0, 0], Reversed), 7, Given(INVERSION, [2, 2, 2], Reversed), [[-1, -1, -1], [-1, -1, 0], [-1, 0, -1]], [[1, 7], [1, 7], [1, 7]]),
    Mapped(Given(HALF_TURN_X, [6, 0, 0], Same), 4, Given(HALF_TURN_Z, [1, 0, 2], Same), [[0, -1, -1], [0, -1, 0], [-1, 0, 0]], [[1, 8], [0, 1], [0, 1]]),
    Mapped(Given(HALF_TURN_Z, [0, 0, 0], Same), 3, Given(HALF_TURN_Z, [1, 2, 0], Same), [[-1, -1, 0], [-1, 0, 0], [0, 0, -1]], [[1, 6], [1, 3], [0, 1]]),
    Mapped(Given(MIRROR_Z, [6, 0, 0], Reversed), 4, Given(MIRROR_Y, [0, 1, 2], Reversed), [[0, -1, 0], [0, 0, -1], [1, -1, 0]], [[0, 1], [1, 8], [0, 1]]),
    Mapped(Given(MIRROR_Y, [0, 0, 6], Same), 60, Given(SLANTED_MIRROR, [0, 13, 30], Same), [[-1, 0, 0], [1, -1, 0], [-1, 0, 1]], [[0, 1], [13, 120], [0, 1]]),
];

#[rattlefmt::skip]
const UNMAPPED: &[Unmapped] = &[
    Unmapped(Given(INVERSION, [0, 0, 0], Same), 1, Given(INVERSION, [0, 0, 0], Reversed)),
    Unmapped(Given(INVERSION, [0, 0, 0], Same), 1, Given(HALF_TURN_Z, [0, 0, 0], Same)),
    Unmapped(Given(HALF_TURN_Z, [0, 0, 0], Same), 2, Given(HALF_TURN_Z, [0, 0, 1], Same)),
    Unmapped(Given(HALF_TURN_Z, [0, 0, 6], Reversed), 1, Given(HALF_TURN_Z, [0, 0, 0], Reversed)),
    Unmapped(Given(HALF_TURN_X, [0, 0, 0], Same), 1, Given(HALF_TURN_XY, [0, 0, 0], Same)),
];

fn whole(value: i8) -> Int
    ensures { AtMost 128 result }
{
    Int::new(value as i128).unwrap()
}

fn matrix(rows: [[i8; 3]; 3]) -> Mat3<Int>
    ensures { EachEntry (AtMost 128) result }
{
    let [first, second, third] = rows;
    Mat3 {
        a11: whole(first[0]),
        a12: whole(first[1]),
        a13: whole(first[2]),
        a21: whole(second[0]),
        a22: whole(second[1]),
        a23: whole(second[2]),
        a31: whole(third[0]),
        a32: whole(third[1]),
        a33: whole(third[2]),
    }
}

fn operation(given: &Given) -> Op
    ensures { EachEntry (AtMost 128) result.w }
{
    let Given(rows, shift, sign) = given;
    Op {
        w: matrix(*rows),
        shift: *shift,
        sign: *sign,
    }
}

/// The matrix that leaves all as it is.
fn identity() -> Mat3<Int>
    ensures { result ≡ identity_matrix }
{
    let zero = Int::new(0).unwrap();
    let one = Int::new(1).unwrap();
    Mat3 {
        a11: one,
        a12: zero,
        a13: zero,
        a21: zero,
        a22: one,
        a23: zero,
        a31: zero,
        a32: zero,
        a33: one,
    }
}

/// The operation that leaves all as it is.
fn nothing() -> Op
    ensures { operation_of result ≡ identity_operation }
{
    Op {
        w: identity(),
        shift: [0, 0, 0],
        sign: Sign::Same,
    }
}

/// Whether the translation part is within the cell.
fn is_within_cell(n: u32, op: &Op) -> bool
    ensures { IsTrue result → IsWithinCell n (triple_of op.now.shift) }
{
    let [x, y, z] = op.shift;
    x < n && y < n && z < n
}

/// Whether the operation undoes itself modulo n.
fn is_own_inverse(n: u32, op: &Op) -> bool
    requires some { 1 ≤ n }
    requires at_most { n ≤ 10 ^ 6 }
    requires size { EachEntry (AtMost 128) op.now.w }
    ensures { IsTrue result → IsComposed n (operation_of op.now) (operation_of op.now) identity_operation }
{
    compare(&compose(n, op, op), &nothing()).is_eq()
}

/// Whether the operation is no pure translation.
fn is_no_pure_translation(op: &Op) -> bool
    ensures { IsTrue result → (t : Triple) → pure_translation t ≢ operation_of op.now }
{
    op.sign == Sign::Reversed || op.w != identity()
}

/// The group of the identity and an operation that undoes itself.
fn group_of_two(alloc: Global, n: u32, op: Op) -> Result<OpList, Fail>
    requires size { EachEntry (AtMost 128) op.w }
    ensures n { IfOk result (λ l. l.n ≡ n) }
    ensures at_most { IfOk result (λ l. n ≤ 10 ^ 6) }
    ensures group { IfOk result (λ l. IsGroupModulo n l.operations) }
    ensures primitive { IfOk result (λ l. HasOnlyZeroTranslation l.operations) }
    ensures few { IfOk result (λ l. HasFewMatrices 48 l.operations) }
    ensures entries { IfOk result (λ l. HasEntriesAtMost 128 l.operations) }
{
    if 1 <= n
        && n <= 1_000_000
        && is_within_cell(n, &op)
        && is_own_inverse(n, &op)
        && is_no_pure_translation(&op)
    {
        let mut list = OpList::new(alloc, n);
        list.insert(nothing())?;
        list.insert(op)?;
        Ok(list)
    } else {
        Err(Fail::new("the two operations are no such group"))
    }
}

/// The first map between two groups of two operations.
fn map_of_two(alloc: Global, symbol: &Given, n: u32, found: &Given) -> Result<Option<Map>, Fail> {
    let symbol = group_of_two(alloc, 12, operation(symbol))?;
    let found = group_of_two(alloc, n, operation(found))?;
    Ok(match_row(alloc, &symbol, &found)?)
}

fn is_fraction(value: &Frac, [num, den]: [i8; 2]) -> bool {
    value.num() == num as i128 && value.den() == den as i128
}

fn is_point(point: &Vec3<Frac>, [x, y, z]: [[i8; 2]; 3]) -> bool {
    is_fraction(&point.x, x) && is_fraction(&point.y, y) && is_fraction(&point.z, z)
}

/// Whether the map is that of P and this origin shift, where S is the identity.
fn is_map(map: &Map, class: &[[i8; 3]; 3], origin: &[[i8; 2]; 3]) -> bool {
    let class = matrix(*class);
    map.class == class && map.turn == class && is_point(&map.origin, *origin)
}

#[test]
fn maps_of_groups_of_two_operations_are_the_first(rt: HostRuntime) -> Result<(), Fail> {
    for i in 0..MAPPED.len() {
        let Mapped(symbol, n, found, class, origin) = &MAPPED[i];
        match map_of_two(rt.alloc(), symbol, *n, found)? {
            Some(map) => assert!(rt; is_map(&map, class, origin), "row {i}"),
            None => return Err(Fail::new("a row has no map")),
        }
    }
    Ok(())
}

#[test]
fn groups_of_other_operations_have_no_map(rt: HostRuntime) -> Result<(), Fail> {
    for i in 0..UNMAPPED.len() {
        let Unmapped(symbol, n, found) = &UNMAPPED[i];
        assert!(rt;
            map_of_two(rt.alloc(), symbol, *n, found)?.is_none(),
            "row {i}"
        );
    }
    Ok(())
}

#[test]
fn a_row_without_a_map_is_kept(rt: HostRuntime) -> Result<(), Fail> {
    let mut maps = Maps::new(rt.alloc());
    maps.push(None)?;
    assert!(rt; maps.count() == 1, "number of rows");
    assert!(rt; maps.at(0).is_none(), "the row");
    Ok(())
}
