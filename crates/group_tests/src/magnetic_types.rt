// Groups of two operations, classified by hand.

ghost use Rattle.std.specs.Prelude.{◌≡◌, ◌≢◌, ◌≤◌, ◌^◌, IsTrue};
ghost use Rattle.ring.specs.Size.{AtMost};
ghost use Rattle.matrix3.specs.Matrices.{EachEntry};
ghost use Rattle.crystal_spec.specs.Matrices.{Triple};
ghost use Rattle.crystal_spec.specs.Operations.{IsWithinCell};
ghost use Rattle.basis_spec.specs.Translations.{pure_translation};
ghost use Rattle.op_group.specs.Views.{operation_of};
ghost use Rattle.positions.specs.Positions.{triple_of};
ghost use Rattle.op_group.specs.Composition.{identity_operation, IsComposed};

use crystal_spec::Sign;
use crystal_spec::Sign::{Reversed, Same};
use exact_num::Int;
use mag_type::{Kind, classify};
use matrix3::Mat3;
use op_group::{Op, OpList, compare, compose};
use std::alloc::{AllocError, Global};

/// An operation: the diagonal of its matrix, its translation part in units of 1/n, and its time sign.
struct Given(u32, [i8; 3], [u32; 3], Sign);

const UNIT: [i8; 3] = [1, 1, 1];

const INVERSION: [i8; 3] = [-1, -1, -1];

const HALF_TURN: [i8; 3] = [-1, -1, 1];

/// The operation beside the identity; the type, the order of the family group, and that of the maximal space subgroup.
struct Group(Given, u8, u64, u64);

#[rattlefmt::skip]
const GROUPS: &[Group] = &[
    Group(Given(1, INVERSION, [0, 0, 0], Same), 1, 2, 2),
    Group(Given(1, UNIT, [0, 0, 0], Reversed), 2, 1, 1),
    Group(Given(1, INVERSION, [0, 0, 0], Reversed), 3, 2, 1),
    Group(Given(4, INVERSION, [1, 2, 3], Reversed), 3, 2, 1),
    Group(Given(1, HALF_TURN, [0, 0, 0], Same), 1, 2, 2),
    Group(Given(2, UNIT, [0, 0, 1], Reversed), 4, 2, 1),
    Group(Given(6, UNIT, [3, 3, 0], Reversed), 4, 2, 1),
];

fn whole(value: i8) -> Int
    ensures { AtMost 128 result }
{
    Int::new(value as i128).unwrap()
}

/// The operation of a diagonal matrix.
fn operation(diagonal: [i8; 3], shift: [u32; 3], sign: Sign) -> Op
    ensures { EachEntry (AtMost 128) result.w }
{
    let zero = whole(0);
    let w = Mat3 {
        a11: whole(diagonal[0]),
        a12: zero,
        a13: zero,
        a21: zero,
        a22: whole(diagonal[1]),
        a23: zero,
        a31: zero,
        a32: zero,
        a33: whole(diagonal[2]),
    };
    Op { w, shift, sign }
}

/// The operation that leaves all as it is.
fn nothing() -> Op
    ensures { operation_of result ≡ identity_operation }
{
    Op {
        w: Mat3::identity(),
        shift: [0, 0, 0],
        sign: Sign::Same,
    }
}

/// Whether the translation part is within the cell.
fn is_within_cell(n: u32, op: &Op) -> bool
    ensures { IsTrue result → IsWithinCell n (triple_of op.now.shift) }
{
    let [x, y, z] = op.shift;
    x < n && y < n && z < n
}

/// Whether the operation undoes itself modulo n.
fn is_own_inverse(n: u32, op: &Op) -> bool
    requires some { 1 ≤ n }
    requires at_most { n ≤ 10 ^ 6 }
    requires size { EachEntry (AtMost 128) op.now.w }
    ensures { IsTrue result → IsComposed n (operation_of op.now) (operation_of op.now) identity_operation }
{
    compare(&compose(n, op, op), &nothing()).is_eq()
}

/// Whether the operation is no pure translation.
fn is_no_pure_translation(op: &Op) -> bool
    ensures { IsTrue result → (t : Triple) → pure_translation t ≢ operation_of op.now }
{
    op.sign == Sign::Reversed || op.w != Mat3::identity()
}

/// The group of the identity and an operation that undoes itself, classified; `None` where it is no such operation.
fn kind_of_two(alloc: Global, n: u32, op: Op) -> Result<Option<Kind>, AllocError>
    requires size { EachEntry (AtMost 128) op.w }
{
    if 1 <= n
        && n <= 1_000_000
        && is_within_cell(n, &op)
        && is_own_inverse(n, &op)
        && is_no_pure_translation(&op)
    {
        let mut list = OpList::new(alloc, n);
        list.insert(nothing())?;
        list.insert(op)?;
        Ok(Some(classify(&list)))
    } else {
        Ok(None)
    }
}

/// Whether the group is classified as the row says.
fn is_of_its_type(alloc: Global, group: &Group) -> bool {
    let Group(Given(n, diagonal, shift, sign), kind, family, unprimed) = group;
    let expected = Kind {
        kind: *kind,
        family: *family,
        unprimed: *unprimed,
    };
    kind_of_two(alloc, *n, operation(*diagonal, *shift, *sign)) == Ok(Some(expected))
}

/// The number of the first group that is classified otherwise; else how many there are.
fn first_wrong(alloc: Global) -> usize {
    for i in 0..GROUPS.len() {
        if !is_of_its_type(alloc, &GROUPS[i]) {
            return i;
        }
    }
    GROUPS.len()
}

#[test]
fn groups_of_two_operations_have_each_type(rt: HostRuntime) {
    assert_eq!(rt; first_wrong(rt.alloc()), GROUPS.len());
}
