// The type of a magnetic space group, and the orders of its family group and of its maximal space subgroup.

ghost use Rattle.std.specs.Prelude.{◌≡◌, ◌↔◌, ℕ, map, count_by, IsTrue};
ghost use Rattle.std.specs.List.{list_all};
ghost use Rattle.crystal_spec.specs.Matrices.{identity as identity_matrix};
ghost use Rattle.op_group.specs.Views.{operation_of};
ghost use Rattle.positions.specs.Positions.{triple_of};
ghost use Rattle.op_group.specs.Groups.{IsGroupModulo};
ghost use Rattle.mag_type.specs.Families.{IsInFamily, IsUnprimed, IsNumberOf};
ghost use Rattle.mag_type.specs.MagneticTypes.{HasOnlyZeroTranslation, anti_translation, time_reversal, HasAntiTranslation, IsMagneticType};
ghost use Rattle.mag_type.specs.Counting.{is_same, IsFirstOfPair};

use crystal_spec::Sign;
use exact_num::Int;
use matrix3::Mat3;
use op_group::{Op, OpList};

/// The type of a magnetic space group, and how many operations two groups beside it have.
#[derive(Clone, Copy, Debug, PartialEq, Eq)]
pub struct Kind {
    /// The type, from 1 to 4.
    pub kind: u8,
    /// The order of the family group: how many different pairs of matrix and translation part the operations have.
    pub family: u64,
    /// The order of the maximal space subgroup: how many operations have the sign +1.
    pub unprimed: u64,
}

/// The operation (I, 0, -1).
fn time_reversal() -> Op
    ensures { operation_of result ≡ time_reversal }
{
    Op {
        w: Mat3::identity(),
        shift: [0, 0, 0],
        sign: Sign::Reversed,
    }
}

/// Whether the operation is (I, t, -1).
fn is_anti_translation(op: &Op) -> bool
    ensures { IsTrue result ↔ (operation_of op.now ≡ anti_translation (triple_of op.now.shift)) }
{
    let op = *op;
    op.w == Mat3::identity() && op.sign == Sign::Reversed
}

/// Whether one of the operations is (I, t, -1).
fn has_anti_translation(ops: &[Op]) -> bool
    ensures { IsTrue result ↔ HasAntiTranslation (map operation_of ops.now) }
{
    for op in ops {
        if is_anti_translation(op) {
            return true;
        }
    }
    false
}

/// Whether each operation has the sign +1.
fn none_reverses_time(ops: &[Op]) -> bool
    ensures { result ≡ list_all (λ o. is_same o.sign) ops.now }
{
    ops.iter().all(|op| op.sign == Sign::Same)
}

/// How many of the operations have the sign +1.
fn unprimed_count(ops: &[Op]) -> usize
    ensures { result ≡ count_by (λ o. is_same o.sign) ops.now }
{
    ops.iter().filter(|op| op.sign == Sign::Same).count()
}

/// Whether the operation is the first in the list with its matrix and translation part: +1 comes before -1.
fn is_first_of_pair(list: &OpList, op: &Op) -> bool
    ensures { IsTrue result ↔ IsFirstOfPair list.now.operations (operation_of op.now) }
{
    let unprimed = Op {
        w: op.w,
        shift: op.shift,
        sign: Sign::Same,
    };
    op.sign == Sign::Same || !list.has(&unprimed)
}

/// How many different pairs of matrix and translation part the operations have: each is counted where it comes first.
fn family_count(list: &OpList) -> usize
    ensures { IsNumberOf (IsInFamily list.now.operations) result }
{
    list.invariant();
    let mut count = 0;
    for op in list.ops() {
        if is_first_of_pair(list, op) {
            count += 1;
        }
    }
    count
}

/// The magnetic type of the operations.
fn magnetic_type(list: &OpList) -> u8
    ensures { IsMagneticType list.now.operations result }
{
    let ops = list.ops();
    if none_reverses_time(ops) {
        1
    } else if list.has(&time_reversal()) {
        2
    } else if has_anti_translation(ops) {
        4
    } else {
        3
    }
}

/// The type of a magnetic space group, and the orders of its family group and of its maximal space subgroup [STT23].
///
/// The type is 1 where no operation has the sign -1; 2 where (I, 0, -1) is an operation; 4 where (I, t, -1) with t other
/// than 0 is an operation; 3 otherwise. No two of these hold at once. The family group is made of the different pairs (W, w)
/// of the operations, and the maximal space subgroup of the operations of sign +1. Asks that the list is a group modulo whole
/// cells, with translation parts in units of 1/n, and that its only pure translation (I, t, +1) is that by 0. It takes no
/// memory and always answers.
pub fn classify(list: &OpList) -> Kind
    requires group { IsGroupModulo list.now.n list.now.operations }
    requires primitive { HasOnlyZeroTranslation list.now.operations }
    ensures family { IsNumberOf (IsInFamily list.now.operations) result.family }
    ensures unprimed { IsNumberOf (IsUnprimed list.now.operations) result.unprimed }
    ensures kind { IsMagneticType list.now.operations result.kind }
    ensures only { (k : ℕ) → IsMagneticType list.now.operations k → k ≡ result.kind }
{
    list.invariant();
    Kind {
        kind: magnetic_type(list),
        family: family_count(list) as u64,
        unprimed: unprimed_count(list.ops()) as u64,
    }
}
