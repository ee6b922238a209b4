ghost use Rattle.std.specs.Prelude.{◌≡◌, pos};
ghost use Rattle.crystal_spec.specs.Operations.{compare_of, sign_rank as rank_of};
ghost use Rattle.op_group.specs.Views.{operation_of};

use crystal_spec::Sign;
use exact_num::Int;
use matrix3::Mat3;
use std::cmp::Ordering;

/// A symmetry operation: its matrix, its translation part in units of 1/n, and whether it reverses time.
///
/// The n is that of the list or of the crystal that the operation belongs to.
#[derive(Clone, Copy, Debug, PartialEq, Eq)]
pub struct Op {
    pub w: Mat3<Int>,
    pub shift: [u32; 3],
    pub sign: Sign,
}

/// The place of a time sign in the order: 0 for +1 and 1 for -1.
fn sign_rank(sign: Sign) -> u8
    ensures { pos result ≡ rank_of sign }
{
    match sign {
        Sign::Same => 0,
        Sign::Reversed => 1,
    }
}

/// The order of operations: by the nine entries row by row, then by the translation part, then +1 before -1.
pub fn compare(a: &Op, b: &Op) -> Ordering
    ensures { result ≡ compare_of (operation_of a.now) (operation_of b.now) }
{
    a.w.cmp(&b.w)
        .then(a.shift.cmp(&b.shift))
        .then(sign_rank(a.sign).cmp(&sign_rank(b.sign)))
}
