// Operations one after the other, and inverses, with translation parts modulo n.

ghost use Rattle.std.specs.Prelude.{◌≡◌, ◌≤◌, ◌^◌, pos, negsuc, ◌*ℤ◌};
ghost use Rattle.ring.specs.Ring.{int_ops};
ghost use Rattle.ring.specs.Size.{AtMost};
ghost use Rattle.numbers.specs.Residue.{residue};
ghost use Rattle.exact_num.specs.Meanings.{residue_of, modulus_of};
ghost use Rattle.matrix3.specs.Matrices.{matrix_map, vector_map};
ghost use Rattle.matrix3.specs.Fits.{MatrixOfModulus, VectorOfModulus, ProductFits, DeterminantFits, AdjugateFits};
ghost use Rattle.matrix3.specs.Inverse.{IsUnit};
ghost use Rattle.crystal_spec.specs.Matrices.{determinant, image, multiple};
ghost use Rattle.crystal_spec.specs.Crystals.{position_after};
ghost use Rattle.crystal_spec.specs.Operations.{sign_factor};
ghost use Rattle.op_group.specs.Views.{operation_of};
ghost use Rattle.positions.specs.Positions.{triple_of, IsModulo};
ghost use Rattle.op_group.specs.Composition.{IsComposed, IsInverseModulo};

use crate::operation::Op;
use crystal_spec::Sign;
use positions::MatrixModulo;

/// The time sign of two operations one after the other: their product.
fn sign_of_both(first: Sign, next: Sign) -> Sign
    ensures { sign_factor result ≡ sign_factor next *ℤ sign_factor first }
{
    match (first, next) {
        (Sign::Same, next) => next,
        (first, Sign::Same) => first,
        (Sign::Reversed, Sign::Reversed) => Sign::Same,
    }
}

/// The operation that does `first` and after it `next`, with translation parts in units of 1/n.
///
/// First (W, w, s) and after it (V, v, t) is (V W, V w + v modulo n, t s). Asks that n is from 1 to 10^6, and that the
/// products and sums of V W are values of `Int`. The translation parts may be outside the cell; that of the result is from
/// 0 to n - 1.
pub fn compose(n: u32, first: &Op, next: &Op) -> Op
    requires at_least { 1 ≤ n }
    requires at_most { n ≤ 10 ^ 6 }
    requires fits { ProductFits int_ops (AtMost (10 ^ 36)) next.now.w first.now.w }
    ensures { IsComposed n (operation_of first.now) (operation_of next.now) (operation_of result) }
{
    Op {
        w: next.w.times(&first.w),
        shift: MatrixModulo::new(&next.w, n).carried(next.shift, first.shift),
        sign: sign_of_both(first.sign, next.sign),
    }
}

/// The operation that undoes this one, with translation parts in units of 1/n.
///
/// The inverse of (W, w, s) is (W⁻¹, -W⁻¹ w modulo n, s). Asks that n is from 1 to 10^6, that the determinant of W is 1 or
/// -1, and that the products and sums of the determinant and of the adjugate are values of `Int`. The translation part may
/// be outside the cell; that of the result is from 0 to n - 1.
pub fn inverse(n: u32, op: &Op) -> Op
    requires at_least { 1 ≤ n }
    requires at_most { n ≤ 10 ^ 6 }
    requires unit_determinant { IsUnit (determinant op.now.w) }
    requires determinant_fits { DeterminantFits int_ops (AtMost (10 ^ 36)) op.now.w }
    requires adjugate_fits { AdjugateFits int_ops (AtMost (10 ^ 36)) op.now.w }
    ensures { IsInverseModulo n (operation_of op.now) (operation_of result) }
{
    let w = op.w.inverse_unit();
    Op {
        w,
        shift: MatrixModulo::new(&w, n).translation_onto(op.shift, [0, 0, 0]),
        sign: op.sign,
    }
}
