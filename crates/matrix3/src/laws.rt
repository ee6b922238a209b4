// The laws of matrices over exact numbers, each as the contract of a function with nothing to do.

ghost use Rattle.std.specs.Prelude.{ℕ};
ghost use Rattle.matrix3.specs.Laws.{ProductAssociates, TransposeReversesProduct, DeterminantOfProduct, AdjugateTimesMatrix};

use exact_num::Exact;

/// The matrix product associates.
///
/// Among matrices of proper meanings of one modulus, of any size.
pub fn product_associates<T: Exact>()
    ensures { (m : ℕ) → ProductAssociates (T.ring m) (T.IsProper m) }
{}

/// The transpose of a product is the product of the transposes in reverse order.
///
/// Among matrices of proper meanings of one modulus, of any size.
pub fn transpose_of_product<T: Exact>()
    ensures { (m : ℕ) → TransposeReversesProduct (T.ring m) (T.IsProper m) }
{}

/// The determinant of a product is the product of the determinants.
///
/// Among matrices of proper meanings of one modulus, of any size.
pub fn determinant_of_product<T: Exact>()
    ensures { (m : ℕ) → DeterminantOfProduct (T.ring m) (T.IsProper m) }
{}

/// The adjugate times the matrix, on either side, is the determinant times the identity.
///
/// Among matrices of proper meanings of one modulus, of any size.
pub fn adjugate_times_matrix<T: Exact>()
    ensures { (m : ℕ) → AdjugateTimesMatrix (T.ring m) (T.IsProper m) }
{}
