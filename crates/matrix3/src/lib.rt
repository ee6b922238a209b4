//! Columns and three by three matrices of exact numbers.
//!
//! A matrix is written row by row and acts from the left on columns. In a contract a matrix of integers is seen as the
//! record of its nine integers, and the operations are the formulas of `specs/Matrices.antt`, over any ring. Each call
//! asks that the products and sums that its formula names are values of the type, all of one modulus
//! (`specs/Fits.antt`), and takes no memory. An inverse is one on both sides (`specs/Inverse.antt`). The laws of the
//! product (`specs/Laws.antt`) are the contracts of functions with nothing to do; more of them stand in
//! `proofs/MatrixLaws.antt`.
#![tactic(auto)]

mod integers;
mod inverse;
mod laws;
mod matrix;
mod vector;

pub use laws::{
    adjugate_times_matrix, determinant_of_product, product_associates, transpose_of_product,
};
pub use matrix::Mat3;
pub use vector::Vec3;
