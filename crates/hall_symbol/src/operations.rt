// The operations that a symbol names, about its shifted origin.
ghost use Rattle.std.specs.Prelude.{◌≡◌, ◌++◌, ◌∷◌, ◌*ℤ◌, pos, negsuc, [], map, if◌then◌else◌, IfOk, OnOk, vec_items};
ghost use Rattle.ring.specs.Size.{AtMost};
ghost use Rattle.matrix3.specs.Matrices.{EachEntry, vector_map};
ghost use Rattle.crystal_spec.specs.Matrices.{identity as identity_matrix};
ghost use Rattle.basis_spec.specs.Translations.{pure_translation};
ghost use Rattle.op_group.specs.Views.{operation_of};
ghost use Rattle.positions.specs.Positions.{triple_of};
ghost use Rattle.hall_symbol.specs.Symbols.{AreTwelfths, matrix_of, negated, centrings, inversion, inversions, operation_of_token, shifted, named_operations, generators};
ghost use Rattle.hall_symbol.specs.Views.{AreSmall};

use crate::symbol::{Axis, Lattice, Rotation, Symbol, Token};
use crystal_spec::Sign;
use exact_num::Int;
use matrix3::{Mat3, Vec3};
use op_group::{Op, compose};
use std::alloc::{AllocError, Global};

/// A small number as an `Int`.
fn whole(v: i8) -> Int
    ensures { result ≡ v }
{
    Int::new(v as i128).unwrap()
}

/// The matrix with these rows.
fn rows(
    a11: i8,
    a12: i8,
    a13: i8,
    a21: i8,
    a22: i8,
    a23: i8,
    a31: i8,
    a32: i8,
    a33: i8,
) -> Mat3<Int>
    ensures { result ≡ record { a11 = a11; a12 = a12; a13 = a13; a21 = a21; a22 = a22; a23 = a23; a31 = a31; a32 = a32; a33 = a33 } }
{
    Mat3 {
        a11: whole(a11),
        a12: whole(a12),
        a13: whole(a13),
        a21: whole(a21),
        a22: whole(a22),
        a23: whole(a23),
        a31: whole(a31),
        a32: whole(a32),
        a33: whole(a33),
    }
}

/// The matrix of a proper rotation.
fn matrix_of(rotation: Rotation) -> Mat3<Int>
    ensures { result ≡ matrix_of rotation }
{
    match rotation {
        Rotation::Identity => rows(1, 0, 0, 0, 1, 0, 0, 0, 1),
        Rotation::Twofold(Axis::X) => rows(1, 0, 0, 0, -1, 0, 0, 0, -1),
        Rotation::Twofold(Axis::Y) => rows(-1, 0, 0, 0, 1, 0, 0, 0, -1),
        Rotation::Twofold(Axis::Z) => rows(-1, 0, 0, 0, -1, 0, 0, 0, 1),
        Rotation::Threefold(Axis::X) => rows(1, 0, 0, 0, 0, -1, 0, 1, -1),
        Rotation::Threefold(Axis::Y) => rows(-1, 0, 1, 0, 1, 0, -1, 0, 0),
        Rotation::Threefold(Axis::Z) => rows(0, -1, 0, 1, -1, 0, 0, 0, 1),
        Rotation::Fourfold(Axis::X) => rows(1, 0, 0, 0, 0, -1, 0, 1, 0),
        Rotation::Fourfold(Axis::Y) => rows(0, 0, 1, 0, 1, 0, -1, 0, 0),
        Rotation::Fourfold(Axis::Z) => rows(0, -1, 0, 1, 0, 0, 0, 0, 1),
        Rotation::Sixfold(Axis::X) => rows(1, 0, 0, 0, 1, -1, 0, 1, 0),
        Rotation::Sixfold(Axis::Y) => rows(0, 0, 1, 0, 1, 0, -1, 0, 1),
        Rotation::Sixfold(Axis::Z) => rows(1, -1, 0, 1, 0, 0, 0, 0, 1),
        Rotation::TwofoldDifference(Axis::X) => rows(-1, 0, 0, 0, 0, -1, 0, -1, 0),
        Rotation::TwofoldDifference(Axis::Y) => rows(0, 0, -1, 0, -1, 0, -1, 0, 0),
        Rotation::TwofoldDifference(Axis::Z) => rows(0, -1, 0, -1, 0, 0, 0, 0, -1),
        Rotation::TwofoldSum(Axis::X) => rows(-1, 0, 0, 0, 0, 1, 0, 1, 0),
        Rotation::TwofoldSum(Axis::Y) => rows(0, 0, 1, 0, -1, 0, 1, 0, 0),
        Rotation::TwofoldSum(Axis::Z) => rows(0, 1, 0, 1, 0, 0, 0, 0, -1),
        Rotation::ThreefoldDiagonal => rows(0, 0, 1, 1, 0, 0, 0, 1, 0),
    }
}

/// The number with the other sign.
fn opposite(a: Int) -> Int
    requires { AtMost 1 a }
    ensures { result ≡ negsuc 0 *ℤ a }
{
    -a
}

/// The matrix of the inversion followed by this one.
fn negated(w: Mat3<Int>) -> Mat3<Int>
    requires small { EachEntry (AtMost 1) w }
    ensures { result ≡ negated w }
{
    Mat3 {
        a11: opposite(w.a11),
        a12: opposite(w.a12),
        a13: opposite(w.a13),
        a21: opposite(w.a21),
        a22: opposite(w.a22),
        a23: opposite(w.a23),
        a31: opposite(w.a31),
        a32: opposite(w.a32),
        a33: opposite(w.a33),
    }
}

/// The operation (I, t, +1).
fn translation(shift: [u32; 3]) -> Op
    ensures { operation_of result ≡ pure_translation (triple_of shift) }
{
    Op {
        w: Mat3::identity(),
        shift,
        sign: Sign::Same,
    }
}

/// The operation (-I, 0, +1).
fn inversion() -> Op
    ensures { operation_of result ≡ inversion }
{
    Op {
        w: rows(-1, 0, 0, 0, -1, 0, 0, 0, -1),
        shift: [0, 0, 0],
        sign: Sign::Same,
    }
}

/// The matrix of a token.
fn matrix_of_token(token: &Token) -> Mat3<Int>
    ensures { result ≡ (if token.now.is_negated then negated (matrix_of token.now.rotation) else matrix_of token.now.rotation) }
{
    let w = matrix_of(token.rotation);
    if token.is_negated { negated(w) } else { w }
}

/// The operation of a token, before the origin is shifted.
fn operation_of_token(token: &Token) -> Op
    ensures { operation_of result ≡ operation_of_token token.now }
{
    let t = token.translation;
    Op {
        w: matrix_of_token(token),
        shift: [t.x, t.y, t.z],
        sign: token.sign,
    }
}

/// Adds the translations of the lattice beside 0.
fn add_centrings(ops: &mut Vec<Op>, lattice: Lattice) -> Result<(), AllocError>
    ensures { OnOk result (map operation_of (vec_items ops.new) ≡ map operation_of (vec_items ops.old) ++ map pure_translation (centrings lattice)) }
{
    match lattice {
        Lattice::P => {}
        Lattice::A => ops.push(translation([0, 6, 6]))?,
        Lattice::B => ops.push(translation([6, 0, 6]))?,
        Lattice::C => ops.push(translation([6, 6, 0]))?,
        Lattice::I => ops.push(translation([6, 6, 6]))?,
        Lattice::R => {
            ops.push(translation([8, 4, 4]))?;
            ops.push(translation([4, 8, 8]))?;
        }
        Lattice::F => {
            ops.push(translation([0, 6, 6]))?;
            ops.push(translation([6, 0, 6]))?;
            ops.push(translation([6, 6, 0]))?;
        }
    }
    Ok(())
}

/// Adds the inversion where the symbol has it.
fn add_inversion(ops: &mut Vec<Op>, is_inverted: bool) -> Result<(), AllocError>
    ensures { OnOk result (map operation_of (vec_items ops.new) ≡ map operation_of (vec_items ops.old) ++ inversions is_inverted) }
{
    if is_inverted {
        ops.push(inversion())?;
    }
    Ok(())
}

/// Adds the operations of the tokens.
fn add_tokens(ops: &mut Vec<Op>, tokens: &[Token]) -> Result<(), AllocError>
    ensures { OnOk result (map operation_of (vec_items ops.new) ≡ map operation_of (vec_items ops.old) ++ map operation_of_token tokens.now) }
{
    for token in tokens {
        ops.push(operation_of_token(token))?;
    }
    Ok(())
}

/// The operations that the symbol names, about the origin that is not shifted.
fn named_operations(alloc: Global, symbol: &Symbol) -> Result<Vec<Op>, AllocError>
    ensures { IfOk result (λ v. map operation_of v.items ≡ named_operations symbol.now) }
{
    let mut ops = Vec::new(alloc);
    add_inversion(&mut ops, symbol.is_inverted())?;
    add_centrings(&mut ops, symbol.lattice())?;
    add_tokens(&mut ops, symbol.tokens())?;
    Ok(ops)
}

/// The operation about the origin that is shifted by t: from (W, w) to (W, w + t - W t) modulo whole translations.
fn shifted(op: &Op, t: Vec3<u32>) -> Op
    requires small { EachEntry (AtMost 1) op.now.w }
    requires below_12 { AreTwelfths t }
    ensures { operation_of result ≡ shifted (vector_map pos t) (operation_of op.now) }
{
    let back = translation([11 * t.x, 11 * t.y, 11 * t.z]);
    compose(12, &compose(12, &back, op), &translation([t.x, t.y, t.z]))
}

/// These operations, about the origin that is shifted by t.
fn shift_all(alloc: Global, ops: &[Op], t: Vec3<u32>) -> Result<Vec<Op>, AllocError>
    requires small { AreSmall (map operation_of ops.now) }
    requires below_12 { AreTwelfths t }
    ensures { IfOk result (λ v. map operation_of v.items ≡ map (shifted (vector_map pos t)) (map operation_of ops.now)) }
{
    let mut gens = Vec::new(alloc);
    for op in ops {
        gens.push(shifted(op, t))?;
    }
    Ok(gens)
}

/// The operations of the symbol, about the shifted origin. Refuses for want of memory alone.
#[tactic(auto, unfolding(crate::specs::Symbols::generators))]
pub fn generators(alloc: Global, symbol: &Symbol) -> Result<Vec<Op>, AllocError>
    ensures { IfOk result (λ v. map operation_of v.items ≡ generators symbol.now) }
{
    let ops = named_operations(alloc, symbol)?;
    shift_all(alloc, &ops, symbol.shift())
}
