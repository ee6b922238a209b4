// Values from outside, worked by hand: the quarter turn about c on the positions of a cell of four parts.

use super::*;
use exact_num::Int;
use matrix3::{Mat3, Vec3};

/// The quarter turn about c: x goes to y, and y to -x.
fn quarter_turn() -> Mat3<Int> {
    Mat3 {
        a12: Int::from(-1i8),
        a21: Int::from(1u32),
        a11: Int::from(0u32),
        a22: Int::from(0u32),
        ..Mat3::identity()
    }
}

#[test]
fn a_quarter_turn_carries_positions(rt: HostRuntime) {
    let turn = MatrixModulo::new(&quarter_turn(), 4);
    assert_eq!(rt; turn.image([1, 2, 3]), [2, 1, 3]);
    assert_eq!(rt; turn.carried([3, 3, 3], [1, 2, 3]), [1, 0, 2]);
    assert_eq!(rt; turn.translation_onto([1, 2, 3], [0, 0, 0]), [2, 3, 1]);
    assert_eq!(rt; turn.modulus(), 4);
    assert_eq!(rt; *turn.matrix(), quarter_turn());
}

#[test]
fn columns_and_differences_are_brought_into_the_cell(rt: HostRuntime) {
    let outside = Vec3 {
        x: Int::from(-1i8),
        y: Int::from(4u32),
        z: Int::from(-5i8),
    };
    assert_eq!(rt; modulo(&outside, 4), [3, 0, 3]);
    assert_eq!(rt; between([3, 1, 0], [1, 3, 2], 4), [2, 2, 2]);
    assert_eq!(rt; modulo(&column([5, 6, 7]), 4), [1, 2, 3]);
}
