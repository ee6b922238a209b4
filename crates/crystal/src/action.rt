// How an isometry acts on the positions and the moments of a cell: all that one map after another needs, made once.

ghost use Rattle.std.specs.Prelude.{◌≡◌, ◌*◌, ◌^◌};
ghost use Rattle.crystal_spec.specs.Matrices.{difference, image};
ghost use Rattle.crystal_spec.specs.Crystals.{KeepsMetric, position_after};
ghost use Rattle.crystal_spec.specs.Moments.{moment_matrix};
ghost use Rattle.crystal_spec.specs.Operations.{sign_factor};
ghost use Rattle.matrix3.specs.Bounds.{EntriesAtMost};
ghost use Rattle.positions.specs.Positions.{triple_of, modulo};
ghost use Rattle.crystal.specs.Actions.{ActsOn};

use crate::cell::Cell;
use crate::moments::moment_matrix;
use crystal_spec::{MomentKind, Sign};
use exact_num::Int;
use matrix3::Mat3;
use positions::{MatrixModulo, between};
use std::marker::Model;

/// An isometry of the metric tensor of a cell, as it acts on positions modulo whole cells and on moments.
#[derive(Drop)]
pub struct Action {
    kind: MomentKind,
    forward: MatrixModulo,
    backward: MatrixModulo,
    same: Mat3<Int>,
    reversed: Mat3<Int>,
}

impl Model for Action {
    ghost use Rattle.crystal.specs.Actions.{Acting, HoldsMoments};

    ghost Value = { Acting };

    ghost view = { λ a. record { modulus = a.forward.modulus; kind = a.kind; matrix = a.forward.matrix } };

    ghost invariant = { λ a. HoldsMoments a.kind a.forward.matrix a.same a.reversed };
}

impl Action {
    /// How an isometry of the cell's metric tensor acts on its positions and moments.
    pub(crate) fn new(cell: &Cell, w: &Mat3<Int>) -> Action
        requires map { EntriesAtMost 150000000 w.now }
        requires isometry { KeepsMetric cell.now.metric w.now }
        ensures matrix { result.matrix ≡ w.now }
        ensures acts { ActsOn cell.now result }
    {
        cell.invariant();
        let (n, kind) = (cell.n(), cell.kind());
        Action {
            kind,
            forward: MatrixModulo::new(w, n),
            backward: MatrixModulo::new(&w.inverse_unit(), n),
            same: moment_matrix(kind, w, Sign::Same),
            reversed: moment_matrix(kind, w, Sign::Reversed),
        }
    }

    /// The isometry.
    pub fn matrix(&self) -> &Mat3<Int>
        ensures { result.now ≡ self.now.matrix }
    {
        self.forward.matrix()
    }

    /// The position within the cell to which the isometry, with a translation, carries a position.
    pub(crate) fn image(&self, place: [u32; 3], shift: [u32; 3]) -> [u32; 3]
        ensures { triple_of result ≡ modulo self.now.modulus (position_after self.now.matrix (triple_of shift) (triple_of place)) }
    {
        self.forward.carried(shift, place)
    }

    /// The translation part, within the cell, with which the isometry carries one position onto another.
    ///
    /// In units of 1/n, with n of the cell that it acts on.
    pub fn translation_onto(&self, from: [u32; 3], onto: [u32; 3]) -> [u32; 3]
        ensures { triple_of result ≡ modulo self.now.modulus (difference (triple_of onto) (image self.now.matrix (triple_of from))) }
    {
        self.forward.translation_onto(from, onto)
    }

    /// The position that the isometry, with a translation, carries onto this one. It only proposes.
    pub(crate) fn preimage(&self, place: [u32; 3], shift: [u32; 3]) -> [u32; 3] {
        self.backward
            .image(between(shift, place, self.backward.modulus()))
    }

    /// The matrix by which the isometry with this time sign acts on moments.
    pub(crate) fn moments(&self, sign: Sign) -> &Mat3<Int>
        ensures value { result.now ≡ moment_matrix self.now.kind self.now.matrix (sign_factor sign) }
        ensures entries { EntriesAtMost 150000000 result.now }
    {
        match sign {
            Sign::Same => &self.same,
            Sign::Reversed => &self.reversed,
        }
    }
}
