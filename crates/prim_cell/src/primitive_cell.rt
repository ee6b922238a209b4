// The primitive cell, and how it lies in the cell that it was made of.

ghost use Rattle.std.specs.Prelude.{◌≡◌};
ghost use Rattle.prim_cell.specs.Primitives.{IsPrimitiveCell};

use crystal::Cell;
use exact_num::Int;
use matrix3::Mat3;
use op_group::OpList;
use std::marker::Model;

/// A primitive cell of a crystal, in a Niggli-reduced basis, and how it lies in the cell that it was made of.
///
/// Each atom has a position Q p modulo n, where p is a triple of integers. With G' the metric tensor of the primitive cell,
/// Qᵀ G' Q is the square of the index times a positive metric tensor of integers of size up to 10^9.
#[derive(Drop)]
pub struct Primitive {
    cell: Cell,
    back: Mat3<Int>,
    fore: Mat3<Int>,
    index: u32,
    shifts: OpList,
}

impl Model for Primitive {
    ghost use Rattle.prim_cell.specs.Primitives.{PrimitiveCell, IsPrimitiveCell};

    ghost Value = { PrimitiveCell };

    ghost view = { λ p. record { cell = p.cell; back = p.back; fore = p.fore; index = p.index; shifts = p.shifts } };

    ghost invariant = { λ p. IsPrimitiveCell (record { cell = p.cell; back = p.back; fore = p.fore; index = p.index; shifts = p.shifts }) };
}

impl Primitive {
    /// A primitive cell of these parts.
    pub(crate) fn new(
        cell: Cell,
        back: Mat3<Int>,
        fore: Mat3<Int>,
        index: u32,
        shifts: OpList,
    ) -> Primitive
        requires { IsPrimitiveCell (record { cell = cell; back = back; fore = fore; index = index; shifts = shifts }) }
        ensures { result ≡ record { cell = cell; back = back; fore = fore; index = index; shifts = shifts } }
    {
        Primitive {
            cell,
            back,
            fore,
            index,
            shifts,
        }
    }

    /// The primitive cell.
    pub fn cell(&self) -> &Cell
        ensures { result.now ≡ self.now.cell }
    {
        &self.cell
    }

    /// Q = P⁻¹, which takes coordinates in the cell that it was made of to those in the primitive cell.
    pub fn back(&self) -> &Mat3<Int>
        ensures { result.now ≡ self.now.back }
    {
        &self.back
    }

    /// The index times P, whose columns are the primitive basis vectors.
    pub fn fore(&self) -> &Mat3<Int>
        ensures { result.now ≡ self.now.fore }
    {
        &self.fore
    }

    /// What holds of each primitive cell. It does nothing.
    pub fn invariant(&self)
        ensures form { IsPrimitiveCell self.now }
    {
        let _ = &self.index;
    }

    /// The determinant of Q: how many pure translations there are.
    pub fn index(&self) -> u32
        ensures value { result ≡ self.now.index }
        ensures form { IsPrimitiveCell self.now }
    {
        self.index
    }

    /// The pure translations of the cell that it was made of.
    pub fn shifts(&self) -> &OpList
        ensures { result.now ≡ self.now.shifts }
    {
        &self.shifts
    }
}
