// The new basis and origin, and places in it: a position Y / n of the primitive cell is at adj(Q) (d Y - n u) / (h n d), where
// u / d is the origin shift and h the determinant of Q.

ghost use Rattle.std.specs.Prelude.{◌≡◌, ◌*◌, ◌^◌, ◌≤◌, ◌≤ℤ◌, ◌<ℤ◌, pos};
ghost use Rattle.ring.specs.Size.{AtMost};
ghost use Rattle.matrix3.specs.Matrices.{EachEntry, EachCoordinate};
ghost use Rattle.crystal_spec.specs.Matrices.{image, determinant, adjugate};
ghost use Rattle.crystal_spec.specs.Operations.{IsWithinCell};
ghost use Rattle.positions.specs.Positions.{triple_of};
ghost use Rattle.standard_cell.specs.Frames.{IsFrame, step_of, full_of, goal_of};

use crate::integers::natural;
use crate::origin::Origin;
use exact_num::Int;
use matrix3::{Mat3, Vec3};
use positions::column;

/// A basis Q with its adjugate and determinant, an origin shift, and the n of the primitive cell.
#[derive(Clone, Copy, Debug)]
pub(crate) struct Frame {
    pub(crate) turn: Mat3<Int>,
    pub(crate) back: Mat3<Int>,
    pub(crate) index: u32,
    pub(crate) n: u32,
    pub(crate) shift: Vec3<Int>,
    pub(crate) parts: Int,
}

/// The determinant of Q, as a natural number.
fn index_of(turn: &Mat3<Int>) -> u32
    requires turn { EachEntry (AtMost 5184) turn.now }
    requires at_least { pos 1 ≤ℤ determinant turn.now }
    requires at_most { determinant turn.now ≤ℤ pos 1728 }
    ensures { pos result ≡ determinant turn.now }
{
    natural(turn.handed())
}

/// The frame of a basis and an origin shift.
pub(crate) fn frame_of(n: u32, turn: &Mat3<Int>, origin: &Origin) -> Frame
    requires n_at_least { 1 ≤ n }
    requires n_at_most { n ≤ 10 ^ 6 }
    requires turn { EachEntry (AtMost 5184) turn.now }
    requires at_least { pos 1 ≤ℤ determinant turn.now }
    requires at_most { determinant turn.now ≤ℤ pos 1728 }
    requires shift { EachCoordinate (AtMost (10 ^ 12)) origin.now.shift }
    requires positive { pos 0 <ℤ origin.now.parts }
    requires parts { AtMost (10 ^ 12) origin.now.parts }
    ensures frame { IsFrame result }
    ensures turn { result.turn ≡ turn.now }
    ensures n { result.n ≡ n }
    ensures shift { result.shift ≡ origin.now.shift }
    ensures parts { result.parts ≡ origin.now.parts }
{
    Frame {
        turn: *turn,
        back: turn.adjugate(),
        index: index_of(turn),
        n,
        shift: origin.shift,
        parts: origin.parts,
    }
}

/// The denominator n d of the positions less the origin shift.
pub(crate) fn step(frame: &Frame) -> Int
    requires { IsFrame frame.now }
    ensures value { result ≡ step_of frame.now }
    ensures positive { pos 0 <ℤ result }
    ensures size { AtMost (10 ^ 18) result }
{
    Int::from(frame.n) * frame.parts
}

/// The denominator h n d of the places.
pub(crate) fn full(frame: &Frame) -> Int
    requires { IsFrame frame.now }
    ensures value { result ≡ full_of frame.now }
    ensures positive { pos 0 <ℤ result }
    ensures size { AtMost (2 * 10 ^ 21) result }
{
    Int::from(frame.index) * step(frame)
}

/// A position less the origin shift, in units of 1 / (n d).
pub(crate) fn goal(frame: &Frame, place: [u32; 3]) -> Vec3<Int>
    requires frame { IsFrame frame.now }
    requires place { IsWithinCell frame.now.n (triple_of place) }
    ensures value { result ≡ goal_of frame.now (triple_of place) }
    ensures size { EachCoordinate (AtMost (2 * 10 ^ 18)) result }
{
    column(place)
        .multiple(frame.parts)
        .minus(&frame.shift.multiple(Int::from(frame.n)))
}

/// The place of such a position, in units of 1 / (h n d), but for translations.
pub(crate) fn source(frame: &Frame, goal: &Vec3<Int>) -> Vec3<Int>
    requires frame { IsFrame frame.now }
    requires goal { EachCoordinate (AtMost (2 * 10 ^ 18)) goal.now }
    ensures { result ≡ image (adjugate frame.now.turn) goal.now }
{
    frame.back.apply(goal)
}
