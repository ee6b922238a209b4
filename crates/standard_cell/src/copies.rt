// The atoms that one atom has in the new basis, in order of their places.

ghost use Rattle.std.specs.Prelude.{◌≡◌, ◌↔◌, ◌*◌, ◌^◌, ◌<◌, ◌≤ℤ◌, ◌<ℤ◌, ◌*ℤ◌, pos, IsTrue, OnOk};
ghost use Rattle.ring.specs.Size.{AtMost};
ghost use Rattle.matrix3.specs.Matrices.{EachCoordinate};
ghost use Rattle.crystal_spec.specs.Matrices.{multiple};
ghost use Rattle.crystal_spec.specs.Operations.{IsWithinCell};
ghost use Rattle.positions.specs.Positions.{triple_of};
ghost use Rattle.match_spec.specs.Points.{point, IsInCell, IsWhole};
ghost use Rattle.standard_cell.specs.PlaceDivisors.{IsMultiple};
ghost use Rattle.standard_cell.specs.Frames.{IsFrame, full_of, point_at, Meets, IsCopies, IsCopy};
ghost use Rattle.standard_cell.specs.Sweeps.{IsAdded, IsOnLine, IsOnPlane, IsInSpace};

use crate::frame::{Frame, full, step};
use crate::integers::{are_multiples, natural};
use crystal::Atom;
use exact_num::Int;
use matrix3::Vec3;
use positions::column;
use std::alloc::AllocError;

/// What is told of the atoms that one atom has in the new basis.
///
/// Their places, in units of 1 / (h n d), are among start + n d · t; Q takes them to h times the goal, but for multiples of
/// h n d. They are all multiples of the divisor.
#[derive(Clone, Copy, Debug)]
pub(crate) struct Copies {
    pub(crate) start: Vec3<Int>,
    pub(crate) goal: Vec3<Int>,
    pub(crate) species: u16,
    pub(crate) moment: Vec3<Int>,
    pub(crate) divisor: Int,
}

/// Whether Q takes a place to h times the goal, but for multiples of h n d.
fn is_met(frame: &Frame, goal: &Vec3<Int>, place: &Vec3<Int>) -> bool
    requires frame { IsFrame frame.now }
    requires goal { EachCoordinate (AtMost (2 * 10 ^ 18)) goal.now }
    requires place { EachCoordinate (AtMost (2 * 10 ^ 21)) place.now }
    ensures { IsTrue result ↔ Meets frame.now goal.now place.now }
{
    let rest = frame
        .turn
        .apply(place)
        .minus(&goal.multiple(Int::from(frame.index)));
    are_multiples(&rest, full(frame))
}

/// A coordinate of a place over the divisor.
fn coordinate(x: Int, divisor: Int) -> u32
    requires positive { pos 0 <ℤ divisor }
    requires divides { IsMultiple divisor x }
    requires low { pos 0 ≤ℤ x }
    requires high { x <ℤ (divisor *ℤ pos (10 ^ 6)) }
    ensures { divisor *ℤ pos result ≡ x }
{
    natural(x.div_exact(&divisor).unwrap())
}

/// The atom at a place.
fn atom_at(copies: &Copies, place: &Vec3<Int>, full: Int) -> Atom
    requires positive { pos 0 <ℤ copies.now.divisor }
    requires divides { IsWhole copies.now.divisor place.now }
    requires inside { IsInCell (point place.now full) }
    requires few { full ≤ℤ (copies.now.divisor *ℤ pos (10 ^ 6)) }
    ensures position { multiple copies.now.divisor (triple_of result.place) ≡ place.now }
    ensures species { result.species ≡ copies.now.species }
    ensures moment { result.moment ≡ copies.now.moment }
{
    let divisor = copies.divisor;
    Atom {
        species: copies.species,
        place: [
            coordinate(place.x, divisor),
            coordinate(place.y, divisor),
            coordinate(place.z, divisor),
        ],
        moment: copies.moment,
    }
}

/// Adds the atom at the place of t, if one is there.
fn add_copy(
    made: &mut Vec<Atom>,
    frame: &Frame,
    copies: &Copies,
    t: [u32; 3],
) -> Result<(), AllocError>
    requires frame { IsFrame frame.now }
    requires copies { IsCopies frame.now copies.now }
    requires t { IsInSpace frame.now.index frame.now.index (triple_of t) }
    ensures { OnOk result (IsAdded made.old.items made.new.items (IsCopy frame.now copies.now) (λ s. s ≡ triple_of t)) }
{
    let place = copies.start.plus(&column(t).multiple(step(frame)));
    if is_met(frame, &copies.goal, &place) {
        made.push(atom_at(copies, &place, full(frame)))?;
    }
    Ok(())
}

/// Adds the atoms at the places with two given coordinates of t, in order of the third.
fn add_line(
    made: &mut Vec<Atom>,
    frame: &Frame,
    copies: &Copies,
    x: u32,
    y: u32,
) -> Result<(), AllocError>
    requires frame { IsFrame frame.now }
    requires copies { IsCopies frame.now copies.now }
    requires x { x < frame.now.index }
    requires y { y < frame.now.index }
    ensures { OnOk result (IsAdded made.old.items made.new.items (IsCopy frame.now copies.now) (IsOnLine x y frame.now.index)) }
{
    for z in 0..frame.index {
        add_copy(made, frame, copies, [x, y, z])?;
    }
    Ok(())
}

/// Adds the atoms at the places with a given first coordinate of t, in order of the others.
fn add_plane(made: &mut Vec<Atom>, frame: &Frame, copies: &Copies, x: u32) -> Result<(), AllocError>
    requires frame { IsFrame frame.now }
    requires copies { IsCopies frame.now copies.now }
    requires x { x < frame.now.index }
    ensures { OnOk result (IsAdded made.old.items made.new.items (IsCopy frame.now copies.now) (IsOnPlane frame.now.index x frame.now.index)) }
{
    for y in 0..frame.index {
        add_line(made, frame, copies, x, y)?;
    }
    Ok(())
}

/// Adds the atoms at all places, in order.
pub(crate) fn add_copies(
    made: &mut Vec<Atom>,
    frame: &Frame,
    copies: &Copies,
) -> Result<(), AllocError>
    requires frame { IsFrame frame.now }
    requires copies { IsCopies frame.now copies.now }
    ensures { OnOk result (IsAdded made.old.items made.new.items (IsCopy frame.now copies.now) (IsInSpace frame.now.index frame.now.index)) }
{
    for x in 0..frame.index {
        add_plane(made, frame, copies, x)?;
    }
    Ok(())
}
