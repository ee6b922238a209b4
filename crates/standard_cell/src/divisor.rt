// The greatest common divisor of all places.

ghost use Rattle.std.specs.Prelude.{◌≡◌, ◌^◌, ◌≤◌, ◌<ℤ◌, pos, [], unsigned_abs};
ghost use Rattle.crystal_spec.specs.Crystals.{Structure};
ghost use Rattle.standard_cell.specs.Commons.{IsCommon, IsCommonWith};
ghost use Rattle.standard_cell.specs.PlaceDivisors.{IsPlaceDivisor};
ghost use Rattle.standard_cell.specs.Frames.{IsFrame, origin_of};

use crate::frame::{Frame, full, goal, source, step};
use crystal::Cell;
use exact_num::{Int, gcd};
use matrix3::Vec3;

/// The greatest common divisor of a positive number and another.
fn common(g: Int, x: Int) -> Int
    requires { pos 0 <ℤ g }
    ensures { IsCommon g x result }
{
    Int::new(gcd(x.get().abs(), g.get())).unwrap()
}

/// The greatest common divisor of a positive number and the coordinates of a column.
fn common_with(g: Int, v: &Vec3<Int>) -> Int
    requires { pos 0 <ℤ g }
    ensures { IsCommonWith g v.now result }
{
    let first = common(g, v.x);
    let second = common(first, v.y);
    common(second, v.z)
}

/// The greatest common divisor of the denominator of all places and of the translations between places of one atom.
fn translation_divisor(frame: &Frame) -> Int
    requires { IsFrame frame.now }
    ensures { (c : Structure) → frame.now.n ≡ c.n → IsPlaceDivisor c frame.now.turn (origin_of frame.now) [] result }
{
    let unit = step(frame);
    let (x, y, z) = frame.back.columns();
    let first = common_with(full(frame), &x.multiple(unit));
    let second = common_with(first, &y.multiple(unit));
    common_with(second, &z.multiple(unit))
}

/// The greatest common divisor of the denominator and the coordinates of all places.
pub(crate) fn place_divisor(frame: &Frame, cell: &Cell) -> Int
    requires frame { IsFrame frame.now }
    requires n { frame.now.n ≡ cell.now.n }
    ensures { IsPlaceDivisor cell.now frame.now.turn (origin_of frame.now) cell.now.atoms result }
{
    let mut divisor = translation_divisor(frame);
    for i in 0..cell.count() {
        let place = source(frame, &goal(frame, cell.atom(i).place));
        divisor = common_with(divisor, &place);
    }
    divisor
}
