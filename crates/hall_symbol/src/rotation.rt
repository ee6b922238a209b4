// The rotation of a token: its axis is written, or goes without saying.
ghost use Rattle.std.specs.Prelude.{◌≡◌, ◌≤◌};
ghost use Rattle.hall_symbol.specs.Rotations.{order_of, axis_of, later_axis, last_axis, about, second_twofold, default_rotation, marked_rotation, rotation_in, has_axis, found_rotation, is_screw_right};

use crate::mark::Mark;
use crate::symbol::{Axis, Rotation, Token};
use crate::token_form::{mark_in, order_in, screw_in};

/// The order of a rotation.
pub(crate) fn order_of(rotation: Rotation) -> u32
    ensures value { result ≡ order_of rotation }
    ensures positive { 1 ≤ result }
    ensures at_most { result ≤ 6 }
{
    match rotation {
        Rotation::Identity => 1,
        Rotation::Twofold(_) => 2,
        Rotation::Threefold(_) => 3,
        Rotation::Fourfold(_) => 4,
        Rotation::Sixfold(_) => 6,
        Rotation::TwofoldDifference(_) => 2,
        Rotation::TwofoldSum(_) => 2,
        Rotation::ThreefoldDiagonal => 3,
    }
}

/// The axis x, y or z of a rotation.
pub(crate) fn axis_of(rotation: Rotation) -> Option<Axis>
    ensures { result ≡ axis_of rotation }
{
    match rotation {
        Rotation::Identity => None,
        Rotation::Twofold(axis) => Some(axis),
        Rotation::Threefold(axis) => Some(axis),
        Rotation::Fourfold(axis) => Some(axis),
        Rotation::Sixfold(axis) => Some(axis),
        Rotation::TwofoldDifference(_) => None,
        Rotation::TwofoldSum(_) => None,
        Rotation::ThreefoldDiagonal => None,
    }
}

/// The axis of the last token that has x, y or z; z where there is none.
fn last_axis(before: &[Token]) -> Axis
    ensures { result ≡ last_axis before.now }
{
    before
        .iter()
        .fold(Axis::Z, |axis, t| axis_of(t.rotation).unwrap_or(axis))
}

/// The rotation of this order about x, y or z.
fn about(order: u32, axis: Axis) -> Rotation
    ensures { result ≡ about order axis }
{
    match order {
        2 => Rotation::Twofold(axis),
        3 => Rotation::Threefold(axis),
        4 => Rotation::Fourfold(axis),
        6 => Rotation::Sixfold(axis),
        _ => Rotation::Identity,
    }
}

/// The second token, of order 2, behind one of this order.
fn second_twofold(before: &[Token], order: u32) -> Option<Rotation>
    ensures { result ≡ second_twofold before.now order }
{
    if order == 2 || order == 4 {
        return Some(Rotation::Twofold(Axis::X));
    }
    if order == 3 || order == 6 {
        return Some(Rotation::TwofoldDifference(last_axis(before)));
    }
    None
}

/// The rotation of a token without a written axis: about z, x, a difference of axes or a diagonal, by its place and order.
fn default_rotation(before: &[Token], order: u32) -> Option<Rotation>
    ensures { result ≡ default_rotation before.now order }
{
    match before {
        [] => Some(about(order, Axis::Z)),
        [t] if order == 2 => second_twofold(before, order_of(t.rotation)),
        [_, _] if order == 3 => Some(Rotation::ThreefoldDiagonal),
        _ => None,
    }
}

/// The rotation of this order whose axis is written so.
fn marked_rotation(before: &[Token], order: u32, mark: Mark) -> Option<Rotation>
    ensures { result ≡ marked_rotation before.now order mark }
{
    match mark {
        Mark::Unwritten => default_rotation(before, order),
        Mark::Along(axis) => Some(about(order, axis)),
        Mark::Prime => Some(Rotation::TwofoldDifference(last_axis(before))),
        Mark::DoublePrime => Some(Rotation::TwofoldSum(last_axis(before))),
        Mark::Star => Some(Rotation::ThreefoldDiagonal),
    }
}

/// The rotation of a token behind these ones, or none where it needs an axis.
#[tactic(auto, unfolding(crate::specs::Rotations::rotation_in))]
pub(crate) fn rotation_in(before: &[Token], word: &[u8]) -> Option<Rotation>
    ensures { result ≡ rotation_in before.now word.now }
{
    let order = order_in(word);
    if order == 1 {
        return Some(Rotation::Identity);
    }
    marked_rotation(before, order, mark_in(word))
}

/// The rotation that was found, or the identity.
pub(crate) fn found_rotation(found: Option<Rotation>) -> Rotation
    ensures { result ≡ found_rotation found }
{
    match found {
        Some(rotation) => rotation,
        None => Rotation::Identity,
    }
}

/// Whether the axis of a rotation is x, y or z.
fn has_axis(rotation: Rotation) -> bool
    ensures { result ≡ has_axis (axis_of rotation) }
{
    match axis_of(rotation) {
        Some(_) => true,
        None => false,
    }
}

/// Whether the screw digit is below the order, and the axis x, y or z; or there is no screw digit.
#[tactic(auto, unfolding(crate::specs::Rotations::is_screw_right))]
pub(crate) fn is_screw_right(before: &[Token], word: &[u8]) -> bool
    ensures { result ≡ is_screw_right before.now word.now }
{
    let screw = screw_in(word);
    screw == 0 || (screw < order_in(word) && has_axis(found_rotation(rotation_in(before, word))))
}
