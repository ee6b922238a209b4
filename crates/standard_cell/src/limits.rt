// The units of the standard cell, and whether a cell can hold it.

ghost use Rattle.std.specs.Prelude.{◌≡◌, ◌↔◌, ◌*◌, ◌^◌, ◌≤◌, ◌≤ℤ◌, pos, length, IsTrue};
ghost use Rattle.ring.specs.Size.{AtMost};
ghost use Rattle.lists.specs.Increasing.{IsMember};
ghost use Rattle.matrix3.specs.Matrices.{EachEntry};
ghost use Rattle.crystal_spec.specs.Matrices.{image, transposed};
ghost use Rattle.crystal_spec.specs.Moments.{divisor};
ghost use Rattle.crystal_spec.specs.Crystals.{Atom};
ghost use Rattle.crystal.specs.Views.{metric_of};
ghost use Rattle.matrix3.specs.Bounds.{EntriesAtMost, CoordinatesAtMost};
ghost use Rattle.basis_spec.specs.Metrics.{metric_in};
ghost use Rattle.standard_cell.specs.Frames.{IsFrame, origin_of};
ghost use Rattle.standard_cell.specs.Rooms.{AreUnits, HasRoom};

use crate::divisor::place_divisor;
use crate::frame::{Frame, full};
use crystal::{Cell, MOST_ATOMS, Metric, turn_matrix};
use exact_num::Int;
use matrix3::{Mat3, Vec3};

/// The units of a standard cell, its metric tensor, and the divisor of its places.
#[derive(Clone, Copy, Debug)]
pub(crate) struct Units {
    pub(crate) n: Int,
    pub(crate) k: u32,
    pub(crate) metric: Metric,
    pub(crate) divisor: Int,
}

/// The metric tensor in the basis whose vectors are the columns of a matrix.
fn changed_metric(g: &Mat3<Int>, p: &Mat3<Int>) -> Metric
    requires symmetric { transposed g.now ≡ g.now }
    requires metric { EntriesAtMost (10 ^ 16) g.now }
    requires columns { EachEntry (AtMost 5184) p.now }
    ensures { metric_of result ≡ metric_in p.now g.now }
{
    let changed = p.transpose().times(&g.times(p));
    Metric {
        aa: changed.a11,
        bb: changed.a22,
        cc: changed.a33,
        bc: changed.a23,
        ac: changed.a13,
        ab: changed.a12,
    }
}

/// The k of the standard cell.
fn moment_parts(cell: &Cell, index: u32) -> u32
    requires { index ≤ 1728 }
    ensures { result ≡ divisor cell.now.kind index * cell.now.k }
{
    cell.invariant();
    if cell.kind().vector {
        index * cell.k()
    } else {
        cell.k()
    }
}

/// The units of the standard cell and its metric tensor.
pub(crate) fn units_of(frame: &Frame, cell: &Cell) -> Units
    requires frame { IsFrame frame.now }
    requires n { frame.now.n ≡ cell.now.n }
    ensures { AreUnits cell.now frame.now.turn (origin_of frame.now) result }
{
    cell.invariant();
    let divisor = place_divisor(frame, cell);
    Units {
        n: full(frame).div_exact(&divisor).unwrap(),
        k: moment_parts(cell, frame.index),
        metric: changed_metric(&cell.metric().matrix(), &frame.turn),
        divisor,
    }
}

/// Whether a number is at most 10^16 in size.
fn is_entry(x: Int) -> bool
    ensures { IsTrue result ↔ AtMost (10 ^ 16) x }
{
    let value = x.get();
    -10_000_000_000_000_000 <= value && value <= 10_000_000_000_000_000
}

/// Whether a number is at most 2 · 10^27 in size.
fn is_coordinate(x: Int) -> bool
    ensures { IsTrue result ↔ AtMost (2 * 10 ^ 27) x }
{
    let value = x.get();
    -2_000_000_000_000_000_000_000_000_000 <= value
        && value <= 2_000_000_000_000_000_000_000_000_000
}

/// Whether the entries of a metric tensor have size at most 10^16.
fn is_metric(g: &Metric) -> bool
    ensures { IsTrue result ↔ EntriesAtMost (10 ^ 16) (metric_of g.now) }
{
    let g = *g;
    is_entry(g.aa)
        && is_entry(g.bb)
        && is_entry(g.cc)
        && is_entry(g.bc)
        && is_entry(g.ac)
        && is_entry(g.ab)
}

/// Whether the coordinates of a moment have size at most 2 · 10^27.
fn is_moment(m: &Vec3<Int>) -> bool
    ensures { IsTrue result ↔ CoordinatesAtMost (2 * 10 ^ 27) m.now }
{
    let m = *m;
    is_coordinate(m.x) && is_coordinate(m.y) && is_coordinate(m.z)
}

/// Whether the moments of all atoms have coordinates of size at most 2 · 10^27 in the new basis.
fn are_moments(cell: &Cell, turn: &Mat3<Int>) -> bool
    requires { EachEntry (AtMost 60000000) turn.now }
    ensures { IsTrue result ↔ ((a : Atom) → IsMember a cell.now.atoms → CoordinatesAtMost (2 * 10 ^ 27) (image turn.now a.moment)) }
{
    cell.invariant();
    for i in 0..cell.count() {
        if !is_moment(&turn.apply(&cell.atom(i).moment)) {
            return false;
        }
    }
    true
}

/// Whether the standard cell has at most `MOST_ATOMS` atoms: so many for each atom as the determinant of Q says.
fn is_few(frame: &Frame, cell: &Cell) -> bool
    requires { IsFrame frame.now }
    ensures { IsTrue result ↔ (frame.now.index * length cell.now.atoms ≤ MOST_ATOMS) }
{
    frame.index as usize * cell.count() <= MOST_ATOMS
}

/// Whether an exact number is at most 10^6.
fn is_part(n: Int) -> bool
    ensures { IsTrue result ↔ (n ≤ℤ pos (10 ^ 6)) }
{
    n.get() <= 1_000_000
}

/// Whether a natural number is at most 10^6.
fn is_natural_part(k: u32) -> bool
    ensures { IsTrue result ↔ (k ≤ 10 ^ 6) }
{
    k <= 1_000_000
}

/// Whether a cell can hold the standard cell.
pub(crate) fn has_room(frame: &Frame, cell: &Cell, units: &Units) -> bool
    requires frame { IsFrame frame.now }
    ensures { IsTrue result ↔ HasRoom cell.now frame.now.turn units.now }
{
    if !is_few(frame, cell) {
        return false;
    }
    if !is_part(units.n) {
        return false;
    }
    if !is_natural_part(units.k) {
        return false;
    }
    if !is_metric(&units.metric) {
        return false;
    }
    are_moments(cell, &turn_matrix(cell.kind(), &frame.back))
}
