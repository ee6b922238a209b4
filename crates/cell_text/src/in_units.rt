// Positions and moments of the atoms of a cell.
ghost use Rattle.std.specs.Prelude.{◌≡◌, ◌≤◌, ◌<◌, ◌*◌, ◌^◌, pos};
ghost use Rattle.ring.specs.Size.{AtMost};
ghost use Rattle.crystal_spec.specs.Operations.{IsWithinCell};
ghost use Rattle.positions.specs.Positions.{triple_of};
ghost use Rattle.matrix3.specs.Bounds.{CoordinatesAtMost};
ghost use Rattle.plain_text.specs.NumberWords.{scaled};
ghost use Rattle.cell_text.specs.CellFile.{part_of, position_of, moment_of};
ghost use Rattle.plain_text.specs.Views.{fraction_of};
ghost use Rattle.cell_text.specs.Views.{atom_view};

use crate::atom_line::AtomLine;
use crate::number_words::whole;
use exact_num::{Int, Residue};
use matrix3::Vec3;
use plain_text::{NumberWord, times};

/// The coordinate in units of 1/n, from 0 to n - 1.
fn part_of(f: &NumberWord, n: u32) -> u32
    requires at_least { 1 ≤ n }
    requires at_most { n ≤ 10 ^ 6 }
    ensures value { pos result ≡ part_of n (fraction_of f.now) }
    ensures below { result < n }
{
    Residue::new(times(f, n as u128), n).get()
}

/// The position in units of 1/n, within the cell.
pub(crate) fn position_of(atom: &AtomLine, n: u32) -> [u32; 3]
    requires at_least { 1 ≤ n }
    requires at_most { n ≤ 10 ^ 6 }
    ensures value { triple_of result ≡ position_of n (atom_view atom.now) }
    ensures within { IsWithinCell n (triple_of result) }
{
    [
        part_of(&atom.position.a, n),
        part_of(&atom.position.b, n),
        part_of(&atom.position.c, n),
    ]
}

/// The moment in units of 1/k.
pub(crate) fn moment_of(atom: &AtomLine, k: u32) -> Vec3<Int>
    requires { k ≤ 10 ^ 6 }
    ensures value { result ≡ moment_of k (atom_view atom.now) }
    ensures size { CoordinatesAtMost (2 * 10 ^ 27) result }
{
    Vec3 {
        x: whole(&atom.moment.a, k as u128),
        y: whole(&atom.moment.b, k as u128),
        z: whole(&atom.moment.c, k as u128),
    }
}
