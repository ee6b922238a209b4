// Where an operation carries a position, modulo n.

ghost use Rattle.std.specs.Prelude.{◌≡◌, ◌↔◌, ◌≤◌, ◌^◌, IsTrue};
ghost use Rattle.matrix3.specs.Bounds.{EntriesAtMost};
ghost use Rattle.positions.specs.Positions.{triple_of};
ghost use Rattle.op_group.specs.Views.{operation_of};
ghost use Rattle.site_orbits.specs.Images.{image_within};

use op_group::Op;
use positions::{column, modulo};

/// Where the operation carries a position, modulo n.
pub(crate) fn carried(op: &Op, place: [u32; 3], n: u32) -> [u32; 3]
    requires small { EntriesAtMost 1 op.now.w }
    requires at_least { 1 ≤ n }
    requires at_most { n ≤ 10 ^ 6 }
    ensures { triple_of result ≡ image_within n (triple_of place) (operation_of op.now) }
{
    let image = op.w.apply(&column(place));
    modulo(&image.plus(&column(op.shift)), n)
}

/// Whether two positions within the cell are one.
pub(crate) fn is_same(a: [u32; 3], b: [u32; 3]) -> bool
    ensures { IsTrue result ↔ (triple_of a ≡ triple_of b) }
{
    a == b
}
