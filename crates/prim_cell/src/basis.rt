// A reduced basis of the pure translations.

ghost use Rattle.std.specs.Prelude.{◌≡◌, ◌^◌};
ghost use Rattle.crystal_spec.specs.Matrices.{transposed};
ghost use Rattle.crystal.specs.Views.{metric_of};
ghost use Rattle.matrix3.specs.Bounds.{EntriesAtMost};
ghost use Rattle.basis_spec.specs.Metrics.{metric_in};
ghost use Rattle.basis_spec.specs.Translations.{ListsPureTranslations};
ghost use Rattle.prim_cell.specs.Primitives.{IsReducedBasis};

use crystal::{Cell, MOST_ATOMS, Metric};
use exact_num::Int;
use lattice_reduce::reduce;
use matrix3::Mat3;
use op_group::{OpList, step_basis};

/// A reduced basis of the pure translations: its metric tensor, Q, index · P and the index.
#[derive(Clone, Copy, Debug)]
pub(crate) struct Basis {
    pub(crate) metric: Metric,
    pub(crate) back: Mat3<Int>,
    pub(crate) fore: Mat3<Int>,
    pub(crate) index: u32,
}

/// The metric tensor in the basis whose vectors are the columns of a matrix.
fn changed_metric(g: &Mat3<Int>, p: &Mat3<Int>) -> Metric
    requires symmetric { transposed g.now ≡ g.now }
    requires metric { EntriesAtMost (10 ^ 9) g.now }
    requires columns { EntriesAtMost MOST_ATOMS p.now }
    ensures { metric_of result ≡ metric_in p.now g.now }
{
    let changed = p.transpose().times(&g.times(p));
    Metric {
        aa: changed.a11,
        bb: changed.a22,
        cc: changed.a33,
        bc: changed.a23,
        ac: changed.a13,
        ab: changed.a12,
    }
}

/// A reduced basis of the pure translations.
pub(crate) fn reduced_basis(cell: &Cell, shifts: &OpList) -> Basis
    requires n { shifts.now.n ≡ cell.now.n }
    requires exact { ListsPureTranslations cell.now shifts.now.operations }
    requires metric { EntriesAtMost (10 ^ 9) cell.now.metric }
    ensures { IsReducedBasis cell.now shifts.now.operations result.index result.back result.fore (metric_of result.metric) }
{
    cell.invariant();
    let steps = step_basis(shifts);
    let reduced = reduce(&changed_metric(&cell.metric().matrix(), &steps.fore));
    Basis {
        metric: reduced.metric,
        back: reduced.back.times(&steps.back),
        fore: steps.fore.times(&reduced.base),
        index: steps.index,
    }
}
