// What is found of a cell before its report: its primitive cell, and the symmetry operations there.

ghost use Rattle.std.specs.Prelude.{◌≡◌, Bool, IfOk};
ghost use Rattle.report_basis.specs.declared.Kept.TheVariants.{Back};
ghost use Rattle.answers.specs.Findings.{IsReducedPrimitive, IsFound};
ghost use Rattle.crystal.specs.Sizes.{HasSizesOfRead};
ghost use Rattle.op_group.specs.Groups.{IsGroupModulo};
ghost use Rattle.op_group.specs.Lists.{HasEntriesAtMost};
ghost use Rattle.mag_type.specs.MagneticTypes.{HasOnlyZeroTranslation};

use crystal::{Cell, Steps};
use mag_ops::full_group;
use op_group::OpList;
use prim_cell::{Primitive, primitive};
use report_basis::Kept;
use std::alloc::{AllocError, Global};
use std::sync::ledger::Ledger;

/// A primitive cell, and the list of its symmetry operations.
#[derive(Drop)]
pub(crate) struct Found {
    pub made: Primitive,
    pub group: OpList,
}

/// The basis of a primitive cell, which its report speaks of.
pub(crate) fn kept(made: &Primitive) -> Kept
    ensures { result ≡ Back made.now.back }
{
    Kept::Back(*made.back())
}

/// The primitive cell of a cell that was read.
pub(crate) fn made_of(alloc: Global, cell: &Cell) -> Result<Primitive, AllocError>
    requires { HasSizesOfRead cell.now }
    ensures { IfOk result (λ made. IsReducedPrimitive cell.now made) }
{
    cell.invariant();
    primitive(alloc, cell)
}

/// The primitive cell of a cell that was read, and its symmetry operations: those that reverse time only where `time` is set.
pub(crate) fn found_of<L: Ledger>(
    alloc: Global,
    cell: &Cell,
    time: bool,
    steps: &mut Steps<L>,
) -> Result<Found, AllocError>
    requires { HasSizesOfRead cell.now }
    ensures found { IfOk result (λ found. IsFound cell.now time found.made found.group) }
    ensures group { IfOk result (λ found. IsGroupModulo found.group.n found.group.operations) }
    ensures primitive { IfOk result (λ found. HasOnlyZeroTranslation found.group.operations) }
    ensures small { IfOk result (λ found. HasEntriesAtMost 1 found.group.operations) }
{
    let made = made_of(alloc, cell)?;
    let group = full_group(alloc, &made, time, steps)?;
    Ok(Found { made, group })
}
