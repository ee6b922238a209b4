// The operations (I, t, s) of a group: those that come after the operations that stand for its matrices.
ghost use Rattle.std.specs.Prelude.{◌≡◌, ◌<◌, ◌≤◌, [], length, map, IfOk, OnOk, vec_items, List};
ghost use Rattle.lists.specs.Increasing.{IsMember};
ghost use Rattle.crystal_spec.specs.Operations.{Operation, IsWithinCell};
ghost use Rattle.op_group.specs.Views.{operation_of};
ghost use Rattle.positions.specs.Positions.{triple_of};
ghost use Rattle.hall_text.specs.Products.{IsProduct, AreProducts};
ghost use Rattle.hall_symbol.specs.Views.{AreSmall};
ghost use Rattle.hall_text.specs.Splits.{AreRotations, StandForMatrices};
ghost use Rattle.hall_text.specs.PureTables.{pure_of, AreWithin, HasSums, HasCarried, AreMade, IsMore, IsClosed, HaveSteps, HasDifferences};

use crate::matrices::{identity_operation, with_matrix};
use crate::pures::{Pure, Table, carried, difference, sum};
use crystal_spec::Sign;
use op_group::{Op, compose};
use std::alloc::{AllocError, Global};

/// Adds the differences of what r and each of gens after it come to from the operations of their matrices.
fn add_differences(steps: &mut Vec<Pure>, ops: &[Op], r: &Op, gens: &[Op]) -> Result<(), AllocError>
    requires rotations { AreRotations (map operation_of gens.now) }
    requires stand { StandForMatrices (map operation_of gens.now) (map operation_of ops.now) }
    requires member { IsMember (operation_of r.now) (map operation_of ops.now) }
    ensures { OnOk result (HasDifferences (map operation_of ops.now) (map operation_of gens.now) (operation_of r.now) (map operation_of gens.now) (map pure_of (vec_items steps.old)) (map pure_of (vec_items steps.new))) }
{
    for x in gens {
        let o = compose(12, r, x);
        match with_matrix(ops, &o.w) {
            Some(rep) => steps.push(difference(&o, &rep))?,
            None => {}
        }
    }
    Ok(())
}

/// What comes after the operations that stand for the matrices, in each of them and each of gens after it.
pub(crate) fn differences(alloc: Global, ops: &[Op], gens: &[Op]) -> Result<Vec<Pure>, AllocError>
    requires rotations { AreRotations (map operation_of gens.now) }
    requires stand { StandForMatrices (map operation_of gens.now) (map operation_of ops.now) }
    ensures { IfOk result (λ v. HaveSteps (map operation_of ops.now) (map pure_of v.items) (map operation_of ops.now) (map operation_of gens.now)) }
{
    let mut steps = Vec::new(alloc);
    for r in ops {
        add_differences(&mut steps, ops, r, gens)?;
    }
    Ok(steps)
}

/// Puts the sums of o with each of the steps into the table.
fn put_sums(table: &mut Table, o: &Pure, steps: &[Pure]) -> Result<(), AllocError>
    requires within { AreWithin (map pure_of steps.now) }
    requires o { IsWithinCell 12 (triple_of o.now.shift) }
    ensures more { OnOk result (IsMore table.old table.new) }
    ensures sums { OnOk result (HasSums table.new (pure_of o.now) (map pure_of steps.now)) }
    ensures made { OnOk result ((gens : List Operation) → AreProducts gens (map pure_of steps.now) → IsProduct gens (pure_of o.now) → AreMade gens table.old → AreMade gens table.new) }
{
    for d in steps {
        table.put(sum(o, d))?;
    }
    Ok(())
}

/// Puts o carried by each of gens into the table.
fn put_carried(table: &mut Table, o: &Pure, gens: &[Op]) -> Result<(), AllocError>
    requires rotations { AreRotations (map operation_of gens.now) }
    requires o { IsWithinCell 12 (triple_of o.now.shift) }
    ensures more { OnOk result (IsMore table.old table.new) }
    ensures carried { OnOk result (HasCarried table.new (pure_of o.now) (map operation_of gens.now)) }
    ensures made { OnOk result (IsProduct (map operation_of gens.now) (pure_of o.now) → AreMade (map operation_of gens.now) table.old → AreMade (map operation_of gens.now) table.new) }
{
    for x in gens {
        table.put(carried(o, x))?;
    }
    Ok(())
}

/// The table of all operations (I, t, s) that come from the steps by sums and by what gens carry them to.
pub(crate) fn closed_table(alloc: Global, steps: &[Pure], gens: &[Op]) -> Result<Table, AllocError>
    requires rotations { AreRotations (map operation_of gens.now) }
    requires within { AreWithin (map pure_of steps.now) }
    requires made { AreProducts (map operation_of gens.now) (map pure_of steps.now) }
    ensures closed { IfOk result (IsClosed (map pure_of steps.now) (map operation_of gens.now)) }
    ensures made { IfOk result (AreMade (map operation_of gens.now)) }
{
    let mut table = Table::new(alloc)?;
    table.put(Pure {
        shift: [0, 0, 0],
        sign: Sign::Same,
    })?;
    let mut at = 0;
    while at < table.count() {
        let o = table.at(at);
        put_sums(&mut table, &o, steps)?;
        put_carried(&mut table, &o, gens)?;
        at += 1;
    }
    Ok(table)
}
