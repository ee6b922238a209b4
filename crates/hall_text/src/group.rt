// The group of a symbol.
ghost use Rattle.std.specs.Prelude.{◌≡◌, ◌^◌, map, IfOk, IfErr};
ghost use Rattle.op_group.specs.Groups.{IsGroupModulo};
ghost use Rattle.op_group.specs.Views.{operation_of};
ghost use Rattle.hall_symbol.specs.Symbols.{generators};
ghost use Rattle.hall_text.specs.Products.{TooMany, IsGroupOf};
ghost use Rattle.op_group.specs.Lists.{HasEntriesAtMost, HasFewMatrices};
ghost use Rattle.hall_text.specs.Splits.{AreRotations, StandForMatrices, Refuses};

use crate::closure::{closed_table, differences};
use crate::fault::ExpandError;
use crate::listing::all_operations;
use crate::matrices::matrix_operations;
use hall_symbol::{Symbol, generators};
use op_group::{Op, OpList};
use std::alloc::{AllocError, Global};

/// The group of these operations, by the operations that stand for its matrices.
fn group_of(alloc: Global, gens: &[Op], reps: &[Op]) -> Result<OpList, AllocError>
    requires rotations { AreRotations (map operation_of gens.now) }
    requires stand { StandForMatrices (map operation_of gens.now) (map operation_of reps.now) }
    ensures n { IfOk result (λ l. l.n ≡ 12) }
    ensures exact { IfOk result (λ l. IsGroupOf (map operation_of gens.now) l.operations) }
    ensures group { IfOk result (λ l. IsGroupModulo 12 l.operations) }
    ensures few_matrices { IfOk result (λ l. HasFewMatrices 48 l.operations) }
    ensures entries { IfOk result (λ l. HasEntriesAtMost (10 ^ 23) l.operations) }
{
    let steps = differences(alloc, reps, gens)?;
    let table = closed_table(alloc, &steps, gens)?;
    let ops = all_operations(alloc, reps, &table)?;
    let list = OpList::sorted(12, ops)?;
    Ok(list)
}

/// The group of the symbol: all products of its operations modulo whole translations, strictly increasing.
///
/// Translation parts are in units of 1/12, from 0 to 11. `TooManyMatrices` comes exactly where products of the symbol's
/// operations have a 49th different matrix, `Memory` for want of memory alone. [Hal81; ITVB A1.4.2.3]
pub fn expand(alloc: Global, symbol: &Symbol) -> Result<OpList, ExpandError>
    ensures n { IfOk result (λ l. l.n ≡ 12) }
    ensures exact { IfOk result (λ l. IsGroupOf (generators symbol.now) l.operations) }
    ensures group { IfOk result (λ l. IsGroupModulo 12 l.operations) }
    ensures few_matrices { IfOk result (λ l. HasFewMatrices 48 l.operations) }
    ensures entries { IfOk result (λ l. HasEntriesAtMost (10 ^ 23) l.operations) }
    ensures few { IfOk result (λ _. TooMany (generators symbol.now) → ⊥) }
    ensures refused { IfErr result (Refuses (generators symbol.now)) }
{
    let Ok(gens) = generators(alloc, symbol) else {
        return Err(ExpandError::Memory);
    };
    let reps = match matrix_operations(alloc, &gens) {
        Ok(reps) => reps,
        Err(error) => return Err(error),
    };
    let Ok(list) = group_of(alloc, &gens, &reps) else {
        return Err(ExpandError::Memory);
    };
    Ok(list)
}

/// Whether the group of the symbol has at most 48 matrices: `TooManyMatrices` where products of its operations have a 49th
/// different one, `Memory` for want of memory alone.
pub(crate) fn check_matrices(alloc: Global, symbol: &Symbol) -> Result<(), ExpandError>
    ensures few { IfOk result (λ _. TooMany (generators symbol.now) → ⊥) }
    ensures refused { IfErr result (Refuses (generators symbol.now)) }
{
    let Ok(gens) = generators(alloc, symbol) else {
        return Err(ExpandError::Memory);
    };
    match matrix_operations(alloc, &gens) {
        Ok(_) => Ok(()),
        Err(error) => Err(error),
    }
}
