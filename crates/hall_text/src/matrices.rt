// Operations that stand for the matrices of a group: one product for each matrix.
ghost use Rattle.std.specs.Prelude.{◌≡◌, ◌<◌, ◌≤◌, ◌^◌, map, length, vec_items, IfOk, IfErr, OnOk, OnErr, IfSome, IfNone, IsTrue, ◌↔◌, List};
ghost use Rattle.lists.specs.Increasing.{IsMember};
ghost use Rattle.crystal_spec.specs.Operations.{Operation};
ghost use Rattle.op_group.specs.Views.{operation_of};
ghost use Rattle.op_group.specs.Composition.{identity_operation};
ghost use Rattle.hall_text.specs.Splits.{AreRotations, ArePartial, IsNext, IsAdded, HasGrown, StandForMatrices, Refuses};

use crate::fault::ExpandError;
use crystal_spec::Sign;
use exact_num::Int;
use matrix3::Mat3;
use op_group::{Op, compose};
use std::alloc::Global;

/// How many matrices a group has at most.
const MOST_MATRICES: usize = 48;

/// Whether the two are one.
fn is_same_matrix(a: &Mat3<Int>, b: &Mat3<Int>) -> bool
    ensures { IsTrue result ↔ (a.now ≡ b.now) }
{
    *a == *b
}

/// The operation of the list with this matrix.
pub(crate) fn with_matrix(list: &[Op], w: &Mat3<Int>) -> Option<Op>
    ensures found { IfSome result (λ o. IsMember (operation_of o) (map operation_of list.now) × (w.now ≡ o.w)) }
    ensures absent { IfNone result ((o : Operation) → IsMember o (map operation_of list.now) → w.now ≡ o.matrix → ⊥) }
{
    for o in list {
        if is_same_matrix(w, &o.w) {
            return Some(*o);
        }
    }
    None
}

/// The operation (I, 0, +1).
pub(crate) fn identity_operation() -> Op
    ensures { operation_of result ≡ identity_operation }
{
    Op {
        w: Mat3::identity(),
        shift: [0, 0, 0],
        sign: Sign::Same,
    }
}

/// Adds a product where its matrix is new.
fn add(list: &mut Vec<Op>, o: Op) -> Result<(), ExpandError>
    ensures value { OnOk result ((gens : List Operation) → ArePartial gens (map operation_of (vec_items list.old)) → IsNext gens (map operation_of (vec_items list.old)) (operation_of o) → IsAdded gens (map operation_of (vec_items list.old)) (map operation_of (vec_items list.new)) (operation_of o)) }
    ensures refused { IfErr result (λ e. (gens : List Operation) → ArePartial gens (map operation_of (vec_items list.old)) → IsNext gens (map operation_of (vec_items list.old)) (operation_of o) → Refuses gens e) }
{
    match with_matrix(list, &o.w) {
        Some(_) => Ok(()),
        None => {
            if list.len() == MOST_MATRICES {
                return Err(ExpandError::TooManyMatrices);
            }
            let Ok(()) = list.push(o) else {
                return Err(ExpandError::Memory);
            };
            Ok(())
        }
    }
}

/// Adds what r and each of gens after it come to, where its matrix is new.
fn grow(list: &mut Vec<Op>, r: &Op, gens: &[Op]) -> Result<(), ExpandError>
    requires rotations { AreRotations (map operation_of gens.now) }
    requires partial { ArePartial (map operation_of gens.now) (map operation_of (vec_items list.old)) }
    requires member { IsMember (operation_of r.now) (map operation_of (vec_items list.old)) }
    ensures value { OnOk result (HasGrown (map operation_of gens.now) (operation_of r.now) (map operation_of (vec_items list.old)) (map operation_of (vec_items list.new))) }
    ensures refused { IfErr result (Refuses (map operation_of gens.now)) }
{
    for x in gens {
        match add(list, compose(12, r, x)) {
            Ok(()) => {}
            Err(error) => return Err(error),
        }
    }
    Ok(())
}

/// Products of these operations, one for each matrix of a product.
///
/// Refuses where products have a 49th different matrix, and for want of memory.
pub(crate) fn matrix_operations(alloc: Global, gens: &[Op]) -> Result<Vec<Op>, ExpandError>
    requires rotations { AreRotations (map operation_of gens.now) }
    ensures value { IfOk result (λ v. StandForMatrices (map operation_of gens.now) (map operation_of v.items)) }
    ensures refused { IfErr result (Refuses (map operation_of gens.now)) }
{
    let mut list = Vec::new(alloc);
    let Ok(()) = list.push(identity_operation()) else {
        return Err(ExpandError::Memory);
    };
    let mut at = 0;
    while at < list.len() {
        let r = list[at];
        match grow(&mut list, &r, gens) {
            Ok(()) => {}
            Err(error) => return Err(error),
        }
        at += 1;
    }
    Ok(list)
}
