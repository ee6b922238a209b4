ghost use Rattle.std.specs.Prelude.{◌≡◌, ◌↔◌, ◌<◌, ◌≤◌, [], length, map, slice_get, Some, IsTrue, IsOk, IfOk, IfErr, OnOk, OnErr};
ghost use Rattle.std.specs.List.{insert};
ghost use Rattle.lists.specs.Increasing.{IsIncreasing, IsMember, inserted};
ghost use Rattle.crystal_spec.specs.Operations.{Operation, compare_of, IsWithinCell};
ghost use Rattle.op_group.specs.Views.{operation_of};
ghost use Rattle.positions.specs.Positions.{triple_of};
ghost use Rattle.op_group.specs.Lists.{AllWithinCell};

use crate::operation::{Op, compare};
use std::alloc::{AllocError, Global};
use std::marker::Model;

/// A strictly increasing list of operations whose translation parts are from 0 to n - 1.
#[derive(Drop)]
pub struct OpList {
    n: u32,
    items: Vec<Op>,
}

impl Model for OpList {
    ghost use Rattle.std.specs.Prelude.{map};
    ghost use Rattle.op_group.specs.Views.{operation_of};
    ghost use Rattle.op_group.specs.Lists.{OperationList, IsOperationList};

    ghost Value = { OperationList };

    ghost view = { λ l. record { n = l.n; operations = map operation_of l.items.items } };

    ghost invariant = { λ l. IsOperationList l.n (map operation_of l.items.items) };
}

/// Where an operation is in an increasing list, or where it would go.
fn place(items: &[Op], op: &Op) -> Result<usize, usize>
    requires { IsIncreasing compare_of (map operation_of items.now) }
    ensures found { OnOk result (IsMember (operation_of op.now) (map operation_of items.now)) }
    ensures absent { OnErr result (¬ (IsMember (operation_of op.now) (map operation_of items.now))) }
    ensures within { IfErr result (λ at. at ≤ length items.now) }
    ensures placed { IfErr result (λ at. map operation_of (insert items.now at op.now) ≡ inserted compare_of (operation_of op.now) (map operation_of items.now)) }
{
    items.binary_search_by(|item| compare(item, op))
}

impl OpList {
    /// The empty list of this n. It takes no memory.
    pub fn new(alloc: Global, n: u32) -> OpList
        ensures { result ≡ record { n = n; operations = [] } }
    {
        OpList {
            n,
            items: Vec::new(alloc),
        }
    }

    /// The list of these operations, in whatever order they come, each once.
    ///
    /// Their translation parts are below n. Runs of them that are in order are merged as they are. Refuses for want of memory
    /// alone.
    pub fn sorted(n: u32, ops: Vec<Op>) -> Result<OpList, AllocError>
        requires below_n { AllWithinCell n (map operation_of ops.items) }
        ensures n { IfOk result (λ list. list.n ≡ n) }
        ensures exact { IfOk result (λ list. (o : Operation) → IsMember o list.operations ↔ IsMember o (map operation_of ops.items)) }
    {
        let mut items = ops;
        items.sort_by(compare)?;
        items.dedup_by(|next, last| compare(next, last).is_eq());
        Ok(OpList { n, items })
    }

    /// The n of the translation parts.
    pub fn n(&self) -> u32
        ensures { result ≡ self.now.n }
    {
        self.n
    }

    /// That the operations are in order, each once, with translation parts below n. It does nothing.
    pub fn invariant(&self)
        ensures ordered { IsIncreasing compare_of self.now.operations }
        ensures within_cell { AllWithinCell self.now.n self.now.operations }
    {
        let _ = &self.items;
    }

    /// How many operations there are.
    pub fn count(&self) -> usize
        ensures value { result ≡ length self.now.operations }
        ensures ordered { IsIncreasing compare_of self.now.operations }
        ensures within_cell { AllWithinCell self.now.n self.now.operations }
    {
        self.items.len()
    }

    /// The operations in order.
    pub fn ops(&self) -> &[Op]
        ensures { map operation_of result.now ≡ self.now.operations }
    {
        self.items.as_slice()
    }

    /// The operation at a place, counted from 0.
    pub fn at(&self, i: usize) -> &Op
        requires { i < length self.now.operations }
        ensures { slice_get self.now.operations i ≡ Some (operation_of result.now) }
    {
        &self.items[i]
    }

    /// Whether the operation is in the list.
    pub fn has(&self, op: &Op) -> bool
        ensures { IsTrue result ↔ IsMember (operation_of op.now) self.now.operations }
    {
        place(&self.items, op).is_ok()
    }

    /// Puts the operation at its place, and tells whether it was new.
    ///
    /// Its translation part is below n. Where it was there, nothing changes; after want of memory too.
    pub fn insert(&mut self, op: Op) -> Result<bool, AllocError>
        requires below_n { IsWithinCell self.old.n (triple_of op.shift) }
        ensures value { OnOk result (self.new.operations ≡ inserted compare_of (operation_of op) self.old.operations) }
        ensures exact { IfOk result (λ is_new. IsTrue is_new ↔ ¬ (IsMember (operation_of op) self.old.operations)) }
        ensures succeeds { IsMember (operation_of op) self.old.operations → IsOk result }
        ensures n { self.new.n ≡ self.old.n }
        ensures unchanged { OnErr result (self.new ≡ self.old) }
    {
        match place(&self.items, &op) {
            Ok(_) => Ok(false),
            Err(at) => {
                self.items.insert(at, op)?;
                Ok(true)
            }
        }
    }
}
