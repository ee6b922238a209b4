ghost use Rattle.std.specs.Prelude.{◌≡◌, ◌<◌, ◌≤◌, [], length, slice_get, Some, IfErr, OnOk, OnErr};
ghost use Rattle.std.specs.List.{insert};
ghost use Rattle.lists.specs.Increasing.{IsIncreasing, IsMember, inserted};
ghost use Rattle.lattice_iso.specs.Isometries.{matrix_order};

use exact_num::Int;
use matrix3::Mat3;
use std::alloc::{AllocError, Global};
use std::cmp::Ordering;
use std::marker::Model;

/// A strictly increasing list of matrices, by their nine entries row by row.
#[derive(Drop)]
pub struct Isos {
    items: Vec<Mat3<Int>>,
}

impl Model for Isos {
    ghost use Rattle.std.specs.Prelude.{List};
    ghost use Rattle.lists.specs.Increasing.{IsIncreasing};
    ghost use Rattle.crystal_spec.specs.Matrices.{Matrix};
    ghost use Rattle.lattice_iso.specs.Isometries.{matrix_order};

    ghost Value = { List Matrix };

    ghost view = { λ l. l.items.items };

    ghost invariant = { λ l. IsIncreasing matrix_order l.items.items };
}

/// The order of matrices, by their nine entries row by row.
fn compare(v: &Mat3<Int>, w: &Mat3<Int>) -> Ordering
    ensures { result ≡ matrix_order v.now w.now }
{
    v.cmp(w)
}

/// Where a matrix is in an increasing list, or where it would go.
fn position(items: &[Mat3<Int>], w: &Mat3<Int>) -> Result<usize, usize>
    requires { IsIncreasing matrix_order items.now }
    ensures found { OnOk result (IsMember w.now items.now) }
    ensures within { IfErr result (λ at. at ≤ length items.now) }
    ensures placed { IfErr result (λ at. insert items.now at w.now ≡ inserted matrix_order w.now items.now) }
{
    items.binary_search_by(|item| compare(item, w))
}

impl Isos {
    /// The empty list. It takes no memory.
    pub(crate) fn new(alloc: Global) -> Isos
        ensures { result ≡ [] }
    {
        Isos {
            items: Vec::new(alloc),
        }
    }

    /// How many isometries there are.
    pub fn count(&self) -> usize
        ensures value { result ≡ length self.now }
        ensures ordered { IsIncreasing matrix_order self.now }
    {
        self.items.len()
    }

    /// The isometry at a place, counted from 0.
    pub fn at(&self, i: usize) -> &Mat3<Int>
        requires { i < length self.now }
        ensures { slice_get self.now i ≡ Some result.now }
    {
        &self.items[i]
    }

    /// Puts the matrix at its place. Where it was there, or after want of memory, nothing changes.
    pub(crate) fn insert(&mut self, w: Mat3<Int>) -> Result<(), AllocError>
        ensures value { OnOk result (self.new ≡ inserted matrix_order w self.old) }
        ensures unchanged { OnErr result (self.new ≡ self.old) }
    {
        if let Err(at) = position(&self.items, &w) {
            self.items.insert(at, w)?;
        }
        Ok(())
    }
}
