// Operations (I, t, s) modulo whole translations, with t in units of 1/12, and tables of them: there are 12 · 12 · 12 · 2 = 3456.
ghost use Rattle.std.specs.Prelude.{◌≡◌, ◌<◌, ◌≤◌, ◌↔◌, [], length, map, get_or, ◌+◌, ◌-◌, ◌%◌, true, false, IsTrue, IfOk, OnOk, vec_items};
ghost use Rattle.ring.specs.Size.{AtMost};
ghost use Rattle.matrix3.specs.Matrices.{EachEntry};
ghost use Rattle.crystal_spec.specs.Matrices.{Triple, image, sum_of, difference};
ghost use Rattle.crystal_spec.specs.Operations.{Operation, IsWithinCell};
ghost use Rattle.op_group.specs.Views.{operation_of};
ghost use Rattle.positions.specs.Positions.{triple_of};
ghost use Rattle.hall_symbol.specs.Compositions.{both, reduced};
ghost use Rattle.hall_text.specs.Splits.{pure};
ghost use Rattle.hall_text.specs.PureTables.{pure_of, place_of, sign_place, Has, PureTable, IsPureTable, IsEmptyTable, IsPut, sum_with, carried_by};

use crystal_spec::Sign;
use matrix3::Mat3;
use op_group::{Op, compose};
use std::alloc::{AllocError, Global};
use std::marker::Model;

/// The operation (I, t, s).
#[derive(Clone, Copy)]
pub(crate) struct Pure {
    /// The translation t, in units of 1/12.
    pub shift: [u32; 3],
    /// The time sign s.
    pub sign: Sign,
}

/// Both time signs.
fn both(s: Sign, t: Sign) -> Sign
    ensures { result ≡ both s t }
{
    match (s, t) {
        (Sign::Same, t) => t,
        (s, Sign::Same) => s,
        (Sign::Reversed, Sign::Reversed) => Sign::Same,
    }
}

/// The difference of two coordinates modulo 12.
fn less(a: u32, b: u32) -> u32
    requires a { a < 12 }
    requires b { b < 12 }
    ensures { result ≡ (a + 12 - b) % 12 }
{
    (a + 12 - b) % 12
}

/// The operation (I, t, s) that comes after `s` in an operation of the same matrix.
pub(crate) fn difference(o: &Op, s: &Op) -> Pure
    requires o { IsWithinCell 12 (triple_of o.now.shift) }
    requires s { IsWithinCell 12 (triple_of s.now.shift) }
    ensures { pure_of result ≡ pure (reduced (difference (triple_of o.now.shift) (triple_of s.now.shift))) (both o.now.sign s.now.sign) }
{
    let a = o.shift;
    let b = s.shift;
    Pure {
        shift: [less(a[0], b[0]), less(a[1], b[1]), less(a[2], b[2])],
        sign: both(o.sign, s.sign),
    }
}

/// One after the other.
pub(crate) fn sum(o: &Pure, d: &Pure) -> Pure
    requires o { IsWithinCell 12 (triple_of o.now.shift) }
    requires d { IsWithinCell 12 (triple_of d.now.shift) }
    ensures { pure_of result ≡ sum_with (pure_of o.now) (pure_of d.now) }
{
    let a = o.shift;
    let b = d.shift;
    Pure {
        shift: [(a[0] + b[0]) % 12, (a[1] + b[1]) % 12, (a[2] + b[2]) % 12],
        sign: both(o.sign, d.sign),
    }
}

/// Carried by an operation.
pub(crate) fn carried(o: &Pure, x: &Op) -> Pure
    requires small { EachEntry (AtMost 1) x.now.w }
    ensures { pure_of result ≡ carried_by (pure_of o.now) (operation_of x.now) }
{
    let shift = o.shift;
    let first = Op {
        w: Mat3::identity(),
        shift,
        sign: o.sign,
    };
    let next = Op {
        w: x.w,
        shift: [0, 0, 0],
        sign: Sign::Same,
    };
    let turned = compose(12, &first, &next);
    let shift = turned.shift;
    Pure {
        shift,
        sign: o.sign,
    }
}

fn sign_place(sign: Sign) -> usize
    ensures value { result ≡ sign_place sign }
    ensures small { result ≤ 1 }
{
    match sign {
        Sign::Same => 0,
        Sign::Reversed => 1,
    }
}

/// The place in a table.
fn place(o: &Pure) -> usize
    requires { IsWithinCell 12 (triple_of o.now.shift) }
    ensures value { result ≡ place_of (triple_of o.now.shift) o.now.sign }
    ensures within { result < 3456 }
{
    let t = o.shift;
    ((t[0] as usize * 12 + t[1] as usize) * 12 + t[2] as usize) * 2 + sign_place(o.sign)
}

/// A table of operations (I, t, s): a flag for each, and those that it has in the order in which they came.
#[derive(Drop)]
pub(crate) struct Table {
    flags: Vec<bool>,
    found: Vec<Pure>,
}

impl Model for Table {
    ghost use Rattle.std.specs.Prelude.{map};
    ghost use Rattle.hall_text.specs.PureTables.{pure_of, PureTable, IsPureTable};

    ghost Value = { PureTable };

    ghost view = { λ t. record { flags = t.flags.items; found = map pure_of t.found.items } };

    ghost invariant = { λ t. IsPureTable (record { flags = t.flags.items; found = map pure_of t.found.items }) };
}

impl Table {
    /// The empty table. Refuses for want of memory alone.
    pub(crate) fn new(alloc: Global) -> Result<Table, AllocError>
        ensures { IfOk result IsEmptyTable }
    {
        Ok(Table {
            flags: vec![in alloc; false; 3456]?,
            found: Vec::new(alloc),
        })
    }

    /// How many operations it has.
    pub(crate) fn count(&self) -> usize
        ensures value { result ≡ length self.now.found }
        ensures at_most { result ≤ 3456 }
        ensures table { IsPureTable self.now }
    {
        self.found.len()
    }

    /// The operation with this number in the order in which they came, from 0.
    pub(crate) fn at(&self, i: usize) -> Pure
        requires { i < length self.now.found }
        ensures { pure_of result ≡ get_or self.now.found i (pure_of result) }
    {
        self.found[i]
    }

    /// Whether it has the operation.
    pub(crate) fn has(&self, o: &Pure) -> bool
        requires { IsWithinCell 12 (triple_of o.now.shift) }
        ensures { IsTrue result ↔ Has self.now.flags (triple_of o.now.shift) o.now.sign }
    {
        self.flags[place(o)]
    }

    /// Puts the operation in. Refuses for want of memory alone.
    pub(crate) fn put(&mut self, o: Pure) -> Result<(), AllocError>
        requires { IsWithinCell 12 (triple_of o.shift) }
        ensures { OnOk result (IsPut self.old self.new (pure_of o)) }
    {
        if self.has(&o) {
            return Ok(());
        }
        self.found.push(o)?;
        self.flags[place(&o)] = true;
        Ok(())
    }
}
