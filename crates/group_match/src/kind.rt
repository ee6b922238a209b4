// What a map leaves unchanged: how many operations there are of each determinant, trace and time sign.

ghost use Rattle.std.specs.Prelude.{◌≡◌, ◌^◌, ℕ, map, IfOk};
ghost use Rattle.std.specs.Bool.{OnTrue, OnFalse};
ghost use Rattle.ring.specs.Size.{AtMost};
ghost use Rattle.lists.specs.Increasing.{IsMember};
ghost use Rattle.matrix3.specs.Matrices.{EachEntry};
ghost use Rattle.crystal_spec.specs.Operations.{Operation, sign_factor};
ghost use Rattle.op_group.specs.Views.{operation_of};
ghost use Rattle.group_match.specs.declared.inner.Source.{Source};
ghost use Rattle.group_match.specs.Kinds.{kind_of, kind_of_source, kind_of_member, number_of_kind, HasOtherNumber};

use crate::inner::Source;
use crystal_spec::Sign;
use exact_num::Int;
use matrix3::Mat3;
use op_group::Op;
use std::alloc::{AllocError, Global};

/// The factor of a time sign: 1 or -1.
fn factor(sign: Sign) -> Int
    ensures value { result ≡ sign_factor sign }
    ensures size { AtMost 1 result }
{
    match sign {
        Sign::Same => Int::new(1).unwrap(),
        Sign::Reversed => Int::new(-1).unwrap(),
    }
}

/// 9 times the trace, 3 times the determinant and the factor of the time sign: one number for each kind of operation of
/// a finite group.
fn kind(w: &Mat3<Int>, sign: Sign) -> Int
    requires { EachEntry (AtMost 2700000000) w.now }
    ensures { result ≡ kind_of w.now sign }
{
    let trace = w.a11 + w.a22 + w.a33;
    let turn = Int::from(9u32) * trace + Int::from(3u32) * w.handed();
    turn + factor(sign)
}

/// The kinds of the symbol's operations, by their matrices in the triangular basis.
fn source_kinds(alloc: Global, sources: &[Source]) -> Result<Vec<Int>, AllocError>
    requires small { (s : Source) → IsMember s sources.now → EachEntry (AtMost 2700000000) s.inner }
    ensures { IfOk result (λ v. v.items ≡ map kind_of_source sources.now) }
{
    let mut kinds = Vec::new(alloc);
    for source in sources {
        kinds.push(kind(&source.inner, source.op.sign))?;
    }
    Ok(kinds)
}

/// The kinds of the members of the found group.
fn member_kinds(alloc: Global, ops: &[Op]) -> Result<Vec<Int>, AllocError>
    requires small { (o : Operation) → IsMember o (map operation_of ops.now) → EachEntry (AtMost 150000000) o.matrix }
    ensures { IfOk result (λ v. v.items ≡ map kind_of_member ops.now) }
{
    let mut kinds = Vec::new(alloc);
    for op in ops {
        kinds.push(kind(&op.w, op.sign))?;
    }
    Ok(kinds)
}

/// How many of the kinds are this one.
fn count(kinds: &[Int], kind: Int) -> usize
    ensures { result ≡ number_of_kind kind kinds.now }
{
    let mut number = 0;
    for other in kinds {
        if *other == kind {
            number += 1;
        }
    }
    number
}

/// Whether each of the first kinds is there as often in the second list.
fn are_as_often(first: &[Int], second: &[Int]) -> bool
    ensures { OnFalse result (HasOtherNumber first.now second.now) }
{
    for kind in first {
        if count(first, *kind) != count(second, *kind) {
            return false;
        }
    }
    true
}

/// Whether the symbol's operations and the members of the found group differ in the number of some kind.
pub(crate) fn differ_in_kinds(
    alloc: Global,
    sources: &[Source],
    ops: &[Op],
) -> Result<bool, AllocError>
    requires small { (s : Source) → IsMember s sources.now → EachEntry (AtMost 2700000000) s.inner }
    requires members { (o : Operation) → IsMember o (map operation_of ops.now) → EachEntry (AtMost 150000000) o.matrix }
    ensures { IfOk result (λ differ. OnTrue differ (HasOtherNumber (map kind_of_source sources.now) (map kind_of_member ops.now))) }
{
    let first = source_kinds(alloc, sources)?;
    let second = member_kinds(alloc, ops)?;
    Ok(!are_as_often(&first, &second))
}
