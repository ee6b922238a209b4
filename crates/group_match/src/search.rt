// The first map of the class.

ghost use Rattle.std.specs.Prelude.{◌≡◌, ◌↔◌, ℕ, ◌+◌, ◌*◌, ◌<◌, ◌≤◌, ◌^◌, pos, length, IsTrue, IfOk, IfSome, IfNone};
ghost use Rattle.exact_num.specs.Meanings.{fraction_of};
ghost use Rattle.matrix3.specs.Matrices.{vector_map};
ghost use Rattle.crystal_spec.specs.Matrices.{Matrix, product};
ghost use Rattle.op_group.specs.Groups.{IsGroupModulo};
ghost use Rattle.mag_type.specs.MagneticTypes.{HasOnlyZeroTranslation};
ghost use Rattle.match_spec.specs.Points.{Point, IsPoint};
ghost use Rattle.match_spec.specs.Fractions.{point_of};
ghost use Rattle.match_spec.specs.Maps.{Carries};
ghost use Rattle.match_spec.specs.FirstMap.{IsClass, IsStepMatrix, IsLeastOrigin, IsFirst, IsNone, IsFirstMap, HasNoMap};
ghost use Rattle.match_spec.specs.BalancedOrigins.{BalancedOriginsSuffice, BalancedOriginsAreKnown};
ghost use Rattle.group_match.specs.Tasks.{IsTask, AreSourcesOf, IsNoneBefore};
ghost use Rattle.op_group.specs.Lists.{HasEntriesAtMost, HasFewMatrices};

use crate::candidate::{candidate, is_proper};
use crate::column::may_match;
use crate::inner::{Source, sources};
use crate::kind::differ_in_kinds;
use crate::map::Map;
use crate::origin::least_origin;
use crate::pair::pairs_for;
use crate::representative::representatives;
use exact_num::{Frac, Int};
use matrix3::{Mat3, Vec3};
use op_group::{Op, OpList, step_basis};
use std::alloc::{AllocError, Global};

/// The least balanced origin with which the map of P carries, or `None` where no origin carries.
fn origin_for(
    alloc: Global,
    symbol: &OpList,
    found: &OpList,
    back: &Mat3<Int>,
    sources: &[Source],
    class: &Mat3<Int>,
) -> Result<Option<Vec3<Frac>>, AllocError>
    requires task { IsTask symbol.now.operations found.now.n found.now.operations }
    requires step { IsStepMatrix symbol.now.operations back.now }
    requires sources { AreSourcesOf symbol.now.operations back.now sources.now }
    requires many { length sources.now ≡ length found.now.operations }
    requires class { IsClass class.now }
    ensures found { IfOk result (λ r. IfSome r (λ f. IsLeastOrigin back.now symbol.now.operations (pos found.now.n) found.now.operations class.now (point_of (vector_map fraction_of f)))) }
    ensures absent { IfOk result (λ r. IfNone r ((p : Point) → IsPoint p → ¬ (Carries (product class.now back.now) p symbol.now.operations (pos found.now.n) found.now.operations))) }
{
    found.invariant();
    let turn = class.times(back);
    let ops = found.ops();
    let Some(pairs) = pairs_for(alloc, class, sources, ops)? else {
        return Ok(None);
    };
    least_origin(alloc, &turn, found.n(), &pairs.all, &pairs.first)
}

/// The first map of the class that carries, of the 27 matrices from a number on, or `None` where none of them does.
fn map_in_block(
    alloc: Global,
    symbol: &OpList,
    found: &OpList,
    back: &Mat3<Int>,
    sources: &[Source],
    block: u32,
) -> Result<Option<Map>, AllocError>
    requires task { IsTask symbol.now.operations found.now.n found.now.operations }
    requires step { IsStepMatrix symbol.now.operations back.now }
    requires sources { AreSourcesOf symbol.now.operations back.now sources.now }
    requires many { length sources.now ≡ length found.now.operations }
    requires block { block < 729 }
    requires none_before { IsNoneBefore symbol.now.operations found.now.n found.now.operations back.now (block * 27) }
    ensures found { IfOk result (λ r. IfSome r (λ map. IsFirst back.now symbol.now.operations (pos found.now.n) found.now.operations map.class (point_of (vector_map fraction_of map.origin)))) }
    ensures turn { IfOk result (λ r. IfSome r (λ map. map.turn ≡ product map.class back.now)) }
    ensures absent { IfOk result (λ r. IfNone r (IsNoneBefore symbol.now.operations found.now.n found.now.operations back.now (block * 27 + 27))) }
{
    let start = block * 27;
    for number in start..start + 27 {
        let class = candidate(number);
        if is_proper(&class) {
            match origin_for(alloc, symbol, found, back, sources, &class)? {
                Some(origin) => {
                    let turn = class.times(back);
                    return Ok(Some(Map {
                        class,
                        turn,
                        origin,
                    }));
                }
                None => {}
            }
        }
    }
    Ok(None)
}

/// The first map of the class that carries, or `None` where none does.
fn first_map(
    alloc: Global,
    symbol: &OpList,
    found: &OpList,
    back: &Mat3<Int>,
    sources: &[Source],
) -> Result<Option<Map>, AllocError>
    requires task { IsTask symbol.now.operations found.now.n found.now.operations }
    requires step { IsStepMatrix symbol.now.operations back.now }
    requires sources { AreSourcesOf symbol.now.operations back.now sources.now }
    requires many { length sources.now ≡ length found.now.operations }
    ensures found { IfOk result (λ r. IfSome r (λ map. IsFirst back.now symbol.now.operations (pos found.now.n) found.now.operations map.class (point_of (vector_map fraction_of map.origin)))) }
    ensures turn { IfOk result (λ r. IfSome r (λ map. map.turn ≡ product map.class back.now)) }
    ensures absent { IfOk result (λ r. IfNone r (IsNone back.now symbol.now.operations (pos found.now.n) found.now.operations)) }
{
    let ops = found.ops();
    for block in 0..729 {
        if may_match(&candidate(block * 27), sources, ops) {
            match map_in_block(alloc, symbol, found, back, sources, block)? {
                Some(map) => return Ok(Some(map)),
                None => {}
            }
        }
    }
    Ok(None)
}

/// The first map of the class that carries, or `None` where none does; groups that differ in the kinds of their operations are
/// refused before any P is tried.
fn compared_map(
    alloc: Global,
    symbol: &OpList,
    found: &OpList,
    back: &Mat3<Int>,
    sources: &[Source],
) -> Result<Option<Map>, AllocError>
    requires task { IsTask symbol.now.operations found.now.n found.now.operations }
    requires step { IsStepMatrix symbol.now.operations back.now }
    requires sources { AreSourcesOf symbol.now.operations back.now sources.now }
    requires many { length sources.now ≡ length found.now.operations }
    ensures found { IfOk result (λ r. IfSome r (λ map. IsFirst back.now symbol.now.operations (pos found.now.n) found.now.operations map.class (point_of (vector_map fraction_of map.origin)))) }
    ensures turn { IfOk result (λ r. IfSome r (λ map. map.turn ≡ product map.class back.now)) }
    ensures absent { IfOk result (λ r. IfNone r (IsNone back.now symbol.now.operations (pos found.now.n) found.now.operations)) }
{
    let ops = found.ops();
    if differ_in_kinds(alloc, sources, ops)? {
        return Ok(None);
    }
    first_map(alloc, symbol, found, back, sources)
}

/// Whether the operations are as many as the members of the list.
fn are_as_many(ops: &[Op], found: &OpList) -> bool
    ensures { IsTrue result ↔ (length ops.now ≡ length found.now.operations) }
{
    ops.len() == found.count()
}

/// The first map of the class, or `None` where none carries; groups with another number of matrices with time signs are
/// refused first.
fn row_map(alloc: Global, symbol: &OpList, found: &OpList) -> Result<Option<Map>, AllocError>
    requires twelfths { symbol.now.n ≡ 12 }
    requires symbol_group { IsGroupModulo symbol.now.n symbol.now.operations }
    requires found_group { IsGroupModulo found.now.n found.now.operations }
    requires primitive { HasOnlyZeroTranslation found.now.operations }
    requires few { HasFewMatrices 48 symbol.now.operations }
    requires symbol_entries { HasEntriesAtMost (10 ^ 23) symbol.now.operations }
    requires found_entries { HasEntriesAtMost 150000000 found.now.operations }
    requires found_n { found.now.n ≤ 10 ^ 6 }
    ensures found { IfOk result (λ r. IfSome r (λ map. IsFirstMap symbol.now.operations found.now.n found.now.operations map.class map.turn (point_of (vector_map fraction_of map.origin)))) }
    ensures absent { IfOk result (λ r. IfNone r (HasNoMap symbol.now.operations found.now.n found.now.operations)) }
{
    symbol.invariant();
    found.invariant();
    let steps = step_basis(symbol);
    let reps = representatives(alloc, symbol)?;
    if !are_as_many(&reps, found) {
        return Ok(None);
    }
    match sources(alloc, &steps, &reps)? {
        None => Ok(None),
        Some(sources) => compared_map(alloc, symbol, found, &steps.back, &sources),
    }
}

/// The first map of the class that carries the group of a symbol onto a found group, or `None` where no map of the class does.
///
/// The symbol's operations are in units of 1/12 and the found ones in units of 1/n. With S, which takes coordinates to those in
/// the triangular basis of the symbol's pure translations, the class has all Q = P S for matrices P with entries -1, 0 and 1 and
/// determinant +1, ordered by their nine entries, and for all origin shifts p. The map takes (W, w, sign) to
/// (Q W Q⁻¹, Q w + p - Q W Q⁻¹ p, sign), and carries where these, modulo whole translations, are exactly the members of the found
/// group. Of the k different matrices of the found group each gives a pair of the member with this matrix (of sign +1, where there
/// is one) and an image with the origin shift 0; p is balanced where k p is, modulo whole translations, the sum over the pairs of
/// the member's translation part less the image's. The answer has the first P for which any origin shift carries, with the least
/// balanced one that does, each coordinate from 0 and below 1. Asks that both lists are groups modulo whole cells, that the
/// symbol's n is 12 and the found one at most 10^6, that the only pure translation of the found group is 0, that the symbol has
/// at most 48 different matrices with entries of size up to 10^23, and the found group entries of size up to 150,000,000.
/// Refuses for want of memory alone.
pub fn match_row(alloc: Global, symbol: &OpList, found: &OpList) -> Result<Option<Map>, AllocError>
    requires twelfths { symbol.now.n ≡ 12 }
    requires symbol_group { IsGroupModulo symbol.now.n symbol.now.operations }
    requires found_group { IsGroupModulo found.now.n found.now.operations }
    requires primitive { HasOnlyZeroTranslation found.now.operations }
    requires few { HasFewMatrices 48 symbol.now.operations }
    requires symbol_entries { HasEntriesAtMost (10 ^ 23) symbol.now.operations }
    requires found_entries { HasEntriesAtMost 150000000 found.now.operations }
    requires found_n { found.now.n ≤ 10 ^ 6 }
    ensures found { IfOk result (λ r. IfSome r (λ map. IsFirstMap symbol.now.operations found.now.n found.now.operations map.class map.turn (point_of (vector_map fraction_of map.origin)))) }
    ensures absent { IfOk result (λ r. IfNone r (HasNoMap symbol.now.operations found.now.n found.now.operations)) }
    ensures origins { BalancedOriginsSuffice symbol.now.operations found.now.n found.now.operations }
    ensures places { BalancedOriginsAreKnown symbol.now.operations found.now.n found.now.operations }
{
    row_map(alloc, symbol, found)
}
