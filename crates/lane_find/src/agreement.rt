// The first index at which three lists agree with a key.

ghost use Rattle.std.specs.Prelude.{◌≡◌, ◌↔◌, ◌+◌, ◌<◌, ◌≤◌, length, IsTrue, IsNone, IfSome};
ghost use Rattle.std.specs.Bool.{OnTrue, OnFalse};
ghost use Rattle.lane_find.specs.Agreement.{AgreesAt, IsFirstAt, IsAbsent};
ghost use Rattle.lane_find.specs.Stretches.{NoneBetween, SomeBetween};

use crate::LANES;

/// Whether the three lists agree with the key at this index.
#[inline]
fn agrees_at(xs: &[u32], ys: &[u32], zs: &[u32], i: usize, x: u32, y: u32, z: u32) -> bool
    requires within { i < length xs.now }
    requires same_length_ys { length ys.now ≡ length xs.now }
    requires same_length_zs { length zs.now ≡ length xs.now }
    ensures { IsTrue result ↔ AgreesAt xs.now ys.now zs.now x y z i }
{
    (xs[i] == x) & (ys[i] == y) & (zs[i] == z)
}

/// Whether the three lists agree with the key at an index of the chunk that starts here. Each index is tested.
#[inline]
fn agrees_in_chunk(xs: &[u32], ys: &[u32], zs: &[u32], start: usize, x: u32, y: u32, z: u32) -> bool
    requires within { start + LANES ≤ length xs.now }
    requires same_length_ys { length ys.now ≡ length xs.now }
    requires same_length_zs { length zs.now ≡ length xs.now }
    ensures found { OnTrue result (SomeBetween xs.now ys.now zs.now x y z start (start + LANES)) }
    ensures absent { OnFalse result (NoneBetween xs.now ys.now zs.now x y z start (start + LANES)) }
{
    let mut any = false;
    for lane in 0..LANES {
        any |= agrees_at(xs, ys, zs, start + lane, x, y, z);
    }
    any
}

/// How many entries the chunks have that stand before the first chunk with an agreement, or all whole chunks.
#[inline]
fn chunks_without(xs: &[u32], ys: &[u32], zs: &[u32], x: u32, y: u32, z: u32) -> usize
    requires same_length_ys { length ys.now ≡ length xs.now }
    requires same_length_zs { length zs.now ≡ length xs.now }
    ensures within { result ≤ length xs.now }
    ensures absent { NoneBetween xs.now ys.now zs.now x y z 0 result }
{
    let chunks = xs.len() / LANES;
    for chunk in 0..chunks {
        if agrees_in_chunk(xs, ys, zs, chunk * LANES, x, y, z) {
            return chunk * LANES;
        }
    }
    chunks * LANES
}

/// The first index from here on at which the three lists agree with the key.
#[inline]
fn first_from(
    xs: &[u32],
    ys: &[u32],
    zs: &[u32],
    start: usize,
    x: u32,
    y: u32,
    z: u32,
) -> Option<usize>
    requires same_length_ys { length ys.now ≡ length xs.now }
    requires same_length_zs { length zs.now ≡ length xs.now }
    requires none_before { NoneBetween xs.now ys.now zs.now x y z 0 start }
    ensures found { IfSome result (λ i. IsFirstAt xs.now ys.now zs.now x y z i) }
    ensures absent { IsNone result ↔ IsAbsent xs.now ys.now zs.now x y z }
{
    for i in start..xs.len() {
        if agrees_at(xs, ys, zs, i, x, y, z) {
            return Some(i);
        }
    }
    None
}

/// The first index at which the three lists hold x, y and z. Asks that they have one length.
pub fn first_at(xs: &[u32], ys: &[u32], zs: &[u32], x: u32, y: u32, z: u32) -> Option<usize>
    requires same_length_ys { length ys.now ≡ length xs.now }
    requires same_length_zs { length zs.now ≡ length xs.now }
    ensures found { IfSome result (λ i. IsFirstAt xs.now ys.now zs.now x y z i) }
    ensures absent { IsNone result ↔ IsAbsent xs.now ys.now zs.now x y z }
{
    let start = chunks_without(xs, ys, zs, x, y, z);
    first_from(xs, ys, zs, start, x, y, z)
}
