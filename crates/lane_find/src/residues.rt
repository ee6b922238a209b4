// Lists of residues, shifted in place.

ghost use Rattle.std.specs.Prelude.{◌≡◌, ◌+◌, ◌%◌, ◌^◌, ◌<◌, ◌≤◌, length, All};
ghost use Rattle.lane_find.specs.Residues.{shifted};
ghost use Rattle.lane_find.specs.Stretches.{BelowFrom, ShiftsBetween};

use crate::LANES;

/// (v + t) modulo n, of residues v and t.
#[inline]
fn sum_mod(v: u32, t: u32, n: u32) -> u32
    requires fits { n ≤ 10 ^ 6 }
    requires shift_below_n { t < n }
    requires below_n { v < n }
    ensures { result ≡ (v + t) % n }
{
    let sum = v + t;
    if sum >= n { sum - n } else { sum }
}

/// Shifts the entries of the chunk that starts here.
#[inline]
fn shift_chunk(xs: &mut [u32], start: usize, t: u32, n: u32)
    requires within { start + LANES ≤ length xs.old }
    requires fits { n ≤ 10 ^ 6 }
    requires shift_below_n { t < n }
    requires below_n { BelowFrom n xs.old start }
    ensures { ShiftsBetween xs.old xs.new t n start (start + LANES) }
{
    for lane in 0..LANES {
        xs[start + lane] = sum_mod(xs[start + lane], t, n);
    }
}

/// Shifts the entries of all whole chunks, and tells how many these are.
#[inline]
fn shift_chunks(xs: &mut [u32], t: u32, n: u32) -> usize
    requires fits { n ≤ 10 ^ 6 }
    requires shift_below_n { t < n }
    requires below_n { BelowFrom n xs.old 0 }
    ensures within { result ≤ length xs.old }
    ensures value { ShiftsBetween xs.old xs.new t n 0 result }
{
    let chunks = xs.len() / LANES;
    for chunk in 0..chunks {
        shift_chunk(xs, chunk * LANES, t, n);
    }
    chunks * LANES
}

/// Shifts the entries from here on.
#[inline]
fn shift_from(xs: &mut [u32], start: usize, t: u32, n: u32)
    requires within { start ≤ length xs.old }
    requires fits { n ≤ 10 ^ 6 }
    requires shift_below_n { t < n }
    requires below_n { BelowFrom n xs.old start }
    ensures { ShiftsBetween xs.old xs.new t n start (length xs.old) }
{
    for i in start..xs.len() {
        xs[i] = sum_mod(xs[i], t, n);
    }
}

/// Shifts a list of residues modulo n: in place of each entry v comes (v + t) modulo n.
pub fn shift_mod(xs: &mut [u32], t: u32, n: u32)
    requires fits { n ≤ 10 ^ 6 }
    requires shift_below_n { t < n }
    requires below_n { All (λ v. v < n) xs.old }
    ensures value { xs.new ≡ shifted xs.old t n }
{
    let start = shift_chunks(xs, t, n);
    shift_from(xs, start, t, n);
}
