ghost use Rattle.std.specs.Prelude.{◌≡◌, ◌<◌, ◌^◌, IfOk};
ghost use Rattle.matrix3.specs.Bounds.{EntriesAtMost, CoordinatesAtMost};
ghost use Rattle.lattice_iso.specs.Columns.{entry_at, candidate, scalar_product, ListsOfLength};

use exact_num::Int;
use matrix3::{Mat3, Vec3};
use std::alloc::{AllocError, Global};

/// How many columns have entries -1, 0 and 1: 3 to the power of 3.
pub const CANDIDATES: u32 = 27;

/// The entry whose digit in the base 3 stands at this power of 3, less one.
fn entry(number: u32, power: u32) -> Int
    requires { 0 < power }
    ensures { result ≡ entry_at number power }
{
    Int::new((number / power % 3) as i128 - 1).unwrap()
}

/// The column of entries -1, 0 and 1 of this number, of which the base 3 has a digit an entry.
pub fn candidate(number: u32) -> Vec3<Int>
    ensures value { result ≡ candidate number }
    ensures small { CoordinatesAtMost 1 result }
{
    Vec3 {
        x: entry(number, 9),
        y: entry(number, 3),
        z: entry(number, 1),
    }
}

/// The scalar product of two vectors, given by their coordinates along the axes of the metric tensor.
///
/// Asks for coordinates -1, 0 and 1, and entries of the metric tensor up to 10^34.
pub fn product(g: &Mat3<Int>, u: &Vec3<Int>, v: &Vec3<Int>) -> Int
    requires metric { EntriesAtMost (10 ^ 34) g.now }
    requires first { CoordinatesAtMost 1 u.now }
    requires second { CoordinatesAtMost 1 v.now }
    ensures { result ≡ scalar_product g.now u.now v.now }
{
    let u = *u;
    let w = g.apply(v);
    u.x * w.x + u.y * w.y + u.z * w.z
}

/// The columns with entries -1, 0 and 1 of this squared length.
pub(crate) fn columns_of_length(
    alloc: Global,
    g: &Mat3<Int>,
    length: Int,
) -> Result<Vec<Vec3<Int>>, AllocError>
    requires metric { EntriesAtMost (10 ^ 34) g.now }
    ensures exact { IfOk result (λ columns. ListsOfLength g.now length columns.items) }
{
    let mut columns = Vec::new(alloc);
    for number in 0..CANDIDATES {
        let column = candidate(number);
        if product(g, &column, &column) == length {
            columns.push(column)?;
        }
    }
    Ok(columns)
}
