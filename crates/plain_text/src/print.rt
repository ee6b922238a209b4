// Numbers printed, in lowest terms.
ghost use Rattle.std.specs.Prelude.{decimal, ◌≡◌, ◌++◌, ◌≤◌, OnOk};
ghost use Rattle.plain_text.specs.NumberText.{denominator_text, size_text, number_text, numbers_text};

use exact_num::gcd;
use io_edge::Bytes;
use itoa::Buffer;
use std::alloc::AllocError;

/// Adds a number in decimal. Refuses for want of memory alone.
pub fn push_decimal(out: &mut Bytes, number: u128) -> Result<(), AllocError>
    ensures { OnOk result (out.new ≡ out.old ++ decimal number) }
{
    let mut buffer = Buffer::new();
    out.append(buffer.format(number).as_bytes())
}

/// Adds a slash and the denominator, where it is not 1.
fn push_denominator(out: &mut Bytes, denominator: u128) -> Result<(), AllocError>
    ensures { OnOk result (out.new ≡ out.old ++ denominator_text denominator) }
{
    if denominator < 2 {
        return Ok(());
    }
    out.push(b'/')?;
    push_decimal(out, denominator)
}

/// Adds a/b in lowest terms.
fn push_size(out: &mut Bytes, a: u128, b: u128) -> Result<(), AllocError>
    requires { 1 ≤ b }
    ensures { OnOk result (out.new ≡ out.old ++ size_text a b) }
{
    let divisor = gcd(a, b);
    push_decimal(out, a / divisor)?;
    push_denominator(out, b / divisor)
}

/// Adds z/d in lowest terms, with its sign where it is negative.
///
/// Asks that d is at least 1. Refuses for want of memory alone; what is added then is left open.
pub fn push_number(out: &mut Bytes, z: i128, d: u128) -> Result<(), AllocError>
    requires { 1 ≤ d }
    ensures { OnOk result (out.new ≡ out.old ++ number_text z d) }
{
    let size = z.unsigned_abs();
    if z < 0 {
        out.push(b'-')?;
        push_size(out, size, d)
    } else {
        push_size(out, size, d)
    }
}

/// Adds the numbers in units of 1/d, a space before each.
///
/// Asks that d is at least 1. Refuses for want of memory alone; what is added then is left open.
pub fn push_numbers(out: &mut Bytes, numbers: &[i128], d: u128) -> Result<(), AllocError>
    requires { 1 ≤ d }
    ensures { OnOk result (out.new ≡ out.old ++ numbers_text d numbers.now) }
{
    for number in numbers {
        out.push(b' ')?;
        push_number(out, *number, d)?;
    }
    Ok(())
}
