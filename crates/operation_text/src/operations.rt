// The lines of symmetry operations.
ghost use Rattle.std.specs.Prelude.{◌≡◌, ◌++◌, ◌∷◌, [], pos, OnOk, IfOk};
ghost use Rattle.op_group.specs.Views.{operation_of};
ghost use Rattle.operation_text.specs.OperationText.{plus_text, term_text, terms_text, fraction_text, row_text, sign_text, parts_text, operation_text};
ghost use Rattle.operation_text.specs.Pages.{page_text};

use crate::pages::page;
use crystal_spec::Sign;
use exact_num::{Int, gcd};
use io_edge::Bytes;
use op_group::{Op, OpList};
use plain_text::push_decimal;
use std::alloc::{AllocError, Global};

/// Adds a plus, but not before the first term.
fn push_plus(out: &mut Bytes, is_first: bool) -> Result<(), AllocError>
    ensures { OnOk result (out.new ≡ out.old ++ plus_text is_first) }
{
    if is_first { Ok(()) } else { out.push(b'+') }
}

/// Adds the term of a coefficient and a letter.
fn push_term(
    out: &mut Bytes,
    is_first: bool,
    coefficient: i128,
    letter: u8,
) -> Result<(), AllocError>
    ensures { OnOk result (out.new ≡ out.old ++ term_text is_first coefficient letter) }
{
    match coefficient {
        0 => Ok(()),
        1 => {
            push_plus(out, is_first)?;
            out.push(letter)
        }
        -1 => {
            out.push(b'-')?;
            out.push(letter)
        }
        _ => {
            if coefficient < 0 {
                out.push(b'-')?;
            } else {
                push_plus(out, is_first)?;
            }
            push_decimal(out, coefficient.unsigned_abs())?;
            out.push(letter)
        }
    }
}

/// Adds the terms in x, y and z of these coefficients. Refuses for want of memory alone.
pub fn push_terms(out: &mut Bytes, x: i128, y: i128, z: i128) -> Result<(), AllocError>
    ensures { OnOk result (out.new ≡ out.old ++ terms_text x y z) }
{
    push_term(out, true, x, b'x')?;
    push_term(out, x == 0, y, b'y')?;
    push_term(out, x == 0 && y == 0, z, b'z')
}

/// Adds the translation t/n in lowest terms, behind a plus, where it is not 0.
fn push_fraction(out: &mut Bytes, n: u32, t: u32) -> Result<(), AllocError>
    ensures { OnOk result (out.new ≡ out.old ++ fraction_text n t) }
{
    if t == 0 {
        return Ok(());
    }
    let divisor = gcd(t, n);
    out.push(b'+')?;
    push_decimal(out, (t / divisor) as u128)?;
    out.push(b'/')?;
    push_decimal(out, (n / divisor) as u128)
}

/// Adds the part of a coordinate: the terms of a row of the matrix, and a translation of t/n.
fn push_row(out: &mut Bytes, n: u32, x: Int, y: Int, z: Int, t: u32) -> Result<(), AllocError>
    ensures { OnOk result (out.new ≡ out.old ++ row_text n x y z (pos t)) }
{
    push_terms(out, x.get(), y.get(), z.get())?;
    push_fraction(out, n, t)?;
    Ok(())
}

/// Adds the time sign, `+1` or `-1`. Refuses for want of memory alone.
pub fn push_sign(out: &mut Bytes, sign: Sign) -> Result<(), AllocError>
    ensures { OnOk result (out.new ≡ out.old ++ sign_text sign) }
{
    match sign {
        Sign::Same => out.append(b"+1"),
        Sign::Reversed => out.append(b"-1"),
    }
}

/// Adds the four parts of an operation, joined by commas, with the translation part in units of 1/n. Refuses for want of
/// memory alone.
pub fn push_parts(out: &mut Bytes, n: u32, op: &Op) -> Result<(), AllocError>
    ensures { OnOk result (out.new ≡ out.old ++ parts_text n (operation_of op.now)) }
{
    let w = op.w;
    let [x, y, z] = op.shift;
    push_row(out, n, w.a11, w.a12, w.a13, x)?;
    out.push(b',')?;
    push_row(out, n, w.a21, w.a22, w.a23, y)?;
    out.push(b',')?;
    push_row(out, n, w.a31, w.a32, w.a33, z)?;
    out.push(b',')?;
    push_sign(out, op.sign)?;
    Ok(())
}

/// Adds the line of an operation.
fn push_operation(out: &mut Bytes, n: u32, op: &Op) -> Result<(), AllocError>
    ensures { OnOk result (out.new ≡ out.old ++ operation_text n (operation_of op.now)) }
{
    push_parts(out, n, op)?;
    out.push(b'\n')?;
    Ok(())
}

/// The lines of the operations of a list in order, from the operation behind the first `skip` on, and at most `take` of
/// them where that is given.
///
/// One line an operation, with LF at the end. Refuses for want of memory alone.
pub fn ops_report(
    alloc: Global,
    list: &OpList,
    skip: u64,
    take: Option<u64>,
) -> Result<Bytes, AllocError>
    ensures { IfOk result (λ text. text ≡ page_text list.now skip take) }
{
    let n = list.n();
    let mut out = Bytes::new(alloc);
    for op in page(list.ops(), skip, take) {
        push_operation(&mut out, n, op)?;
    }
    Ok(out)
}
