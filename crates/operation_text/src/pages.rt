// Pages of a list of operations, and the law that they go on where others end.

ghost use Rattle.std.specs.Prelude.{◌≡◌, take, drop};
ghost use Rattle.operation_text.specs.Pages.{page, PagesResume, PageIsWhole};

use op_group::Op;

/// The first operations, at most so many, and those behind them.
fn at_most(ops: &[Op], most: u64) -> (&[Op], &[Op])
    ensures front { result.0.now ≡ take most ops.now }
    ensures rest { result.1.now ≡ drop most ops.now }
{
    let count = ops.len();
    if most < count as u64 {
        ops.split_at(most as usize)
    } else {
        ops.split_at(count)
    }
}

/// The operations behind the first `skip`, and of these at most `take` where that is given.
pub(crate) fn page(ops: &[Op], skip: u64, take: Option<u64>) -> &[Op]
    ensures { result.now ≡ page skip take ops.now }
{
    let (_, rest) = at_most(ops, skip);
    match take {
        None => rest,
        Some(most) => at_most(rest, most).0,
    }
}

/// Pages of a report go on where others end: the page of K and M operations, followed by that of K + M and N, is the page
/// of K and M + N, and the page of K = 0 without an end is the whole report.
pub fn pages_resume()
    ensures resume { PagesResume }
    ensures whole { PageIsWhole }
{}
