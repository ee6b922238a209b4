// The text of the summary.
ghost use Rattle.std.specs.Prelude.{◌≡◌, ◌++◌, IfOk, OnOk};
ghost use Rattle.summary_text.specs.SummaryText.{line_text, summary_text};

use io_edge::Bytes;
use plain_text::push_decimal;
use std::alloc::{AllocError, Global};

/// Adds a line: the word, a space and the number in decimal.
fn push_line(out: &mut Bytes, word: &[u8], number: u64) -> Result<(), AllocError>
    ensures { OnOk result (out.new ≡ out.old ++ line_text word.now number) }
{
    out.append(word)?;
    out.push(b' ')?;
    push_decimal(out, number as u128)?;
    out.push(b'\n')
}

/// The summary of what is found of a cell: five lines, each a word, a space and a number in decimal.
///
/// The lines are `atoms`, how many atoms the cell has; `index`, how many primitive cells its volume holds; `order`, how many
/// symmetry operations the primitive cell has; `type`, the magnetic type, 1 to 4; `cell_order`, how many symmetry operations
/// the cell itself has. Refuses for want of memory alone.
pub fn summary_report(
    alloc: Global,
    atoms: u64,
    index: u64,
    order: u64,
    kind: u8,
    cell_order: u64,
) -> Result<Bytes, AllocError>
    ensures value { IfOk result (λ text. text ≡ summary_text atoms index order kind cell_order) }
{
    let mut out = Bytes::new(alloc);
    push_line(&mut out, b"atoms", atoms)?;
    push_line(&mut out, b"index", index)?;
    push_line(&mut out, b"order", order)?;
    push_line(&mut out, b"type", kind as u64)?;
    push_line(&mut out, b"cell_order", cell_order)?;
    Ok(out)
}
