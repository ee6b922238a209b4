// A text read line by line.
ghost use Rattle.std.specs.Prelude.{◌≡◌, ◌<◌, ◌^◌, ◌+◌, length, MatchResult, IfOk, IfErr, None, true};
ghost use Rattle.crystal.specs.Numbering.{AreByFirstUse};
ghost use Rattle.crystal.specs.Sizes.{HasSizesOfRead};
ghost use Rattle.plain_text.specs.Text.{lines};
ghost use Rattle.cell_text.specs.Entries.{contents};
ghost use Rattle.cell_text.specs.Rules.{cell_fault, Tells};
ghost use Rattle.cell_text.specs.CellFile.{Spells};

use crate::fault::{CellError, CellFault};
use crate::reader::Reader;
use crystal::Cell;
use io_edge::Bytes;
use plain_text::first_line;
use std::alloc::Global;

/// The lines of the text, unless one breaks a rule.
fn read_lines(alloc: Global, text: &[u8]) -> Result<Reader, CellError>
    requires { length text.now + 1 < 2 ^ 32 }
    ensures { MatchResult result (λ r. (cell_fault text.now ≡ None) × (r.held ≡ contents (lines text.now)) × (r.held.ended ≡ true)) (λ e. Tells (cell_fault text.now) e) }
{
    let mut reader = Reader::new(alloc);
    let mut rest = text;
    let mut number: u32 = 1;
    while !rest.is_empty() {
        let (line, after) = first_line(rest);
        if let Err(error) = reader.read(alloc, line) {
            return Err(error.at(number));
        }
        rest = after;
        number += 1;
    }
    if number == 1 {
        return Err(CellError::Refused(1, CellFault::NotMagcell));
    }
    if !reader.is_ended() {
        return Err(CellError::Refused(number, CellFault::NoEnd));
    }
    Ok(reader)
}

/// The cell that the text of a cell file `magcell 1` spells.
///
/// Its species are numbered in the order of their first use; its scale, the entries of its metric tensor and its moments, in
/// units of 1/k, have sizes up to 10^9. Asks that the text has fewer than 2^32 - 1 bytes. `Refused`
/// names the first line that breaks a rule, counted from 1, and the first rule that it breaks; `Memory` comes for want of
/// memory alone.
pub fn read_cell(alloc: Global, text: &Bytes) -> Result<Cell, CellError>
    requires { length text.now + 1 < 2 ^ 32 }
    ensures value { IfOk result (Spells text.now) }
    ensures numbered { IfOk result (λ c. AreByFirstUse 0 (length c.names) c.atoms) }
    ensures sizes { IfOk result HasSizesOfRead }
    ensures refused { IfErr result (Tells (cell_fault text.now)) }
{
    let reader = read_lines(alloc, text.as_slice())?;
    let cell = reader.finish(alloc)?;
    Ok(cell)
}
