// The text that a seed generates.
ghost use Rattle.std.specs.Prelude.{◌≡◌, ◌≤◌, length, IfOk};
ghost use Rattle.cell_text.specs.CellFile.{Spells};
ghost use Rattle.generated_cell.specs.GeneratedText.{generated_text};
ghost use Rattle.generated_cell.specs.GeneratedCell.{generated_cell};

use crate::atoms::push_atoms;
use crate::generator::draws;
use io_edge::Bytes;
use std::alloc::{AllocError, Global};

/// The cell file that this seed generates.
///
/// A cubic cell with 512 atoms of one name at i/8, j/8, k/8, where i, j and k run from 0 to 7, k fastest. Atoms with the same
/// coordinates modulo 2 in eighths are of one class, and those of a class have the same moment: none, or one unit along or
/// against the third axis, as the generator draws it. Each seed gives a text that spells a cell. Refuses for want of memory
/// alone.
pub fn generate(alloc: Global, seed: u32) -> Result<Bytes, AllocError>
    ensures value { IfOk result (λ text. text ≡ generated_text seed) }
    ensures spelled { IfOk result (λ text. Spells text (generated_cell seed)) }
    ensures short { IfOk result (λ text. length text ≤ 262144) }
{
    let draws = draws(seed);
    let mut out = Bytes::copy(alloc, b"magcell 1\nmetric 64 64 64 0 0 0\n")?;
    push_atoms(&mut out, &draws)?;
    out.append(b"end\n")?;
    Ok(out)
}
