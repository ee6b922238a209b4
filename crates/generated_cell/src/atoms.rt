// The lines of the atoms.
ghost use Rattle.std.specs.Prelude.{◌≡◌, ◌<◌, [], ◌∷◌, ◌++◌, OnOk};
ghost use Rattle.generated_cell.specs.GeneratedText.{eighths, moment_text, class_of, node, row_of, plane_of, nodes, text_of};

use io_edge::Bytes;
use plain_text::push_decimal;
use std::alloc::AllocError;

/// Adds i/8 as it stands, not in lowest terms.
fn push_eighths(out: &mut Bytes, i: u32) -> Result<(), AllocError>
    ensures { OnOk result (out.new ≡ out.old ++ eighths i) }
{
    push_decimal(out, i as u128)?;
    out.append(b"/8")
}

/// Adds the moment that a draw gives: none, one unit along the third axis, or one against it.
fn push_moment(out: &mut Bytes, draw: u32) -> Result<(), AllocError>
    ensures { OnOk result (out.new ≡ out.old ++ moment_text draw) }
{
    match draw {
        0 => Ok(()),
        1 => out.append(b" 0 0 1"),
        _ => out.append(b" 0 0 -1"),
    }
}

/// The class of an atom: which of its coordinates in eighths are odd.
fn class_of(i: u32, j: u32, k: u32) -> usize
    ensures value { result ≡ class_of (node i j k) }
    ensures below { result < 8 }
{
    (4 * (i % 2) + 2 * (j % 2) + k % 2) as usize
}

/// Adds the line of the atom at i/8, j/8, k/8.
fn push_atom(out: &mut Bytes, draws: &[u32; 8], i: u32, j: u32, k: u32) -> Result<(), AllocError>
    ensures { OnOk result (out.new ≡ out.old ++ text_of draws.now (node i j k ∷ [])) }
{
    out.append(b"atom A ")?;
    push_eighths(out, i)?;
    out.push(b' ')?;
    push_eighths(out, j)?;
    out.push(b' ')?;
    push_eighths(out, k)?;
    push_moment(out, draws[class_of(i, j, k)])?;
    out.push(b'\n')?;
    Ok(())
}

/// Adds the lines of the atoms of a row: k runs from 0 to 7.
fn push_row(out: &mut Bytes, draws: &[u32; 8], i: u32, j: u32) -> Result<(), AllocError>
    ensures { OnOk result (out.new ≡ out.old ++ text_of draws.now (row_of i j)) }
{
    for k in 0..8u32 {
        push_atom(out, draws, i, j, k)?;
    }
    Ok(())
}

/// Adds the lines of the atoms of a plane: j runs from 0 to 7, and k faster.
fn push_plane(out: &mut Bytes, draws: &[u32; 8], i: u32) -> Result<(), AllocError>
    ensures { OnOk result (out.new ≡ out.old ++ text_of draws.now (plane_of i)) }
{
    for j in 0..8u32 {
        push_row(out, draws, i, j)?;
    }
    Ok(())
}

/// Adds the lines of all atoms: i runs from 0 to 7, j faster, k fastest.
pub(crate) fn push_atoms(out: &mut Bytes, draws: &[u32; 8]) -> Result<(), AllocError>
    ensures { OnOk result (out.new ≡ out.old ++ text_of draws.now nodes) }
{
    for i in 0..8u32 {
        push_plane(out, draws, i)?;
    }
    Ok(())
}
