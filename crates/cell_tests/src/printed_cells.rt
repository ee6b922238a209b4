// Cells and their printed text, which was written by hand.
use cell_print::print_cell;
use cell_text::read_cell;
use io_edge::Bytes;
use std::alloc::Global;

/// A text, and the cell file of the cell that it spells.
struct Row(&'static [u8], &'static [u8]);

/// Numbers in lowest terms and others, of cells at right angles and an oblique one, with moments, without, and with both; and
/// moments of each kind, with the kind told, by default, and behind the metric line.
#[rattlefmt::skip]
const CELLS: &[Row] = &[
    Row(b"magcell 1\nmetric 1 1 4 0 0 0\natom A 0 0 0 0 0 1\natom A 0 0 1/2 0 0 -1\nend\n",
        b"magcell 1\nmetric 1 1 4 0 0 0\natom A 0 0 0 0 0 1\natom A 0 0 1/2 0 0 -1\nend\n"),
    Row(b"magcell 1\nmetric 4/4 2/2 3/1 0 0 0\natom A 0 0 0\nend\n",
        b"magcell 1\nmetric 1 1 3 0 0 0\natom A 0 0 0\nend\n"),
    Row(b"magcell 1\r\n# MnF2\r\natom Mn 0 0 0 0 0 2/2\r\natom Mn 2/4 1/2 3/6 0 0 -1\r\natom F -61/200 1 61/200 0/7 0 0\r\n\
metric 2375/100 2375/100 1096/100 0 0 0\r\nend",
        b"magcell 1\nmetric 95/4 95/4 274/25 0 0 0\natom Mn 0 0 0 0 0 1\natom Mn 1/2 1/2 1/2 0 0 -1\natom F 139/200 0 61/200\nend\n"),
    Row(b"magcell 1\nmetric 20 30 45 -4/3 0/5 -10\natom Fe_1 0 0 0 -3/2 4/6 0\natom O 1/3 2/3 5/6\natom Fe_1 1/2 0 0 0 -12 0\nend\n",
        b"magcell 1\nmetric 20 30 45 -4/3 0 -10\natom Fe_1 0 0 0 -3/2 2/3 0\natom O 1/3 2/3 5/6\natom Fe_1 1/2 0 0 0 -12 0\nend\n"),
    Row(b"magcell 1\nmetric 4 1 1 0 0 0\natom A 0 0 0 0 0 1\natom A 1/2 0 0 0 0 1\nend\n",
        b"magcell 1\nmetric 4 1 1 0 0 0\natom A 0 0 0 0 0 1\natom A 1/2 0 0 0 0 1\nend\n"),
    Row(b"magcell 1\nmetric 4 1 1 0 0 0\natom A 0 0 0 0 0 1\natom A 1/2 0 0 0 0 -1\nend\n",
        b"magcell 1\nmetric 4 1 1 0 0 0\natom A 0 0 0 0 0 1\natom A 1/2 0 0 0 0 -1\nend\n"),
    Row(b"magcell 1\nmetric 4 1 1 0 0 0\natom A 0 0 0\natom A 1/2 0 0\nend\n",
        b"magcell 1\nmetric 4 1 1 0 0 0\natom A 0 0 0\natom A 1/2 0 0\nend\n"),
    Row(b"magcell 2\nkind vector\nmetric 1 1 1 0 0 0\natom A 0 0 0 0 0 1\nend\n",
        b"magcell 1\nmetric 1 1 1 0 0 0\natom A 0 0 0 0 0 1\nend\n"),
    Row(b"magcell 2\nmetric 1 1 4 0 0 0\nkind vector plain\natom A 0 0 0 1/2 0 -1\natom A 0 0 1/2 0 0 0\nend\n",
        b"magcell 2\nkind vector plain\nmetric 1 1 4 0 0 0\natom A 0 0 0 1/2 0 -1\natom A 0 0 1/2\nend\n"),
    Row(b"magcell 2\nkind scalar axial\nmetric 1 1 1 0 0 0\natom A 0 0 0 1\nend\n",
        b"magcell 2\nkind scalar axial\nmetric 1 1 1 0 0 0\natom A 0 0 0 1\nend\n"),
    Row(b"magcell 2\nkind scalar\nmetric 1 1 4 0 0 0\natom A 0 0 0 6/4\natom A 0 0 1/2 -4/2\natom B 1/2 1/2 0 0/5\natom B 1/2 1/2 1/2\nend\n",
        b"magcell 2\nkind scalar plain\nmetric 1 1 4 0 0 0\natom A 0 0 0 3/2\natom A 0 0 1/2 -2\natom B 1/2 1/2 0\natom B 1/2 1/2 1/2\nend\n"),
];

/// The text that is printed of the cell that a short text spells.
fn printed(alloc: Global, text: &[u8]) -> Option<Bytes> {
    if text.len() > 100_000 {
        return None;
    }
    let bytes = Bytes::copy(alloc, text).ok()?;
    let cell = read_cell(alloc, &bytes).ok()?;
    print_cell(alloc, &cell).ok()
}

/// Whether this is the text.
fn prints(alloc: Global, text: &[u8], wanted: &[u8]) -> bool {
    match printed(alloc, text) {
        Some(bytes) => bytes.as_slice() == wanted,
        None => false,
    }
}

/// The number, from 0, of the first row whose text is not printed so, once and again; the number of rows where there is none.
fn first_wrong(alloc: Global, rows: &[Row]) -> usize {
    for i in 0..rows.len() {
        let Row(text, wanted) = &rows[i];
        if !prints(alloc, text, wanted) || !prints(alloc, wanted, wanted) {
            return i;
        }
    }
    rows.len()
}

#[test]
fn cells_are_printed_in_lowest_terms_by_kind(rt: HostRuntime) {
    assert_eq!(rt; first_wrong(rt.alloc(), CELLS), CELLS.len());
}
