// The versions of the cell file.

/// The version of a cell file, which its first line tells.
#[derive(Clone, Copy)]
pub enum Version {
    /// `magcell 1`.
    One,

    /// `magcell 2`, which may tell the kind of the moments, and where numbers may be decimals.
    Two,
}
