use exact_num::Int;
use matrix3::Vec3;

/// An atom of a cell: the number of its species, its position in units of 1/n, its moment in units of 1/k.
#[derive(Clone, Copy, Debug)]
pub struct Atom {
    pub species: u16,
    pub place: [u32; 3],
    pub moment: Vec3<Int>,
}
