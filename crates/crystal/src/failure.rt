/// On what the last map failed that did not keep a crystal: the number of an atom without an image, and the position at which
/// its image was missed.
///
/// A defect of a regular arrangement is what most maps fail on, so the next test looks there first. Any value will do: an atom
/// that is named here is looked at, and nothing is concluded from it otherwise.
#[derive(Clone, Copy, Debug)]
pub struct Failure {
    pub(crate) atom: usize,
    pub(crate) place: [u32; 3],
}

impl Failure {
    /// No map has failed yet: the first atom, and the origin.
    pub fn none() -> Failure {
        Failure {
            atom: 0,
            place: [0; 3],
        }
    }
}
