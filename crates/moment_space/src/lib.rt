//! Which magnetic moments a site of a crystal allows, and cells that are filled with an allowed moment.
//!
//! A moment is allowed where each operation of the site-symmetry group carries it to itself. The projector onto these moments
//! is the mean of the matrices by which the operations act on moments, so it has fractions as entries, and acts from the left
//! on columns. Moments are integers in units of 1/k along the axes, those of a scalar kind triples (s, 0, 0); positions and
//! translation parts are in units of 1/n. The definitions are those of crystal_spec, op_group and site_orbits, and
//! specs/Projectors.antt and specs/Filled.antt.
#![tactic(auto)]

mod allowed;
mod average;
mod filled;

pub use allowed::Allowed;
pub use average::projector;
pub use filled::fill;
