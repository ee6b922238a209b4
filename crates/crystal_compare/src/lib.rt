//! All isometric maps that carry one crystal onto another, each once and in order.
//!
//! Both crystals are given by their primitive cells, in Niggli-reduced bases. A map takes the point of coordinates x in the
//! cell of the first to W x + w in the cell of the second, and reverses time or not; species are matched by their names. The
//! definitions stand in `specs/Maps.antt`, and those of maps with fractions in W in `specs/AnyMaps.antt`.
#![tactic(auto)]

mod atoms;
mod columns;
mod images;
mod list;
mod map;
mod matrices;
mod search;
mod whole_map;

pub use list::{MapList, all_maps};
pub use map::CrystalMap;
