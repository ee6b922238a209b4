//! Bytes from readers, from named files and to writers, with a count of the failures on each side.
//!
//! A source or a sink has a ghost state that contracts cite: how often it has failed, and, where
//! it tells them, the bytes that are left or held. A failed call is answered only where that count
//! rose, so no caller can blame a device that worked. Each says whether its count has a highest
//! number, at which it stays; a sink says also whether the last write failed.
//!
//! A store of named files has such a state too: its files, where it tells them, and the picked one as a
//! source.
//!
//! Definitions: `specs/States` (what a source, a sink or a store tells), `specs/Causes` (when a call may
//! fail), `specs/Reading` and `specs/Writing` (what was taken and what went out), `specs/Shelves`
//! (what picking and reading a file say), `specs/InMemory`
//! (what the objects in memory do at each call), `specs/Adapters` (what the adapters over std hold).
#![tactic(auto)]

mod bytes;
mod calls;
mod dir_shelf;
mod file;
mod mem_shelf;
mod mem_sink;
mod mem_source;
mod piece;
mod shelf;
mod sink;
mod source;
mod std_sink;
mod std_source;

pub use bytes::Bytes;
pub use dir_shelf::DirShelf;
pub use mem_shelf::MemShelf;
pub use mem_sink::MemSink;
pub use mem_source::MemSource;
pub use shelf::{Shelf, read_file};
pub use sink::{OutFault, Sink, write_whole};
pub use source::{Failed, InFault, Source, read_to_end};
pub use std_sink::StdSink;
pub use std_source::StdSource;
