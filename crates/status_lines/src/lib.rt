//! The line on the error stream that tells how a run ended.
//!
//! A status is told by one line, which begins with `magsym: ` and ends with LF; a whole report by none. The line goes out
//! piece by piece, without taking memory, and a failed write leaves out the rest. `specs/Statuses.antt` has the lines,
//! `specs/Telling.antt` what the error stream gets.
#![tactic(auto)]

mod telling;

pub use telling::tell;
