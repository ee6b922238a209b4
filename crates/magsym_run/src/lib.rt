//! The program over any streams: from the words and the bytes of its input to the bytes of a report, or a line on why not.
//!
//! `run` does what the words of the command line ask (`answer` of command_runs) and tells a run without a whole report by one
//! line on the error stream. Its contract says which report comes for which input, and when each refusal comes;
//! `specs/Completeness.antt` says when the whole report has to come.
#![tactic(auto)]

mod program;

pub use program::{run, run_counted};

#[cfg(test)]
mod tests;
