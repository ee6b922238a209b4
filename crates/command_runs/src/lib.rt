//! What the commands of the program do: from the words and the bytes of the input to the bytes of a report, or a refusal.
//!
//! `answer` does what the words of the command line ask, over any source of bytes, store of files and sink; its contract says
//! which report comes for which input, and when each refusal comes. The command is matched first: one that reads no cell reads
//! no input. `specs/Outcomes.antt` says what each status means of the input, the store and the output.
#![tactic(auto)]

mod commands;

pub use commands::answer;
