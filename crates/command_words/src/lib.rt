//! The words of the command line, and what they ask for.
//!
//! The words are those behind the program's name, each a list of bytes. The first names a command; only `symmetry` has
//! options, which may come in any order, each at most once; `hall`, `identify`, `standard`, `compare` and `selfrun` take one
//! further word, and `fill` four. Where words ask for nothing, the first fault from the left is told. `specs/Commands.antt`
//! says what words ask for, `specs/Fillings.antt` how large a moment is, `specs/OptionOrder.antt` that the order of options
//! does not matter.
#![tactic(auto)]

mod command;
mod filling;
mod options;
mod words;

pub use command::{Command, UsageFault, argument, read_words};
pub use filling::Filling;
pub use options::options_come_in_any_order;
pub use words::Words;
