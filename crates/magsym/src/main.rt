//! The program magsym: exact magnetic symmetry of crystals.
//!
//! `main` makes the real input, the store of the system's files, the output and the error stream, calls `run` of magsym_run over them and the words of the command
//! line, and ends with the number of its status.
#![tactic(auto)]

use command_words::Words;
use io_edge::{Bytes, DirShelf, StdSink, StdSource};
use magsym_run::run_counted;
use run_status::Status;
use std::alloc::AllocError;
use std::marker::Brand;
use std::process::ExitCode;
use std::rt::Env;
use std::sync::ledger::Blank;
use std::{env, io};

/// The words behind the program's name; none where they can't be had as text.
fn words_of<R: Env + AllocGlobal>(rt: &R) -> Result<Words, AllocError> {
    let mut words = Words::new(rt.alloc());
    match env::args(rt) {
        Ok(args) => {
            for arg in args.skip(1) {
                words.push(Bytes::copy(rt.alloc(), arg.as_bytes())?)?;
            }
            Ok(words)
        }
        Err(error) if error.kind() == io::ErrorKind::OutOfMemory => Err(AllocError),
        Err(_) => Ok(words),
    }
}

fn main(rt: HostRuntime) -> ExitCode {
    let Ok(words) = words_of(&rt) else {
        return ExitCode::from(Status::Memory.number());
    };
    let mut input = StdSource::new(rt.stdin());
    let mut shelf = DirShelf::new(&rt);
    let mut out = StdSink::new(rt.stdout());
    let mut err = StdSink::new(rt.stderr());
    let blank = Blank::new(1);
    let status = run_counted::<Brand, _, _, _, _>(
        rt.alloc(),
        blank,
        &words,
        &mut input,
        &mut shelf,
        &mut out,
        &mut err,
    );
    ExitCode::from(status.number())
}
