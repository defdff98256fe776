//! Rearranges a JSON array of numbers. `revbits` puts it into the order of reversed index bits.
//! `revrows W` does the same with its rows of `W` items. `transpose W H` transposes it as a matrix
//! of `H` rows of `W` items.
//!
//! The array is read from standard input. The result is written to standard output, followed by a
//! line feed.
#![tactic(auto)]

mod arrays;
mod fault;
mod program;
#[cfg(test)]
mod tests;
mod watched;
mod words;

use fault::RunFault;
use std::env;
use std::env::{Env, FillError};
use std::io::ErrorKind;
use std::process::ExitCode;
use watched::Watched;

/// The environment of the process, without the program's name, which need not be text. Its argument
/// 0 is the first argument after that name.
#[derive(Clone, Copy)]
struct Unnamed<'a>(&'a HostRuntime);

impl Env for Unnamed<'_> {
    fn arg(&self, i: usize, buf: &mut [u8]) -> Result<usize, FillError> {
        self.0.arg(i.saturating_add(1), buf)
    }

    fn var(&self, name: &str, buf: &mut [u8]) -> Result<usize, FillError> {
        self.0.var(name, buf)
    }

    fn var_at(&self, i: usize, buf: &mut [u8]) -> Result<usize, FillError> {
        self.0.var_at(i, buf)
    }
}

/// The arguments after the program's name. Returns `RunFault::UnknownCommand` if they are not text,
/// and `RunFault::Memory` if memory runs out.
fn given_words(rt: &HostRuntime) -> Result<Vec<String>, RunFault> {
    let given = match env::args(&(Unnamed(rt), rt.alloc())) {
        Ok(given) => given,
        Err(e) if e.kind() == ErrorKind::OutOfMemory => return Err(RunFault::Memory),
        Err(_) => return Err(RunFault::UnknownCommand),
    };
    let mut words = Vec::new(rt.alloc());
    for word in given {
        if words.push(word).is_err() {
            return Err(RunFault::Memory);
        }
    }
    Ok(words)
}

/// Runs the program on the arguments, the standard input and the standard output of the process.
fn run_here(rt: &HostRuntime) -> Result<(), RunFault> {
    let words = given_words(rt)?;
    let mut reader = Watched::new(rt.stdin());
    let mut writer = Watched::new(rt.stdout());
    program::run(rt.alloc(), words.as_slice(), &mut reader, &mut writer)
}

fn main(rt: HostRuntime) -> ExitCode {
    match run_here(&rt) {
        Ok(()) => ExitCode::SUCCESS,
        Err(fault) => {
            let status = fault.status();
            let _ = eprintln!(rt; "{fault}");
            ExitCode::from(status)
        }
    }
}
