//! Why the program stops without a result.

ghost use Rattle.std.specs.Prelude.{◌≡◌, ◌≢◌, Some};
ghost use Rattle.p3_util_run.specs.Texts.{fault_text};

use std::fmt;

/// The reason why a run of the program ended without a result.
#[derive(Debug, PartialEq, Eq, Drop)]
pub enum RunFault {
    /// The arguments name no command.
    UnknownCommand,
    /// The reader failed.
    Read,
    /// The input is not a JSON array of unsigned integers of 64 bits.
    NotAnArray,
    /// The array's length `len` is neither zero nor a power of two.
    BadLength {
        len: usize,
    },
    /// `width` times `height` is not the array's length `len`.
    NotTheLength {
        width: usize,
        height: usize,
        len: usize,
    },
    /// Memory ran out.
    Memory,
    /// The writer failed, or took none of the bytes that it was given.
    Write,
    /// The array's length `len` is not `width` times zero or a power of two.
    BadRows {
        width: usize,
        len: usize,
    },
}

impl RunFault {
    /// The exit status of the program.
    pub fn status(&self) -> u8
        ensures memory { self.now ≡ RunFault.Memory → result ≡ 3 }
        ensures other { self.now ≢ RunFault.Memory → result ≡ 2 }
    {
        match self {
            RunFault::Memory => 3,
            _ => 2,
        }
    }
}

impl fmt::Display for RunFault {
    ghost output = { λ fault. Some (fault_text fault) };

    fn fmt<W: fmt::Write>(&self, f: &mut fmt::Formatter<W>) -> fmt::Result {
        match self {
            RunFault::UnknownCommand => f.write_str("error: unknown command"),
            RunFault::Read => f.write_str("error: input cannot be read"),
            RunFault::NotAnArray => f.write_str("error: input is not a JSON array of u64"),
            RunFault::BadLength { len } => {
                write!(f, "error: length {len} is neither zero nor a power of two")
            }
            RunFault::NotTheLength { width, height, len } => {
                write!(f, "error: {width} by {height} is not the length {len}")
            }
            RunFault::Memory => f.write_str("error: out of memory"),
            RunFault::Write => f.write_str("error: output cannot be written"),
            RunFault::BadRows { width, len } => {
                write!(
                    f,
                    "error: length {len} is not {width} times zero or a power of two"
                )
            }
        }
    }
}
