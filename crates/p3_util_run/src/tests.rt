//! The worked rows of the program, and runs over readers and writers that pass on one byte a call,
//! fail, or take no byte.

use crate::fault::RunFault;
use crate::program::run;
use crate::watched::Watched;
use std::alloc::{AllocError, Global};
use std::fmt::Debug;
use std::io::{ErrorKind, Read, Write};
use std::process::Abort;
use std::{io, str};

/// A reader that yields one byte a call. After `good_calls` of them, one call fails, or yields no
/// byte if there is no `failure`. Then `good_calls` is `u8::MAX`.
#[derive(Drop)]
struct ByteReader<'a> {
    rest: &'a [u8],
    good_calls: u8,
    failure: Option<ErrorKind>,
}

impl Read for ByteReader<'_> {
    fn read(&mut self, buf: &mut [u8]) -> io::Result<usize> {
        if self.good_calls == 0 {
            self.good_calls = u8::MAX;
            return match self.failure {
                Some(kind) => Err(io::Error::from(kind)),
                None => Ok(0),
            };
        }
        self.good_calls -= 1;
        match (self.rest, buf) {
            ([first, rest @ ..], [to, ..]) => {
                *to = *first;
                self.rest = rest;
                Ok(1)
            }
            _ => Ok(0),
        }
    }
}

/// A writer that takes one byte a call. After `good_calls` calls, one fails, or takes no byte if
/// there is no `failure`. Then `good_calls` is `u8::MAX`. A flush is a call too.
#[derive(Drop)]
struct ByteWriter {
    taken: Vec<u8>,
    good_calls: u8,
    failure: Option<ErrorKind>,
}

impl Write for ByteWriter {
    fn write(&mut self, buf: &[u8]) -> io::Result<usize> {
        if self.good_calls == 0 {
            self.good_calls = u8::MAX;
            return match self.failure {
                Some(kind) => Err(io::Error::from(kind)),
                None => Ok(0),
            };
        }
        self.good_calls -= 1;
        match buf {
            [first, ..] => {
                self.taken.push(*first)?;
                Ok(1)
            }
            [] => Ok(0),
        }
    }

    fn flush(&mut self) -> io::Result<()> {
        if self.good_calls == 0 {
            self.good_calls = u8::MAX;
            return Err(io::Error::from(self.failure.unwrap_or(ErrorKind::Other)));
        }
        self.good_calls -= 1;
        Ok(())
    }
}

/// Arguments, the input, what is printed, and the status.
type Row = (&'static [&'static str], &'static [u8], &'static str, u8);

fn owned(alloc: Global, texts: &[&str]) -> Result<Vec<String>, AllocError> {
    let mut words = Vec::new(alloc);
    for text in texts {
        words.push(String::from_str(alloc, text)?)?;
    }
    Ok(words)
}

/// The text of these bytes, to be printed.
fn shown(bytes: &[u8]) -> &str {
    str::from_utf8(bytes).unwrap_or("bytes that are no UTF-8")
}

/// Asserts that `got` is `wanted`, in the run of this name.
fn same<T: PartialEq + Debug>(rt: &impl Abort, name: &impl Debug, got: &T, wanted: &T) {
    assert_eq!(rt; *got, *wanted, "in the run {name:?}");
}

/// Asserts that a run wrote the output of its row, or that it wrote nothing and its fault has this
/// text and status.
fn check_printed(
    rt: &impl Abort,
    alloc: Global,
    row: &Row,
    ended: &Result<(), RunFault>,
    written: &[u8],
) -> Result<(), AllocError> {
    let (words, input, output, status) = *row;
    let (got, text) = match ended {
        Ok(()) => (0, String::from_str(alloc, shown(written))?),
        Err(fault) => (fault.status(), fault.to_string(alloc)?),
    };
    let is_right = got == 0 || written.is_empty();
    same(
        rt,
        &(words, shown(input)),
        &(got, text.as_str(), is_right),
        &(status, output, true),
    );
    Ok(())
}

/// A reader of `rest`, with the other fields given.
fn reader(rest: &[u8], good_calls: u8, failure: Option<ErrorKind>) -> Watched<ByteReader<'_>> {
    Watched::new(ByteReader {
        rest,
        good_calls,
        failure,
    })
}

/// A writer that has taken nothing yet.
fn writer(alloc: Global, good_calls: u8, failure: Option<ErrorKind>) -> Watched<ByteWriter> {
    Watched::new(ByteWriter {
        taken: Vec::new(alloc),
        good_calls,
        failure,
    })
}

/// Asserts what is printed for a row, from memory and by one byte a call.
fn check_row(rt: &impl Abort, alloc: Global, row: &Row) -> Result<(), AllocError> {
    let (words, input, _, _) = *row;
    let words = owned(alloc, words)?;
    let mut output = Watched::new(Vec::new(alloc));
    let result = run(alloc, &words, &mut Watched::new(input), &mut output);
    check_printed(rt, alloc, row, &result, &output.into_inner())?;

    let mut output = writer(alloc, u8::MAX, None);
    let result = run(
        alloc,
        &words,
        &mut reader(input, u8::MAX, None),
        &mut output,
    );
    check_printed(rt, alloc, row, &result, &output.into_inner().taken)
}

const NOT_AN_ARRAY: &str = "error: input is not a JSON array of u64";

const UNKNOWN: &str = "error: unknown command";

/// Reversals, reversals of rows, and transposes.
const ROWS: [Row; 25] = [
    (&["revbits"], b"[]", "[]\n", 0),
    (&["revbits"], b"[7]", "[7]\n", 0),
    (&["revbits"], b" [ 1 , 2 ] ", "[1,2]\n", 0),
    (&["revbits"], b"[0,1,2,3,4,5,6,7]", "[0,4,2,6,1,5,3,7]\n", 0),
    (
        &["revbits"],
        b"[18446744073709551615]",
        "[18446744073709551615]\n",
        0,
    ),
    (
        &["revbits"],
        b"[1,2,3]",
        "error: length 3 is neither zero nor a power of two",
        2,
    ),
    (
        &["revrows", "2"],
        b"[0,1,2,3,4,5,6,7]",
        "[0,1,4,5,2,3,6,7]\n",
        0,
    ),
    (
        &["revrows", "1"],
        b"[0,1,2,3,4,5,6,7]",
        "[0,4,2,6,1,5,3,7]\n",
        0,
    ),
    (
        &["revrows", "8"],
        b"[0,1,2,3,4,5,6,7]",
        "[0,1,2,3,4,5,6,7]\n",
        0,
    ),
    (
        &["revrows", "003"],
        b"[0,1,2,3,4,5,6,7,8,9,10,11]",
        "[0,1,2,6,7,8,3,4,5,9,10,11]\n",
        0,
    ),
    (&["revrows", "0"], b"[]", "[]\n", 0),
    (&["revrows", "18446744073709551615"], b"[]", "[]\n", 0),
    (
        &["revrows", "0"],
        b"[1]",
        "error: length 1 is not 0 times zero or a power of two",
        2,
    ),
    (
        &["revrows", "3"],
        b"[1,2,3,4]",
        "error: length 4 is not 3 times zero or a power of two",
        2,
    ),
    (
        &["revrows", "3"],
        b"[1,2,3,4,5,6,7,8,9]",
        "error: length 9 is not 3 times zero or a power of two",
        2,
    ),
    (
        &["revrows", "18446744073709551615"],
        b"[0,1,2,3,4,5,6,7]",
        "error: length 8 is not 18446744073709551615 times zero or a power of two",
        2,
    ),
    (&["revrows", "1"], b"[1,", NOT_AN_ARRAY, 2),
    (
        &["transpose", "3", "2"],
        b"[1,2,3,4,5,6]",
        "[1,4,2,5,3,6]\n",
        0,
    ),
    (&["transpose", "0", "5"], b"[]", "[]\n", 0),
    (
        &["transpose", "1", "6"],
        b"[1,2,3,4,5,6]",
        "[1,2,3,4,5,6]\n",
        0,
    ),
    (
        &["transpose", "007", "1"],
        b"[1,2,3,4,5,6,7]",
        "[1,2,3,4,5,6,7]\n",
        0,
    ),
    (
        &["transpose", "2", "2"],
        b"[1]",
        "error: 2 by 2 is not the length 1",
        2,
    ),
    (
        &["transpose", "4294967296", "4294967296"],
        b"[]",
        "error: 4294967296 by 4294967296 is not the length 0",
        2,
    ),
    (
        &["transpose", "18446744073709551615", "2"],
        b"[]",
        "error: 18446744073709551615 by 2 is not the length 0",
        2,
    ),
    (&["transpose", "1", "1"], b"[1.0]", NOT_AN_ARRAY, 2),
];

/// Arguments that name no command.
const NO_COMMANDS: [&[&str]; 15] = [
    &["revrows", "x"],
    &["revrows", ""],
    &["revrows", "18446744073709551616"],
    &["transpose", "2", "x"],
    &["transpose", "+1", "1"],
    &["transpose", "1", ""],
    &["transpose", "18446744073709551616", "1"],
    &[],
    &["revbits", "x"],
    &["revrows"],
    &["revrows", "1", "1"],
    &["Revbits"],
    &["transpose", "1"],
    &["revbits", "1", "1"],
    &["transpose", "1", "1", "1"],
];

/// Inputs that are no array of numbers.
const NO_ARRAYS: [&[u8]; 15] = [
    b"",
    b"[1,2",
    b"[-1]",
    b"[1.5]",
    b"[1.0]",
    b"[[1]]",
    b"[1,2]x",
    b"{\"a\":1}",
    b"[1,\"2\"]",
    b"[1,]",
    b"1",
    b"[18446744073709551616]",
    b"[true]",
    &[0xff],
    &[b'['; 200],
];

/// A `run` that always returns `Memory` fails here.
#[test]
fn rows(rt: HostRuntime) -> Result<(), AllocError> {
    for row in &ROWS {
        check_row(&rt, rt.alloc(), row)?;
    }
    Ok(())
}

#[test]
fn unknown_commands(rt: HostRuntime) -> Result<(), AllocError> {
    for &words in &NO_COMMANDS {
        check_row(&rt, rt.alloc(), &(words, b"[]", UNKNOWN, 2))?;
    }
    Ok(())
}

#[test]
fn no_arrays(rt: HostRuntime) -> Result<(), AllocError> {
    for &input in &NO_ARRAYS {
        check_row(&rt, rt.alloc(), &(&["revbits"], input, NOT_AN_ARRAY, 2))?;
    }
    Ok(())
}

/// A run on a list of two numbers that ends with a fault: what its reader and its writer do, the
/// fault, the numbers of failures, and the number of bytes that were written.
struct Failing {
    good_reads: u8,
    good_writes: u8,
    failure: Option<ErrorKind>,
    fault: RunFault,
    failures: (u64, u64),
    written: usize,
}

/// Asserts that the first failure ends a run, is counted once and is the last call, even if the
/// next call would succeed.
fn check_failure(rt: &impl Abort, alloc: Global, failing: Failing) -> Result<(), AllocError> {
    let Failing {
        good_reads,
        good_writes,
        failure,
        fault,
        failures,
        written,
    } = failing;
    let mut reader = reader(b"[1,2]", good_reads, failure);
    let mut writer = writer(alloc, good_writes, failure);
    let words = owned(alloc, &["revbits"])?;
    let result = run(alloc, &words, &mut reader, &mut writer);
    let counted = (reader.failures(), writer.failures());
    let (reader, writer) = (reader.into_inner(), writer.into_inner());
    let has_failed = (reader.good_calls == u8::MAX, writer.good_calls == u8::MAX);
    same(
        rt,
        &(good_reads, good_writes),
        &(result, counted, has_failed, writer.taken.len()),
        &(Err(fault), failures, (failures.0 == 1, true), written),
    );
    Ok(())
}

/// A `Watched` that calls again after an error, counted or not, or that fails without a call, fails
/// here and in the next test.
#[test]
fn failures_of_reads(rt: HostRuntime) -> Result<(), AllocError> {
    for kind in [ErrorKind::Other, ErrorKind::Interrupted] {
        for calls in 0..6 {
            let failing = Failing {
                good_reads: calls,
                good_writes: u8::MAX,
                failure: Some(kind),
                fault: RunFault::Read,
                failures: (1, 0),
                written: 0,
            };
            check_failure(&rt, rt.alloc(), failing)?;
        }
    }
    Ok(())
}

#[test]
fn failures_of_writes(rt: HostRuntime) -> Result<(), AllocError> {
    for failure in [Some(ErrorKind::Other), Some(ErrorKind::Interrupted), None] {
        for calls in 0..7 {
            let failing = Failing {
                good_reads: u8::MAX,
                good_writes: calls,
                failure,
                fault: RunFault::Write,
                failures: (0, 1),
                written: usize::from(calls),
            };
            check_failure(&rt, rt.alloc(), failing)?;
        }
    }
    Ok(())
}
