//! The program, for any reader and any writer.

ghost use Rattle.std.specs.Prelude.{◌≡◌, ◌≢◌, ◌<◌, ◌*◌, ◌↔◌, ◌⊎◌, ℕ, List, length, IsOk, OnOk, IfOk, OnErr, IfErr, IfSome, MatchResult, string_bytes, true};
ghost use Rattle.std.specs.Io.KnownBytes.{Appends};
ghost use Rattle.p3_util_kernels.specs.Reversal.{FitsRows, IsReversal, IsRowReversal, IsZeroOrPowerOfTwo};
ghost use Rattle.p3_util_kernels.specs.Transpose.{IsTranspose};
ghost use Rattle.p3_util_run.specs.Program.{Answers, Fault, IsDefined, IsOfInput, IsSettled, Fits, IsRearranged, misfit, Out, ReadsAll, Refuses, texts_of};
ghost use Rattle.p3_util_run.specs.Watch.{HasFailed, noted};
ghost use Rattle.p3_util_run.specs.Words.{command_of};
ghost use Rattle.p3_util_run.specs.declared.fault.RunFault.{RunFault};
ghost use Rattle.p3_util_run.specs.declared.watched.InputEnd.TheVariants.{Ahead, Reached, Passed};

use crate::arrays::{line, read_array};
use crate::fault::RunFault;
use crate::watched::Watched;
use crate::words::Command;
use p3_util_kernels::reverse::{fits_rows, reverse_slice_index_bits, reverse_slice_row_index_bits};
use p3_util_kernels::transpose::{fits_matrix, transpose};
use std::alloc::Global;
use std::io::{Read, Write};

/// So many bytes are asked for at once.
const CHUNK: usize = 8192;

/// Runs the program on its arguments, a reader of the input and a writer of the output.
///
/// The faults are checked in this order: `RunFault::UnknownCommand`, before anything is read;
/// `RunFault::Read`, at the reader's first failure; `RunFault::NotAnArray`; `RunFault::BadLength`,
/// `RunFault::BadRows` or `RunFault::NotTheLength`; `RunFault::Write`, at the writer's first
/// failure. `RunFault::Memory` can occur wherever memory is requested.
///
/// A failure of any kind ends the run, an interrupted call too, and nothing is tried again. Nothing
/// is written before the whole text is there. How much a failed writer took is left open.
pub fn run<R: Read, W: Write>(
    alloc: Global,
    words: &[String],
    reader: &mut Watched<R>,
    writer: &mut Watched<W>,
) -> Result<(), RunFault>
    // On `Ok`, all input was read up to the first read that yields no byte. Its answer was written
    // and flushed, and nothing else. No read ever follows that one.
    ensures ok { OnOk result ((input text : List ℕ)
        × ReadsAll (R.remaining reader.old.inner) (R.remaining reader.new.inner) input
        × Out (texts_of words.now) input text
        × Appends (W.contents writer.old.inner) (W.contents writer.new.inner) text) }
    ensures flushed { OnOk result (writer.new.is_flushed ≡ true) }
    ensures ended { reader.old.input_end ≡ Ahead → OnOk result (reader.new.input_end ≡ Reached) }
    ensures not_passed { reader.old.input_end ≡ Ahead → reader.new.input_end ≢ Passed }

    // On a fault of the input, all input was read, and it has no answer. An unknown command is
    // returned before anything is read, and only `Write` after something is written.
    ensures refused { IfErr result (λ fault. IsOfInput fault → (input : List ℕ)
        × ReadsAll (R.remaining reader.old.inner) (R.remaining reader.new.inner) input
        × Fault (texts_of words.now) input fault) }
    ensures unknown { (result ≡ Err RunFault.UnknownCommand)
        ↔ (command_of (texts_of words.now) ≡ None) }
    ensures unread { result ≡ Err RunFault.UnknownCommand → reader.new ≡ reader.old }
    ensures unwritten { IfErr result (λ fault. fault ≢ RunFault.Write → writer.new ≡ writer.old) }

    // A failure leads to its fault, and only a failure does. The first ends the run, so exactly one
    // is counted, unless the count is at its maximum.
    ensures reader_once { (result ≡ Err RunFault.Read
        → reader.new.failures ≡ noted reader.old.failures)
        × (result ≢ Err RunFault.Read → reader.new.failures ≡ reader.old.failures) }
    ensures writer_once { (result ≡ Err RunFault.Write
        → writer.new.failures ≡ noted writer.old.failures)
        × (result ≢ Err RunFault.Write → writer.new.failures ≡ writer.old.failures) }
    ensures reader_failed { result ≡ Err RunFault.Read → HasFailed reader.old reader.new }
    ensures reader_fault { reader.old.failures < reader.new.failures → result ≡ Err RunFault.Read }
    ensures writer_failed { result ≡ Err RunFault.Write → HasFailed writer.old writer.new }
    ensures writer_fault { writer.old.failures < writer.new.failures → result ≡ Err RunFault.Write }

    // If the bytes of the input are known, the result is `Ok` if they have an answer, and otherwise
    // their fault, unless the reader, the memory or the writer fails. There is at most one answer.
    ensures answers { IfSome (R.remaining reader.old.inner) (λ input. IsSettled result
        → (IsOk result ↔ IsDefined (texts_of words.now) input)) }
    ensures refuses { IfSome (R.remaining reader.old.inner) (λ input. IsSettled result
        → (fault : RunFault) → (result ≡ Err fault) ↔ Fault (texts_of words.now) input fault) }
    ensures one_text { (input a b : List ℕ) → Out (texts_of words.now) input a
        → Out (texts_of words.now) input b
        → a ≡ b }
{
    let Some(command) = Command::from_words(words) else {
        return Err(RunFault::UnknownCommand);
    };
    let input = read_all(alloc, reader)?;
    match answer(alloc, &command, input) {
        Ok(text) => write_all(writer, text.as_bytes()),
        Err(fault) => Err(fault),
    }
}

/// The text that answers an input. Each intermediate list is dropped once the next one is made.
///
/// Returns `RunFault::NotAnArray`, `RunFault::BadLength`, `RunFault::BadRows` or
/// `RunFault::NotTheLength` if there is no answer, and `RunFault::Memory` if memory runs out.
fn answer(alloc: Global, command: &Command, input: Vec<u8>) -> Result<String, RunFault>
    ensures ok { IfOk result (λ text. Answers command.now input.items (string_bytes text)) }
    ensures err { IfErr result (λ fault. (fault ≡ RunFault.Memory)
        ⊎ Refuses command.now input.items fault) }
{
    let numbers = read_array(alloc, input)?;
    let rearranged = rearrange(alloc, command, numbers)?;
    match line(alloc, rearranged) {
        Ok(text) => Ok(text),
        Err(_) => Err(RunFault::Memory),
    }
}

/// Rearranges the list by the command. If the length does not fit, that is the fault, however much
/// memory there is.
fn rearrange(alloc: Global, command: &Command, numbers: Vec<u64>) -> Result<Vec<u64>, RunFault>
    ensures ok { IfOk result (λ v. Fits command.now (length numbers.items)
        × IsRearranged command.now numbers.items v.items) }
    ensures err { IfErr result (λ fault. (fault ≡ RunFault.Memory)
        ⊎ (¬ Fits command.now (length numbers.items)
        × (fault ≡ misfit command.now (length numbers.items)))) }
    ensures misfit { ¬ Fits command.now (length numbers.items)
        → result ≡ Err (misfit command.now (length numbers.items)) }
{
    match command {
        Command::Revbits => reversed(numbers),
        Command::Revrows { width } => rows_reversed(numbers, *width),
        Command::Transpose { width, height } => transposed(alloc, numbers, *width, *height),
    }
}

/// Reads to the end of the input.
///
/// Returns `RunFault::Read` at the reader's first failure, and `RunFault::Memory` if memory runs
/// out.
fn read_all<R: Read>(alloc: Global, reader: &mut Watched<R>) -> Result<Vec<u8>, RunFault>
    ensures read { IfOk result (λ v. ReadsAll (R.remaining reader.old.inner)
        (R.remaining reader.new.inner) v.items) }
    ensures ended { reader.old.input_end ≡ Ahead
        → MatchResult result (λ _. reader.new.input_end
        ≡ Reached) (λ _. reader.new.input_end ≡ Ahead) }
    ensures kind { IfErr result (λ e. (e ≡ RunFault.Read) ⊎ (e ≡ RunFault.Memory)) }
    ensures failed { result ≡ Err RunFault.Read → reader.new.failures ≡ noted reader.old.failures }
    ensures good { result ≢ Err RunFault.Read → reader.new.failures ≡ reader.old.failures }
{
    let mut input = Vec::new(alloc);
    let mut chunk = [0u8; CHUNK];
    'reads: loop {
        match reader.read(&mut chunk) {
            Ok(0) => return Ok(input),
            Ok(n) => {
                if input.extend_from_slice(&chunk[..n]).is_err() {
                    return Err(RunFault::Memory);
                }
            }
            Err(_) => return Err(RunFault::Read),
        }
    }
}

/// Writes all of `text` and flushes the writer. Returns `RunFault::Write` at the writer's first
/// failure.
fn write_all<W: Write>(writer: &mut Watched<W>, text: &[u8]) -> Result<(), RunFault>
    ensures written { OnOk result
        (Appends (W.contents writer.old.inner) (W.contents writer.new.inner) text.now) }
    ensures kind { IfErr result (λ e. e ≡ RunFault.Write) }
    ensures failed { OnErr result (writer.new.failures ≡ noted writer.old.failures) }
    ensures good { OnOk result (writer.new.failures ≡ writer.old.failures) }
    ensures flushed { OnOk result (writer.new.is_flushed ≡ true) }
{
    let mut rest = text;
    while !rest.is_empty() {
        match writer.write(rest) {
            Ok(0) => return Err(RunFault::Write),
            Ok(n) => rest = &rest[n..],
            Err(_) => return Err(RunFault::Write),
        }
    }
    if writer.flush().is_err() {
        return Err(RunFault::Write);
    }
    Ok(())
}

/// The list in the order of reversed index bits. Returns `RunFault::BadLength` if its length is
/// neither zero nor a power of two.
fn reversed(mut numbers: Vec<u64>) -> Result<Vec<u64>, RunFault>
    ensures ok { IfOk result (λ v. IsZeroOrPowerOfTwo (length numbers.items)
        × IsReversal numbers.items v.items) }
    ensures err { IfErr result (λ e. ¬ IsZeroOrPowerOfTwo (length numbers.items)
        × (e ≡ RunFault.BadLength (length numbers.items))) }
{
    let len = numbers.len();
    if fits_rows(len, 1) {
        reverse_slice_index_bits(numbers.as_mut_slice());
        Ok(numbers)
    } else {
        Err(RunFault::BadLength { len })
    }
}

/// The list with its rows of `width` items in the order of reversed index bits. Returns
/// `RunFault::BadRows` if its length is not `width` times zero or a power of two.
fn rows_reversed(mut numbers: Vec<u64>, width: usize) -> Result<Vec<u64>, RunFault>
    ensures ok { IfOk result (λ v. FitsRows (length numbers.items) width
        × IsRowReversal width numbers.items v.items) }
    ensures err { IfErr result (λ e. ¬ FitsRows (length numbers.items) width
        × (e ≡ RunFault.BadRows width (length numbers.items))) }
{
    let len = numbers.len();
    if fits_rows(len, width) {
        reverse_slice_row_index_bits(numbers.as_mut_slice(), width);
        Ok(numbers)
    } else {
        Err(RunFault::BadRows { width, len })
    }
}

/// The transpose of a matrix of `height` rows of `width` items. Returns `RunFault::NotTheLength` if
/// the list does not have `width` times `height` items, and `RunFault::Memory` if memory runs out.
fn transposed(
    alloc: Global,
    numbers: Vec<u64>,
    width: usize,
    height: usize,
) -> Result<Vec<u64>, RunFault>
    ensures ok { IfOk result (λ v. (length numbers.items ≡ width * height)
        × IsTranspose width height numbers.items v.items) }
    ensures err { IfErr result (λ e. (e ≡ RunFault.Memory)
        ⊎ ((length numbers.items ≢ width * height)
        × (e ≡ RunFault.NotTheLength width height (length numbers.items)))) }
    ensures misfit { length numbers.items ≢ width * height
        → result ≡ Err (RunFault.NotTheLength width height (length numbers.items)) }
{
    let len = numbers.len();
    if !fits_matrix(len, len, width, height) {
        return Err(RunFault::NotTheLength { width, height, len });
    }
    let mut output = Vec::new(alloc);
    if output.resize(len, 0).is_err() {
        return Err(RunFault::Memory);
    }
    transpose(numbers.as_slice(), output.as_mut_slice(), width, height);
    Ok(output)
}
