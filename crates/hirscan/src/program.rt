ghost use Rattle.std.specs.Prelude.{◌≡◌, ℕ, ◌+◌, ◌^◌, ◌<◌, ◌≤◌, length, take, IfOk, IfErr, OnOk, ◌≢◌};
ghost use Rattle.std.specs.Io.KnownBytes.{Appends, Consumes, IsAtEnd};
ghost use Rattle.hirscan.specs.Runs.{ReadsSome, TakesInput, TakesAtFault, WritesReply, WritesAtFault};

use crate::ending::Ending;
use crate::reply::{INPUT_LIMIT, Reply, reply_to};
use std::alloc::{AllocError, AllocFailed, Global};
use std::io::{Read, Write};
use thiserror::Error;

/// Why a run didn't write its whole reply.
#[derive(Clone, Copy, Debug, PartialEq, Eq, Error)]
pub enum RunError {
    /// A read failed, for whatever cause. Nothing was written.
    #[error("read fault")]
    Read,
    /// A write failed or took no byte, or the flush failed. What was written begins the reply.
    #[error("write fault")]
    Write,
    /// An allocation failed. Nothing was written.
    #[error("out of memory")]
    NoMemory,
}

/// How many bytes are requested from the reader at once.
const CHUNK: usize = 65536;

impl From<AllocError> for RunError {
    ghost use Rattle.std.specs.Prelude.{◌≡◌};
    ghost use Rattle.hirscan.specs.declared.program.RunError.TheVariants.{NoMemory};

    ghost from_gives = { λ _ e. e ≡ NoMemory };

    fn from(_e: AllocError) -> RunError {
        RunError::NoMemory
    }
}

/// A buffer of zero bytes.
fn make_buffer(alloc: Global, len: usize) -> Result<Vec<u8>, AllocError>
    ensures { IfOk result (λ buffer. length buffer.items ≡ len) }
{
    vec![in alloc; 0u8; len]
}

/// Appends the bytes of one read to the input, and returns their number. 0 means that the reader is at its end.
fn read_some<R: Read>(
    reader: &mut R,
    buffer: &mut [u8],
    input: &mut Vec<u8>,
) -> Result<usize, RunError>
    requires { 0 < length buffer.old }
    ensures ok { IfOk result (λ n. ReadsSome (R.remaining reader.old) (R.remaining reader.new) input.old.items input.new.items n) }
    ensures room { IfOk result (λ n. n ≤ length buffer.old) }
    ensures fault { IfErr result (λ e. e ≢ RunError.Write) }
{
    match reader.read(buffer) {
        Ok(n) => {
            input.extend_from_slice(&buffer[..n])?;
            Ok(n)
        }
        Err(_) => Err(RunError::Read),
    }
}

/// What the reader has up to its end, or one byte more than the limit of an input.
fn read_input<R: Read>(
    alloc: Global,
    reader: &mut R,
    buffer: &mut [u8],
) -> Result<Vec<u8>, RunError>
    requires { 0 < length buffer.old }
    ensures read { IfOk result (λ input. Consumes (R.remaining reader.old) (R.remaining reader.new) input.items) }
    ensures whole { IfOk result (λ input. length input.items ≤ 2 ^ 30 → IsAtEnd (R.remaining reader.new)) }
    ensures limit { IfOk result (λ input. length input.items ≤ 2 ^ 30 + 1) }
    ensures fault { IfErr result (λ e. e ≢ RunError.Write) }
{
    let mut input = Vec::new(alloc);
    while input.len() <= INPUT_LIMIT {
        let room = buffer.len().min(INPUT_LIMIT + 1 - input.len());
        let taken = read_some(reader, &mut buffer[..room], &mut input)?;
        if taken == 0 {
            return Ok(input);
        }
    }
    Ok(input)
}

/// Writes the whole text and flushes.
fn write_reply<W: Write>(writer: &mut W, text: &[u8]) -> Result<(), RunError>
    ensures ok { OnOk result (Appends (W.contents writer.old) (W.contents writer.new) text.now) }
    ensures prefix { IfErr result (λ e. (e ≡ RunError.Write) × (n : ℕ) ×
        Appends (W.contents writer.old) (W.contents writer.new) (take n text.now)) }
{
    let mut done = 0usize;
    while done < text.len() {
        match writer.write(&text[done..]) {
            Ok(0) => return Err(RunError::Write),
            Ok(n) => done += n,
            Err(_) => return Err(RunError::Write),
        }
    }
    match writer.flush() {
        Ok(()) => Ok(()),
        Err(_) => Err(RunError::Write),
    }
}

/// Reads a query and a haystack to the end, and writes the reply. It has a line `pattern start end` for each span of the list of
/// all answers. If a search gives up at a quit byte, the list ends in a line that begins with `quit: `. If the input is rejected,
/// the reply is one line that begins with `refused: `. The whole reply is made before the first write.
///
/// The call returns [`RunError::Read`] if a read fails, and [`RunError::NoMemory`] if an allocation fails. It returns
/// [`RunError::Write`] if a write fails or takes no byte, or the flush fails. Nothing is written before the reply is whole. Of
/// the reader it takes all bytes, or one more than an input may have.
pub fn run<R: Read, W: Write>(
    alloc: Global,
    reader: &mut R,
    writer: &mut W,
) -> Result<Ending, RunError>
    ensures ok { IfOk result (λ ending. WritesReply (R.remaining reader.old) (W.contents writer.old) (W.contents writer.new) ending) }
    ensures taken { OnOk result (TakesInput (R.remaining reader.old) (R.remaining reader.new)) }
    ensures fault { IfErr result (λ e. WritesAtFault (R.remaining reader.old) (W.contents writer.old) (W.contents writer.new) e) }
    ensures taken_at_fault { IfErr result (λ e. TakesAtFault (R.remaining reader.old) (R.remaining reader.new) e) }
{
    let mut buffer = make_buffer(alloc, CHUNK)?;
    let input = read_input(alloc, reader, &mut buffer)?;
    let Reply { ending, text } = reply_to(alloc, &input)?;
    match write_reply(writer, text.as_str().as_bytes()) {
        Ok(()) => Ok(ending),
        Err(e) => Err(e),
    }
}
