//! Reads inputs as a whole.
ghost use Rattle.std.specs.Prelude.{◌≡◌, ◌≤◌, IfOk, IfSome, length};

use line_search::Fault;
use std::alloc::Global;
use std::io;
use std::io::{ErrorKind, Read};

/// Why an input can't be read as a whole.
fn fault_of(error: io::Error) -> Fault {
    match error.kind() {
        ErrorKind::OutOfMemory => Fault::NoMemory,
        kind => Fault::Read(kind),
    }
}

/// Reads an input as a whole. If it has more bytes than `most`, the fault is that the file is too large.
pub fn read_whole<R: Read>(alloc: Global, reader: &mut R, most: u64) -> Result<Vec<u8>, Fault>
    ensures whole { IfOk result (λ text. IfSome (R.remaining reader.old) (λ bytes. text.items ≡ bytes)) }
    ensures few { IfOk result (λ text. length text.items ≤ most) }
{
    let limit = most.saturating_add(1);
    let mut text = Vec::new(alloc);
    match reader.take(limit).read_to_end(&mut text) {
        Ok(_) => {}
        Err(error) => return Err(fault_of(error)),
    }
    if text.len() as u64 >= limit {
        return Err(Fault::Read(ErrorKind::FileTooLarge));
    }
    Ok(text)
}
