//! Messages on standard error.

use crate::results::shown::Shown;
use std::io;
use std::io::ErrorKind;
use std::rt::Runtime;

/// A text without the number that follows the system's words in what the toolchain prints for an error.
fn without_number(text: &str) -> &str {
    match text.rsplit_once(" (os error ") {
        Some((words, _)) => words,
        None => text,
    }
}

/// Reports an error with what has this name, in the system's words.
pub fn report_error(rt: &HostRuntime, name: &str, error: &io::Error) {
    let name = Shown(name);
    let _ = match error.to_string(rt.alloc()) {
        Ok(text) => {
            let words = without_number(text.as_str());
            eprintln!(rt; "hirgrep: {name}: {words}")
        }
        Err(_) => eprintln!(rt; "hirgrep: {name}: {error}"),
    };
}

/// Reports why something isn't searched.
pub fn report_reason(rt: &HostRuntime, name: &str, reason: &str) {
    let name = Shown(name);
    let _ = eprintln!(rt; "hirgrep: {name}: {reason}");
}

/// Reports that the output can't be written, unless it is a pipe that nothing reads from any more.
pub fn report_output(rt: &HostRuntime, error: &io::Error) {
    if error.kind() != ErrorKind::BrokenPipe {
        report_error(rt, "write error", error);
    }
}
