//! Standard input, and strings that are read from it or from files.

use std::io::Stdin;
use std::rt::Runtime;
use std::{fs, io};

/// Standard input, which is about to be read. If `reports_input`, this is reported on standard error.
pub fn input(rt: &HostRuntime, reports_input: bool) -> Stdin {
    if reports_input {
        let _ = eprintln!(rt; "input=read");
    }
    rt.stdin()
}

/// The content of the file with this name. A dash is standard input.
pub fn read_text(rt: &HostRuntime, reports_input: bool, name: &str) -> io::Result<String> {
    if name == "-" {
        return io::read_to_string(rt.alloc(), input(rt, reports_input));
    }
    fs::read_to_string(rt, name)
}
