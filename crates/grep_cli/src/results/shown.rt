//! Names and other text in messages and at a terminal, without control characters.
ghost use Rattle.std.specs.Prelude.{◌≡◌, IfOk, string_bytes};
ghost use Rattle.grep_cli.specs.PrintedNames.{hides_controls, shown_char};
ghost use Rattle.grep_cli.specs.PrintedNames.{name_bytes};
ghost use Rattle.grep_cli.specs.PrintedNames.{printed_name, without_controls};

use std::alloc::{AllocError, Global};
use std::fmt;
use std::fmt::Write;

/// The character that is shown for this one: a question mark for a control character, as GNU `ls` has it.
fn shown_char(c: char) -> char
    ensures { result ≡ shown_char c }
{
    if c.is_control() { '?' } else { c }
}

/// A name or another text that is part of a message. It is printed without control characters, since these could change what a terminal
/// shows or does.
#[derive(Clone, Copy)]
pub struct Shown<'a>(pub &'a str);

impl<'a> fmt::Display for Shown<'a> {
    fn fmt<W: fmt::Write>(&self, f: &mut fmt::Formatter<W>) -> fmt::Result {
        for c in self.0.chars() {
            f.write_char(shown_char(c))?;
        }
        Ok(())
    }
}

/// Lines that are printed likewise.
#[derive(Clone, Copy)]
pub struct ShownLines<'a>(pub &'a str);

impl<'a> fmt::Display for ShownLines<'a> {
    fn fmt<W: fmt::Write>(&self, f: &mut fmt::Formatter<W>) -> fmt::Result {
        for c in self.0.chars() {
            f.write_char(if c == '\n' { c } else { shown_char(c) })?;
        }
        Ok(())
    }
}

/// Whether control characters of names are hidden: if standard output is a terminal, and no zero bytes end names for a program.
pub fn hides_controls(is_terminal: bool, zero_names: bool) -> bool
    ensures { result ≡ hides_controls is_terminal zero_names }
{
    is_terminal && !zero_names
}

/// A name as it was given, or another one that was made of it.
#[derive(Drop)]
pub enum PrintedName<'a> {
    /// As it was given.
    Given(&'a str),
    /// Made of the one that was given.
    Made(String),
}

impl<'a> PrintedName<'a> {
    /// The name.
    pub fn as_str(&self) -> &str
        ensures { result.now ≡ name_bytes self.now }
    {
        match self {
            PrintedName::Given(name) => name,
            PrintedName::Made(name) => name.as_str(),
        }
    }
}

/// A name as it is printed, given whether control characters are hidden.
pub fn printed_name<'a>(
    alloc: Global,
    hides: bool,
    name: &'a str,
) -> Result<PrintedName<'a>, AllocError>
    ensures { IfOk result (λ n. name_bytes n ≡ printed_name hides name.now) }
{
    if !hides {
        return Ok(PrintedName::Given(name));
    }
    let made = without_controls(alloc, name)?;
    Ok(PrintedName::Made(made))
}

/// A name with a question mark for each control character.
pub fn without_controls(alloc: Global, name: &str) -> Result<String, AllocError>
    ensures { IfOk result (λ s. string_bytes s ≡ without_controls name.now) }
{
    name.chars().map(|c| shown_char(c)).collect(alloc)
}
