//! Types of files that options change.
ghost use Rattle.std.specs.Prelude.{◌≡◌, ◌≤◌, ◌++◌, true, IfOk, IfSome, OnOk, is_some, length, map};
ghost use Rattle.std.specs.Str.{bytes_eq};
ghost use Rattle.clap.specs.Words.{found_of};
ghost use Rattle.grep_cli.specs.FileTypes.{of_type, row_of, rows_of};
ghost use Rattle.grep_cli.specs.Selecting.{are_types};
ghost use Rattle.grep_cli.specs.TypeChanges.{are_definitions, changes_types, end_of, colon_parts, gives_definitions, is_cleared, is_definition, types_kept, may_be_added};
ghost use Rattle.grep_cli.specs.TypeChanges.{may_be_named, may_include, names_in, rows_of_types, types_changed, with_definition, with_definitions, with_row, with_rows};

use crate::options::file_types::{is_of, is_type};
use crate::results::shown::Shown;
use clap::ArgMatches;
use globs::{chars_of, is_type_glob};
use std::alloc::{AllocError, Global};
use std::rt::Runtime;

/// Whether options change the types.
pub fn changes_types(matches: &ArgMatches<'_>) -> bool
    ensures { result ≡ changes_types (found_of matches.now) }
{
    matches.get_str("type-add").is_some() || matches.get_str("type-clear").is_some()
}

fn is_row_of(row: &(&str, &str), name: &str) -> bool
    ensures { result ≡ bytes_eq row.now.0.now name.now }
{
    row.0 == name
}

/// Whether a row is of one of these types.
fn is_cleared(names: &[&str], row: &(&str, &str)) -> bool
    ensures { result ≡ is_cleared (map (λ n. n.now) names.now) (row_of row.now) }
{
    for name in names {
        if is_row_of(row, name) {
            return true;
        }
    }
    false
}

/// The rows that aren't of these types.
fn types_kept<'a>(
    alloc: Global,
    types: &[(&'static str, &'static str)],
    names: &[&str],
) -> Result<Vec<(&'a str, &'a str)>, AllocError>
    ensures { IfOk result (λ v. rows_of v.items ≡ types_kept (map (λ n. n.now) names.now) (rows_of types.now)) }
{
    let mut rows = Vec::new(alloc);
    for row in types {
        if !is_cleared(names, row) {
            rows.push((row.0, row.1))?;
        }
    }
    Ok(rows)
}

/// The position after the last row of this type, or after all rows if there is none.
fn end_of(types: &[(&str, &str)], name: &str) -> usize
    ensures end { result ≡ end_of name.now (length types.now) 0 (rows_of types.now) }
    ensures within { result ≤ length types.now }
{
    let mut end = types.len();
    for (at, row) in types.iter().enumerate() {
        end = if is_row_of(row, name) { at + 1 } else { end };
    }
    end
}

/// Adds a row after the last one of its type.
fn push_row<'a>(
    rows: &mut Vec<(&'a str, &'a str)>,
    row: (&'a str, &'a str),
) -> Result<(), AllocError>
    ensures { OnOk result (rows_of rows.new.items ≡ with_row (row_of row.entry) (rows_of rows.old.items)) }
{
    let at = end_of(rows, row.0);
    rows.insert(at, row)?;
    Ok(())
}

/// Adds rows with the globs of these to a type.
fn push_rows<'a>(
    rows: &mut Vec<(&'a str, &'a str)>,
    name: &'a str,
    more: &[(&'a str, &'a str)],
) -> Result<(), AllocError>
    ensures { OnOk result (rows_of rows.new.items ≡ with_rows name.now (rows_of more.now) (rows_of rows.old.items)) }
{
    for row in more {
        push_row(rows, (name, row.1))?;
    }
    Ok(())
}

/// The parts of a definition, between its colons.
fn colon_parts<'a>(alloc: Global, text: &'a str) -> Result<Vec<&'a str>, AllocError>
    ensures { IfOk result (λ v. map (λ s. s.now) v.items ≡ colon_parts text.now) }
{
    let mut parts = Vec::new(alloc);
    for part in text.split(':') {
        parts.push(part)?;
    }
    Ok(parts)
}

/// The names in a list of types, between its commas.
fn names_in<'a>(alloc: Global, text: &'a str) -> Result<Vec<&'a str>, AllocError>
    ensures { IfOk result (λ v. map (λ s. s.now) v.items ≡ names_in text.now) }
{
    let mut names = Vec::new(alloc);
    for name in text.split(',') {
        names.push(name)?;
    }
    Ok(names)
}

/// Whether all of these are names of types.
fn are_types(types: &[(&str, &str)], names: &[&str]) -> bool
    ensures { result ≡ are_types (rows_of types.now) (map (λ n. n.now) names.now) }
{
    for name in names {
        if !is_type(types, name) {
            return false;
        }
    }
    true
}

/// Appends the rows of a type.
fn push_of_type<'a>(
    found: &mut Vec<(&'a str, &'a str)>,
    types: &[(&'a str, &'a str)],
    name: &str,
) -> Result<(), AllocError>
    ensures { OnOk result (rows_of found.new.items ≡ rows_of found.old.items ++ of_type name.now (rows_of types.now)) }
{
    for row in types {
        if is_of(row, name) {
            found.push(*row)?;
        }
    }
    Ok(())
}

/// The rows of types.
fn rows_of_types<'a>(
    alloc: Global,
    types: &[(&'a str, &'a str)],
    names: &[&str],
) -> Result<Vec<(&'a str, &'a str)>, AllocError>
    ensures { IfOk result (λ v. rows_of v.items ≡ rows_of_types (map (λ n. n.now) names.now) (rows_of types.now)) }
{
    let mut found = Vec::new(alloc);
    for name in names {
        push_of_type(&mut found, types, name)?;
    }
    Ok(found)
}

/// Whether globs may be added to the type of this name.
fn may_be_named(name: &str) -> bool
    ensures { result ≡ may_be_named name.now }
{
    !name.is_empty() && name != "all"
}

/// Whether this glob may be added to the type of this name.
fn may_be_added(alloc: Global, name: &str, glob: &str) -> Result<bool, AllocError>
    ensures { IfOk result (λ is. is ≡ may_be_added name.now glob.now) }
{
    if !may_be_named(name) || glob.is_empty() {
        return Ok(false);
    }
    let chars = chars_of(alloc, glob)?;
    is_type_glob(alloc, &chars)
}

/// Adds a glob to a type. Returns false if it isn't one.
fn add_glob<'a>(
    alloc: Global,
    rows: &mut Vec<(&'a str, &'a str)>,
    name: &'a str,
    glob: &'a str,
) -> Result<bool, AllocError>
    ensures is { IfOk result (λ is. is ≡ may_be_added name.now glob.now) }
    ensures rows { IfOk result (λ is. is ≡ true → rows_of rows.new.items ≡ with_row (record { name = name.now; glob = glob.now }) (rows_of rows.old.items)) }
{
    if !may_be_added(alloc, name, glob)? {
        return Ok(false);
    }
    push_row(rows, (name, glob))?;
    Ok(true)
}

/// Whether the globs of these types may be added to the type of this name.
fn may_include(types: &[(&str, &str)], name: &str, word: &str, names: &[&str]) -> bool
    ensures { result ≡ may_include (rows_of types.now) name.now word.now (map (λ n. n.now) names.now) }
{
    may_be_named(name) && word == "include" && are_types(types, names)
}

/// Adds the globs of types to a type. Returns false if the word between them isn't `include`, or one isn't a type.
fn add_types<'a>(
    alloc: Global,
    rows: &mut Vec<(&'a str, &'a str)>,
    name: &'a str,
    word: &str,
    list: &str,
) -> Result<bool, AllocError>
    ensures is { IfOk result (λ is. is ≡ may_include (rows_of rows.old.items) name.now word.now (names_in list.now)) }
    ensures rows { IfOk result (λ is. is ≡ true
        → rows_of rows.new.items ≡ with_rows name.now (rows_of_types (names_in list.now) (rows_of rows.old.items)) (rows_of rows.old.items)) }
{
    let names = names_in(alloc, list)?;
    if !may_include(rows, name, word, &names) {
        return Ok(false);
    }
    let more = rows_of_types(alloc, rows, &names)?;
    push_rows(rows, name, &more)?;
    Ok(true)
}

/// Adds what a definition adds to a type. Returns false if it can't be read.
fn add<'a>(
    alloc: Global,
    rows: &mut Vec<(&'a str, &'a str)>,
    text: &'a str,
) -> Result<bool, AllocError>
    ensures is { IfOk result (λ is. is ≡ is_definition (rows_of rows.old.items) (colon_parts text.now)) }
    ensures rows { IfOk result (λ is. is ≡ true → rows_of rows.new.items ≡ with_definition (rows_of rows.old.items) (colon_parts text.now)) }
{
    let parts = colon_parts(alloc, text)?;
    match parts.as_slice() {
        [name, glob] => add_glob(alloc, rows, name, glob),
        [name, word, list] => add_types(alloc, rows, name, word, list),
        _ => Ok(false),
    }
}

/// Adds what definitions add to types. Returns false after reporting one that can't be read.
fn add_all<'a>(
    rt: &HostRuntime,
    rows: &mut Vec<(&'a str, &'a str)>,
    texts: &[&'a str],
) -> Result<bool, AllocError>
    ensures is { IfOk result (λ is. is ≡ are_definitions (rows_of rows.old.items) (map (λ t. t.now) texts.now)) }
    ensures rows { IfOk result (λ is. is ≡ true
        → rows_of rows.new.items ≡ with_definitions (rows_of rows.old.items) (map (λ t. t.now) texts.now)) }
{
    for text in texts {
        if !add(rt.alloc(), rows, text)? {
            let text = Shown(text);
            let _ = eprintln!(rt;
                "hirgrep: type {text}: this isn't TYPE:GLOB or TYPE:include:TYPE,.."
            );
            return Ok(false);
        }
    }
    Ok(true)
}

/// The types as options change them. Returns none after reporting a definition that can't be read.
pub fn types_changed<'a>(
    rt: &HostRuntime,
    types: &[(&'static str, &'static str)],
    matches: &ArgMatches<'a>,
) -> Result<Option<Vec<(&'a str, &'a str)>>, AllocError>
    ensures some { IfOk result (λ o. IfSome o (λ v. rows_of v.items ≡ types_changed (found_of matches.now) (rows_of types.now))) }
    ensures is { IfOk result (λ o. is_some o ≡ gives_definitions (found_of matches.now) (rows_of types.now)) }
{
    let cleared = matches.get_strs("type-clear").unwrap_or(&[]);
    let mut rows = types_kept(rt.alloc(), types, cleared)?;
    let added = matches.get_strs("type-add").unwrap_or(&[]);
    if !add_all(rt, &mut rows, added)? {
        return Ok(None);
    }
    Ok(Some(rows))
}
