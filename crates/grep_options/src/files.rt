//! The values of options that choose files, in the order in which they were given.
ghost use Rattle.std.specs.Prelude.{◌≡◌, ◌≤◌, OnOk, IfOk, length, map};
ghost use Rattle.clap.specs.Words.{found_of};
ghost use Rattle.grep_options.specs.FileOptions.{earlier, file_values, given_of, with_option, with_value, with_values};

use clap::ArgMatches;
use std::alloc::{AllocError, Global};

/// Which option a value is of.
#[derive(Clone, Copy, PartialEq, Eq)]
pub enum FileOption {
    Include,
    Exclude,
    ExcludeFrom,
}

/// A value, the option that it is of, and its position among the words.
#[derive(Clone, Copy)]
pub struct FileValue<'a> {
    pub index: usize,
    pub option: FileOption,
    pub text: &'a str,
}

/// How many of the values come before this position.
fn earlier(index: usize, values: &[FileValue<'_>]) -> usize
    ensures count { result ≡ earlier index (map given_of values.now) }
    ensures within { result ≤ length values.now }
{
    let mut count = 0;
    for value in values {
        if value.index >= index {
            return count;
        }
        count += 1;
    }
    count
}

/// Puts a value in its position.
fn put<'a>(values: &mut Vec<FileValue<'a>>, value: FileValue<'a>) -> Result<(), AllocError>
    ensures { OnOk result (map given_of values.new.items ≡ with_value (given_of value.entry) (map given_of values.old.items)) }
{
    let at = earlier(value.index, values);
    values.insert(at, value)?;
    Ok(())
}

/// Puts the values of an option in their positions.
fn put_all<'a>(
    values: &mut Vec<FileValue<'a>>,
    option: FileOption,
    indices: &[usize],
    texts: &[&'a str],
) -> Result<(), AllocError>
    ensures { OnOk result (map given_of values.new.items
        ≡ with_values option indices.now 0 (map (λ t. t.now) texts.now) (map given_of values.old.items)) }
{
    for (at, text) in texts.iter().enumerate() {
        let index = indices.get(at).copied().unwrap_or(0);
        put(
            values,
            FileValue {
                index,
                option,
                text,
            },
        )?;
    }
    Ok(())
}

fn put_option<'a>(
    values: &mut Vec<FileValue<'a>>,
    matches: &ArgMatches<'a>,
    option: FileOption,
    name: &str,
) -> Result<(), AllocError>
    ensures { OnOk result (map given_of values.new.items
        ≡ with_option (found_of matches.now) option name.now (map given_of values.old.items)) }
{
    let texts = matches.get_strs(name).unwrap_or(&[]);
    let indices = matches.indices_of(name).unwrap_or(&[]);
    put_all(values, option, indices, texts)
}

/// The values of `--include`, `--exclude` and `--exclude-from`, in the order in which they were given.
pub fn file_values<'a>(
    alloc: Global,
    matches: &ArgMatches<'a>,
) -> Result<Vec<FileValue<'a>>, AllocError>
    ensures { IfOk result (λ v. map given_of v.items ≡ file_values (found_of matches.now)) }
{
    let mut values = Vec::new(alloc);
    put_option(&mut values, matches, FileOption::Include, "include")?;
    put_option(&mut values, matches, FileOption::Exclude, "exclude")?;
    let from = FileOption::ExcludeFrom;
    put_option(&mut values, matches, from, "exclude-from")?;
    Ok(values)
}
