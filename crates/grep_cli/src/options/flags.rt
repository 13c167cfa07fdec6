//! What single options ask for, and what follows from that alone.
ghost use Rattle.std.specs.Prelude.{◌≡◌, ◌||◌, codes, option_map, unwrap_or};
ghost use Rattle.clap.specs.Words.{first_value, found_of};
ghost use Rattle.grep_options.specs.Options.{is_set};
ghost use Rattle.grep_cli.specs.Flags.{asked_names, color_of, devices_by, directories_by, has_columns, has_heading, has_numbers, most_bytes_by};
ghost use Rattle.grep_cli.specs.Flags.{reads_found, reads_named, shows_names, template_given, terminator_given};

use clap::ArgMatches;
use grep_options::is_set;
use std::env;
use std::io::IsTerminal;
use std::rt::Runtime;

/// Whether file names are printed before lines.
#[derive(Clone, Copy)]
pub enum Names {
    /// Before each line.
    Always,
    /// Before no line.
    Never,
    /// If there are several files.
    IfSeveral,
}

/// What is done with a folder that an argument names.
#[derive(Clone, Copy, PartialEq, Eq)]
pub enum Directories {
    /// It is an error.
    Reject,
    /// Its files are searched, and those of the folders in it.
    Recurse,
    /// It is left out.
    Skip,
}

/// Which devices, pipes and sockets are read.
#[derive(Clone, Copy)]
pub enum Devices {
    /// All are read.
    ReadAll,
    /// Those that arguments name are read.
    ReadNamed,
    /// None is read.
    SkipAll,
}

/// Whether standard output is a terminal that supports colours.
pub fn is_colorful(rt: &HostRuntime) -> bool {
    match env::var(rt, "TERM") {
        Ok(term) => rt.stdout().is_terminal() && term.as_str() != "dumb",
        Err(_) => false,
    }
}

/// Whether matches and names are marked, by `--color` or, without it, by `-p` if `--vimgrep` isn't given. `is_colorful` says whether
/// standard output is a terminal that supports colours.
pub fn color_of(matches: &ArgMatches<'_>, is_colorful: bool) -> bool
    ensures { result ≡ color_of (found_of matches.now) is_colorful }
{
    match matches.get_str("color") {
        Some("always" | "yes" | "force") => true,
        Some("auto" | "tty" | "if-tty") => is_colorful,
        Some(_) => false,
        None => is_set(matches, "pretty") && !is_set(matches, "vimgrep"),
    }
}

/// Whether the name of a file is printed once above its lines. Of `--heading` and `--no-heading`, the later one has turned off the other.
/// With `--json` there are no lines.
pub fn has_heading(matches: &ArgMatches<'_>) -> bool
    ensures { result ≡ has_heading (found_of matches.now) }
{
    if is_set(matches, "no-heading") || is_set(matches, "vimgrep") || is_set(matches, "json") {
        return false;
    }
    is_set(matches, "heading") || is_set(matches, "pretty")
}

/// Whether file names are printed before lines. Of `-h` and `-H`, the later one has turned off the other. `--vimgrep` asks for names too.
pub fn names_of(matches: &ArgMatches<'_>) -> Names
    ensures { result ≡ asked_names (found_of matches.now) }
{
    if is_set(matches, "no-filename") {
        return Names::Never;
    }
    if is_set(matches, "with-filename") || is_set(matches, "vimgrep") {
        return Names::Always;
    }
    Names::IfSeveral
}

/// What is done with a folder. Of `-r`, `-R` and `-d` the last one has turned off the others.
pub fn directories_of(matches: &ArgMatches<'_>) -> Directories
    ensures { result ≡ directories_by (first_value (found_of matches.now) (codes "directories"))
        (is_set (found_of matches.now) (codes "recursive") || is_set (found_of matches.now) (codes "dereference-recursive")) }
{
    let recursive = is_set(matches, "recursive") || is_set(matches, "dereference-recursive");
    match matches.get_str("directories") {
        Some("skip") => Directories::Skip,
        Some("recurse") => Directories::Recurse,
        _ => if recursive {
            Directories::Recurse
        } else {
            Directories::Reject
        },
    }
}

/// Which devices are read. With `-R` all are, unless `-D` skips them.
pub fn devices_of(matches: &ArgMatches<'_>, follows: bool) -> Devices
    ensures { result ≡ devices_by (first_value (found_of matches.now) (codes "devices")) follows }
{
    match matches.get_str("devices") {
        Some("skip") => Devices::SkipAll,
        Some("read") => Devices::ReadAll,
        _ => if follows {
            Devices::ReadAll
        } else {
            Devices::ReadNamed
        },
    }
}

/// The name of standard input, where names are printed.
pub fn input_name<'a>(matches: &ArgMatches<'a>) -> &'a str
    ensures { result.now ≡ unwrap_or (first_value (found_of matches.now) (codes "label")) (codes "(standard input)") }
{
    match matches.get_str("label") {
        Some(label) => label,
        None => "(standard input)",
    }
}

/// The template by which matches are replaced, if it is given. With `--json` nothing is replaced.
pub fn template_of<'a>(matches: &ArgMatches<'a>) -> Option<&'a [u8]>
    ensures { option_map (λ t. t.now) result ≡ template_given (found_of matches.now) }
{
    if is_set(matches, "json") {
        return None;
    }
    match matches.get_str("replace") {
        Some(text) => Some(text.as_bytes()),
        None => None,
    }
}

/// Whether the numbers of lines are printed. Of `-n` and `-N`, the later one has turned off the other. `--json` asks for them too.
pub fn has_numbers(matches: &ArgMatches<'_>) -> bool
    ensures { result ≡ has_numbers (found_of matches.now) }
{
    if is_set(matches, "no-line-number") {
        return false;
    }
    is_set(matches, "line-number")
        || is_set(matches, "pretty")
        || is_set(matches, "column")
        || is_set(matches, "vimgrep")
        || is_set(matches, "json")
}

/// Whether columns are printed. Of `--column` and `--no-column`, the later one has turned off the other.
pub fn has_columns(matches: &ArgMatches<'_>) -> bool
    ensures { result ≡ has_columns (found_of matches.now) }
{
    if is_set(matches, "no-column") {
        return false;
    }
    is_set(matches, "column") || is_set(matches, "vimgrep")
}

/// The greatest number of bytes of a line that is printed, if this number is given. 0 is no limit.
pub fn most_bytes_by(given: Option<u64>) -> Option<u64>
    ensures { result ≡ most_bytes_by given }
{
    match given {
        Some(most) if most > 0 => Some(most),
        _ => None,
    }
}

/// The byte that ends lines.
pub fn terminator_given(matches: &ArgMatches<'_>) -> u8
    ensures { result ≡ terminator_given (found_of matches.now) }
{
    if is_set(matches, "null-data") {
        0
    } else {
        b'\n'
    }
}

/// Whether devices that are found in folders are read.
pub fn reads_found(devices: Devices) -> bool
    ensures { result ≡ reads_found devices }
{
    match devices {
        Devices::ReadAll => true,
        Devices::ReadNamed | Devices::SkipAll => false,
    }
}

/// Whether devices that arguments name are read.
pub fn reads_named(devices: Devices) -> bool
    ensures { result ≡ reads_named devices }
{
    match devices {
        Devices::ReadAll | Devices::ReadNamed => true,
        Devices::SkipAll => false,
    }
}

/// Whether names are printed before lines, depending on whether several files may be searched.
pub fn is_named(names: Names, may_be_several: bool) -> bool
    ensures { result ≡ shows_names names may_be_several }
{
    match names {
        Names::Always => true,
        Names::Never => false,
        Names::IfSeveral => may_be_several,
    }
}
