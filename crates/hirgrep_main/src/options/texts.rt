//! Strings that are borrowed while files are searched: colours of the environment, and separators.
ghost use Rattle.std.specs.Prelude.{◌≡◌, ◌++◌, IfOk, OnOk, codes, if◌then◌else◌, option_map, string_bytes};
ghost use Rattle.clap.specs.Words.{found_of};
ghost use Rattle.hirgrep_main.specs.Texts.{AreTexts, separated_name, separator_given};

use crate::options::asked::Texts;
use crate::options::grep_colors::{colors_given, is_color};
use clap::ArgMatches;
use grep_options::unescaped;
use std::alloc::{AllocError, Global};
use std::env;
use std::rt::Runtime;

/// What the environment and the command line hold, from which [`Texts`] are borrowed.
#[derive(Drop)]
pub struct GivenTexts {
    old_colors: Option<String>,
    colors: Option<String>,
    match_separator: Option<Vec<u8>>,
    context_separator: Option<Vec<u8>>,
}

/// A variable of the environment, if its text is UTF-8.
fn variable(rt: &HostRuntime, name: &str) -> Option<String> {
    match env::var(rt, name) {
        Ok(text) => Some(text),
        Err(_) => None,
    }
}

/// The separator that an option gives.
fn separator_given(
    alloc: Global,
    matches: &ArgMatches<'_>,
    id: &str,
) -> Result<Option<Vec<u8>>, AllocError>
    ensures { IfOk result (λ given. option_map (λ v. v.items) given ≡ separator_given (found_of matches.now) id.now) }
{
    match matches.get_str(id) {
        Some(text) => {
            let separator = unescaped(alloc, text)?;
            Ok(Some(separator))
        }
        None => Ok(None),
    }
}

fn text_of(given: &Option<String>) -> Option<&str>
    ensures { option_map (λ t. t.now) result ≡ option_map string_bytes given.now }
{
    match given {
        Some(text) => Some(text.as_str()),
        None => None,
    }
}

fn bytes_of(given: &Option<Vec<u8>>) -> Option<&[u8]>
    ensures { option_map (λ t. t.now) result ≡ option_map (λ v. v.items) given.now }
{
    match given {
        Some(bytes) => Some(bytes.as_slice()),
        None => None,
    }
}

impl GivenTexts {
    /// What is given. The variables are read if parts are marked.
    pub fn new(
        rt: &HostRuntime,
        matches: &ArgMatches<'_>,
        marks: bool,
    ) -> Result<GivenTexts, AllocError>
        ensures selected { IfOk result (λ given. option_map (λ v. v.items) given.match_separator
            ≡ separator_given (found_of matches.now) (codes "field-match-separator")) }
        ensures context { IfOk result (λ given. option_map (λ v. v.items) given.context_separator
            ≡ separator_given (found_of matches.now) (codes "field-context-separator")) }
    {
        let match_separator = separator_given(rt.alloc(), matches, "field-match-separator")?;
        let context_separator = separator_given(rt.alloc(), matches, "field-context-separator")?;
        let (old_colors, colors) = if marks {
            (variable(rt, "GREP_COLOR"), variable(rt, "GREP_COLORS"))
        } else {
            (None, None)
        };
        Ok(GivenTexts {
            old_colors,
            colors,
            match_separator,
            context_separator,
        })
    }

    /// What is borrowed of this, and what is printed instead of slashes.
    pub fn texts<'a>(&'a self, path_separator: Option<&'a str>) -> Texts<'a>
        ensures given { AreTexts self.now result }
        ensures path { result.path_separator ≡ path_separator.entry }
    {
        Texts {
            colors: colors_given(text_of(&self.old_colors), text_of(&self.colors)),
            match_separator: bytes_of(&self.match_separator),
            context_separator: bytes_of(&self.context_separator),
            path_separator,
        }
    }

    /// Reports that the older variable is deprecated, if it sets a colour.
    pub fn report_old_colors(&self, rt: &HostRuntime) {
        if let Some(text) = text_of(&self.old_colors) {
            if is_color(text) {
                let _ = eprintln!(rt;
                    "hirgrep: warning: GREP_COLOR='{text}' is deprecated; use GREP_COLORS='mt={text}'"
                );
            }
        }
    }
}

/// Appends a part of a name, after the separator unless it is the first one.
fn push_part(
    out: &mut String,
    separator: &str,
    is_first: bool,
    part: &str,
) -> Result<(), AllocError>
    ensures { OnOk result (string_bytes out.new ≡ string_bytes out.old ++ (if is_first then part.now else separator.now ++ part.now)) }
{
    if !is_first {
        out.push_str(separator)?;
    }
    out.push_str(part)?;
    Ok(())
}

/// A name with this text instead of each slash.
pub fn separated_name(alloc: Global, separator: &str, name: &str) -> Result<String, AllocError>
    ensures { IfOk result (λ s. string_bytes s ≡ separated_name separator.now name.now) }
{
    let mut out = String::new(alloc);
    let mut is_first = true;
    for part in name.split('/') {
        push_part(&mut out, separator, is_first, part)?;
        is_first = false;
    }
    Ok(out)
}
