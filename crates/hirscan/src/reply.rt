// The whole reply to an input, made before anything is written.
ghost use Rattle.std.specs.Prelude.{◌≡◌, ◌++◌, ◌+◌, ◌<◌, ◌≤◌, length, IfOk, IsTrue, MatchOption, OnOk, string_bytes};
ghost use Rattle.hirscan.specs.Rejections.{span_of, is_span};
ghost use Rattle.hirscan.specs.Asks.{asked_search};
ghost use Rattle.hirscan.specs.QueryReports.{value_of_query};
ghost use Rattle.search_core.specs.Index.{greatest_index};
ghost use Rattle.hir_regex.specs.Built.{IsBuilt, program_settings};
ghost use Rattle.regex_pair.specs.Pairs.{AreCachesOf};
ghost use Rattle.hirscan.specs.Listing.{IsSearched, MayEndList, ReportsQuit};
ghost use Rattle.hirscan.specs.Reply.{IsReply, IsSearchReply, AnswersQuery, AreTooLarge, span_line, quit_line, error_line};

use crate::causes::refusal_cause;
use crate::ending::Ending;
use crate::fault::Fault;
use crate::head::{Head, read_head};
use hir_regex::{build, program_settings, see_bytes};
use lazy_dfa::BuildError;
use regex_pair::regex::{Cache, Regex};
use search_types::{Anchored, Input, Match, MatchError, MatchErrorKind};
use std::alloc::{AllocError, Global};

/// The greatest length of an input, in bytes.
pub(crate) const INPUT_LIMIT: usize = 1_073_741_824;

/// What is written for an input, and how the run then ends.
#[derive(Drop)]
pub(crate) struct Reply {
    pub ending: Ending,
    pub text: String,
}

fn push_span(text: &mut String, found: Match) -> Result<(), AllocError>
    ensures { OnOk result (string_bytes text.new ≡ string_bytes text.old ++ span_line found) }
{
    let pattern = found.pattern().as_usize();
    let start = found.start();
    let end = found.end();
    writeln!(text, "{pattern} {start} {end}")?;
    Ok(())
}

/// The reply of one line that rejects the input for this cause.
fn rejection(alloc: Global, cause: &str) -> Result<Reply, AllocError>
    ensures ending { IfOk result (λ r. r.ending ≡ Ending.Refused) }
    ensures text { IfOk result (λ r. string_bytes r.text ≡ error_line cause.now) }
{
    Ok(Reply {
        ending: Ending::Refused,
        text: format!(in alloc; "refused: {cause}\n")?,
    })
}

/// The input of the search, with the span that is searched.
fn input_of<'h>(head: &Head, h: &'h [u8]) -> Input<'h>
    requires { IsTrue (is_span (span_of head.now.span h.now) h.now) }
    ensures { result ≡ asked_search (value_of_query head.now).setup h.now }
{
    let input = Input::new(h).anchored(if head.anchored {
        Anchored::Yes
    } else {
        Anchored::No
    });
    match head.span {
        None => input,
        Some(span) => input.span(span),
    }
}

/// The lines of what was found before a search gave up, and a line that says where it did.
fn quit_reply(alloc: Global, text: String, byte: u8, offset: usize) -> Result<Reply, AllocError>
    ensures ending { IfOk result (λ r. r.ending ≡ Ending.Quit) }
    ensures text { IfOk result (λ r. string_bytes r.text ≡ string_bytes text ++ quit_line byte offset) }
{
    let mut text = text;
    let hex = hex::encode_upper(alloc, &[byte])?;
    writeln!(text, "quit: byte {hex} at {offset}")?;
    Ok(Reply {
        ending: Ending::Quit,
        text,
    })
}

/// The reply of a search that ended with this error, after the matches that the text lists.
fn failed_reply(alloc: Global, text: String, e: MatchError) -> Result<Reply, AllocError>
    requires reported { MayEndList e }
    ensures { IfOk result (λ r. ReportsQuit e (string_bytes text) r.ending (string_bytes r.text)) }
{
    match e.kind() {
        MatchErrorKind::Quit { byte, offset } => quit_reply(alloc, text, *byte, *offset),
        MatchErrorKind::NoMemory => Err(AllocError),
        _ => unreachable!(),
    }
}

/// The reply of a search over the regex of the query's patterns: a line for each match, up to where the search gives up.
fn list_matches(
    alloc: Global,
    regex: &Regex,
    cache: &mut Cache,
    head: &Head,
    h: &[u8],
) -> Result<Reply, AllocError>
    requires own { AreCachesOf regex.now cache.old }
    requires built { IsBuilt head.now.patterns.items (program_settings head.now.settings) regex.now }
    requires searched { IsSearched (value_of_query head.now).setup head.now.patterns.items h.now }
    ensures { IfOk result (λ r. IsSearchReply (value_of_query head.now).setup head.now.patterns.items h.now r.ending (string_bytes r.text)) }
{
    see_bytes(h);
    let mut text = String::new(alloc);
    for item in regex.find_iter(cache, input_of(head, h)) {
        match item {
            Ok(found) => push_span(&mut text, found)?,
            Err(e) => return failed_reply(alloc, text, e),
        }
    }
    Ok(Reply {
        ending: Ending::Listed,
        text,
    })
}

/// The regex of the query's patterns, or `None` if they are too large.
fn regex_of(alloc: Global, head: &Head) -> Result<Option<Regex>, AllocError>
    requires few { length head.now.patterns.items ≤ greatest_index + 1 }
    ensures { IfOk result (λ r. MatchOption r (AreTooLarge (value_of_query head.now).setup head.now.patterns.items)
        (λ p. IsBuilt head.now.patterns.items (program_settings head.now.settings) p)) }
{
    let settings = program_settings(head.settings);
    match build(alloc, &head.patterns, &settings) {
        Ok(regex) => Ok(Some(regex)),
        Err(BuildError::NFA { .. }) => Ok(None),
        Err(BuildError::NoMemory) => Err(AllocError),
        // no build has this error, and the program's settings rule out the others
        Err(BuildError::InsufficientStateIDCapacity) => unreachable!(),
        Err(BuildError::InsufficientCacheCapacity { .. }) => unreachable!(),
        Err(BuildError::Unsupported) => unreachable!(),
    }
}

/// The reply of a search over this regex of the query's patterns.
fn matches_reply(alloc: Global, regex: &Regex, head: &Head, h: &[u8]) -> Result<Reply, AllocError>
    requires built { IsBuilt head.now.patterns.items (program_settings head.now.settings) regex.now }
    requires searched { IsSearched (value_of_query head.now).setup head.now.patterns.items h.now }
    ensures { IfOk result (λ r. IsSearchReply (value_of_query head.now).setup head.now.patterns.items h.now r.ending (string_bytes r.text)) }
{
    let mut cache = Cache::new(alloc, regex)?;
    let reply = list_matches(alloc, regex, &mut cache, head, h);
    drop(cache);
    reply
}

/// The reply of a search for the query's patterns, which may be too large.
fn found_reply(alloc: Global, head: &Head, h: &[u8]) -> Result<Reply, AllocError>
    requires few { length head.now.patterns.items ≤ greatest_index + 1 }
    requires searched { IsSearched (value_of_query head.now).setup head.now.patterns.items h.now }
    ensures { IfOk result (λ r. IsSearchReply (value_of_query head.now).setup head.now.patterns.items h.now r.ending (string_bytes r.text)) }
{
    let Some(regex) = regex_of(alloc, head)? else {
        return rejection(alloc, "size limit");
    };
    let reply = matches_reply(alloc, &regex, head, h);
    drop(regex);
    reply
}

/// The reply to this query with this haystack after it.
fn search_reply(alloc: Global, head: &Head, h: &[u8]) -> Result<Reply, AllocError>
    requires few { length head.now.patterns.items ≤ greatest_index + 1 }
    ensures { IfOk result (λ r. AnswersQuery (value_of_query head.now).setup head.now.patterns.items h.now r.ending (string_bytes r.text)) }
{
    if let Some(cause) = refusal_cause(alloc, head, h)? {
        return rejection(alloc, cause.as_str());
    }
    found_reply(alloc, head, h)
}

/// The reply to an input. `input` is the whole of it, or is its beginning and above the limit.
pub(crate) fn reply_to(alloc: Global, input: &[u8]) -> Result<Reply, AllocError>
    ensures { IfOk result (λ r. IsReply input.now r.ending (string_bytes r.text)) }
{
    if input.len() > INPUT_LIMIT {
        return rejection(alloc, "input above 1073741824 bytes");
    }
    match read_head(alloc, input) {
        Ok(head) => search_reply(alloc, &head, &input[head.len..]),
        Err(Fault::Notation { line, kind }) => {
            let cause = format!(in alloc; "line {line}: {kind}")?;
            rejection(alloc, cause.as_str())
        }
        Err(Fault::NoMemory) => Err(AllocError),
    }
}
