// A query: its lines, one after the other.
ghost use Rattle.std.specs.Prelude.{◌≡◌, [], IfOk, IfErr, MatchOption};
ghost use Rattle.hirscan.specs.Takes.{at_first};
ghost use Rattle.hirscan.specs.Reads.{IsOneLine, Reads};
ghost use Rattle.hirscan.specs.QueryReports.{ReportsFault, CutsLine, query_value, value_of_query};

use crate::fault::{Fault, FaultKind};
use crate::line::{HeadState, Setup, Step, read_line};
use crate::split::offset_of;
use hir_core::Hir;
use hir_regex::Settings;
use search_types::Span;
use std::alloc::Global;

/// A query: what a text has before its haystack.
#[derive(Drop)]
pub struct Head {
    /// How a regex is made of the patterns. An option that no line sets isn't set.
    pub settings: Settings,
    /// Whether each match has to start where its search does.
    pub anchored: bool,
    /// The span that is searched, or `None` for the whole haystack.
    pub span: Option<Span>,
    /// The patterns, in the order in which they were taken.
    pub patterns: Vec<Hir>,
    /// How many bytes the query has, with the line feed of its line `find`.
    pub len: usize,
}

/// The first line, without its line feed, and what follows that; `None` if there is no line feed.
fn split_line(text: &[u8]) -> Option<(&[u8], &[u8])>
    ensures { MatchOption result (IsOneLine text.now) (λ p. CutsLine text.now p.0.now p.1.now) }
{
    let Some(len) = offset_of(text, b'\n') else {
        return None;
    };
    Some((&text[..len], &text[len + 1..]))
}

/// The state before the first line.
fn first_state(alloc: Global) -> HeadState
    ensures { query_value result ≡ at_first }
{
    HeadState {
        setup: Setup {
            settings: Settings::new(),
            anchored: false,
            span: None,
        },
        stack: Vec::new(alloc),
        patterns: Vec::new(alloc),
    }
}

/// The query that ends in this state and has so many bytes. Trees that are left over aren't part of it.
fn head_of(state: HeadState, len: usize) -> Head
    ensures value { value_of_query result ≡ record { setup = state.setup; stack = []; patterns = state.patterns.items } }
    ensures len { result.len ≡ len }
{
    let HeadState {
        setup,
        patterns,
        ..
    } = state;
    Head {
        settings: setup.settings,
        anchored: setup.anchored,
        span: setup.span,
        patterns,
        len,
    }
}

/// Reads the query at the start of a text. Nothing after its line `find` is looked at.
///
/// The call returns an error for the first line that can't be taken. If the text ends before there is a line
/// `find`, the error is of its last line, which has no line feed and may be empty.
pub fn read_head(alloc: Global, text: &[u8]) -> Result<Head, Fault>
    ensures ok { IfOk result (λ head. Reads text.now at_first (value_of_query head) head.len) }
    ensures notation { IfErr result (λ e. ReportsFault text.now e) }
{
    let mut state = first_state(alloc);
    let mut rest = text;
    let mut at = 0usize;
    let mut lines = 0usize;
    'lines: loop {
        let Some((line, behind)) = split_line(rest) else {
            return Err(Fault::Notation {
                line: lines + 1,
                kind: FaultKind::NoFindLine,
            });
        };
        let step = match read_line(alloc, line, &mut state) {
            Ok(step) => step,
            Err(fault) => return Err(fault.on_line(lines + 1)),
        };
        rest = behind;
        at += line.len() + 1;
        match step {
            Step::Next => lines += 1,
            Step::End => return Ok(head_of(state, at)),
        }
    }
}
