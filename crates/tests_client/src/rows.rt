// What the client gets for queries and haystacks.
use crate::client::{Fault, ProgressValue, ask};
use hirscan::read_head;
use search_types::Match;
use std::alloc::Global;

/// A query: `a` or `ab`; any number of the empty pattern or `a`; a byte above 7F in either mode; and `a`.
#[derive(Clone, Copy)]
enum Head {
    OneOrTwo,
    EmptyOrA,
    High,
    HighOfText,
    Letter,
}

#[derive(Clone, Copy)]
enum Text {
    Xabab,
    Beta,
    Broken,
}

fn query_for(head: Head) -> &'static [u8] {
    match head {
        Head::OneOrTwo => b"lit 61\nlit 6162\nalt 2\npattern\nfind\n",
        Head::EmptyOrA => b"empty\nlit 61\nalt 2\nrep 0 inf greedy\npattern\nfind\n",
        Head::High => b"utf8 off\nbytes 80-FF\npattern\nfind\n",
        Head::HighOfText => b"bytes 80-FF\npattern\nfind\n",
        Head::Letter => b"lit 61\npattern\nfind\n",
    }
}

fn text_of(text: Text) -> &'static [u8] {
    match text {
        Text::Xabab => b"xabab",
        Text::Beta => b"a\xCE\xB2",
        Text::Broken => b"a\xCE",
    }
}

/// What is listed.
#[derive(Clone, Copy)]
enum Spans {
    /// The trees define no answer.
    Undefined,
    One(usize, usize),
    Two(usize, usize, usize, usize),
}

fn rows() -> &'static [(Head, Text, Spans)] {
    &[
        (Head::OneOrTwo, Text::Xabab, Spans::Two(1, 2, 3, 4)),
        (Head::EmptyOrA, Text::Xabab, Spans::Undefined),
        (Head::High, Text::Beta, Spans::Two(1, 2, 2, 3)),
        (Head::HighOfText, Text::Beta, Spans::Undefined),
        (Head::Letter, Text::Beta, Spans::One(0, 1)),
        (Head::Letter, Text::Broken, Spans::Undefined),
    ]
}

fn is_at(found: Option<&Match>, start: usize, end: usize) -> bool {
    match found {
        None => false,
        Some(found) => found.start() == start && found.end() == end,
    }
}

/// These spans are listed, and both searches found the first of them.
fn is_reported(reported: &ProgressValue, spans: Spans) -> bool {
    if reported.first != reported.second || reported.all.first() != reported.first.as_ref() {
        return false;
    }
    match spans {
        Spans::Undefined => false,
        Spans::One(start, end) => reported.all.len() == 1
            && is_at(reported.all.first(), start, end),
        Spans::Two(start, end, from, to) => {
            reported.all.len() == 2
                && is_at(reported.all.first(), start, end)
                && is_at(reported.all.get(1), from, to)
        }
    }
}

fn is_answered(alloc: Global, head: Head, text: Text, spans: Spans) -> bool {
    let Ok(head) = read_head(alloc, query_for(head)) else {
        return false;
    };
    match ask(
        alloc,
        &head.patterns,
        head.settings,
        text_of(text),
        text_of(Text::Xabab),
    ) {
        Ok(Some(reported)) => is_reported(&reported, spans),
        Ok(None) => matches!(spans, Spans::Undefined),
        Err(Fault::NotBuilt | Fault::Refused(_)) => false,
    }
}

#[test]
fn answers_of_trees(rt: HostRuntime) {
    for (head, text, spans) in rows() {
        assert!(rt; is_answered(rt.alloc(), *head, *text, *spans));
    }
}
