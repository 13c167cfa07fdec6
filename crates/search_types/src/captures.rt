ghost use Rattle.std.specs.Prelude.{◌≡◌, ◌≤◌, [], length, replicate, None, is_some, IfOk, ◌+◌, ◌∷◌, map};
ghost use Rattle.std.specs.Option.{ForSome, option_map};
ghost use Rattle.std.specs.Borrow.{sem};
ghost use Rattle.search_core.specs.Index.{greatest_index};
ghost use Rattle.search_types.specs.Groups.{slot_len, implicit_slot_len};
ghost use Rattle.search_types.specs.CapturesValue.{group_span, named_span, whole_match, matched_group_len, group_spans, slot_value};
ghost use Rattle.search_types.specs.CapturesValue.{span_at, cut_spans, match_spans};
ghost use Rattle.search_types.specs.CapturesLends.{borrows_slots};

use crate::captures_iter::CapturesPatternIter;
use crate::group_info::GroupInfo;
use crate::haystack::{Bytes, Haystack, Text};
use crate::matches::Match;
use crate::span::Span;
use search_core::{NonMaxUsize, PatternID};
use std::alloc::{AllocError, Global};
use std::marker::Model;

/// Which pattern matched, and the spans of its groups. A contract sees the groups, that pattern and the slots.
///
/// A slot has one end of a group's span. It is unset if the group took no part in the match. If only some of the slots are
/// kept, the groups of the others count as groups that took no part. As `regex_automata::util::captures::Captures`.
#[derive(Drop)]
pub struct Captures {
    group_info: GroupInfo,
    pid: Option<PatternID>,
    slots: Vec<Option<NonMaxUsize>>,
}

impl Model for Captures {
    ghost use Rattle.search_types.specs.CapturesValue.{CapturesValue};

    ghost Value = { CapturesValue };

    ghost view = { λ c. record { groups = c.group_info; pattern = c.pid; slots = c.slots.items } };
}

impl Captures {
    /// No match, with room for the spans of all groups.
    pub fn all(alloc: Global, group_info: GroupInfo) -> Result<Captures, AllocError>
        ensures { IfOk result (λ c. c ≡ record { groups = group_info; pattern = None; slots = replicate (slot_len group_info) None }) }
    {
        let slots = unset(alloc, group_info.slot_len())?;
        Ok(Captures {
            group_info,
            pid: None,
            slots,
        })
    }

    /// No match, with room for the span of each pattern's first group, which is the whole match.
    pub fn matches(alloc: Global, group_info: GroupInfo) -> Result<Captures, AllocError>
        ensures { IfOk result (λ c. c ≡ record {
          groups = group_info;
          pattern = None;
          slots = replicate (implicit_slot_len group_info) None;
        }) }
    {
        let slots = unset(alloc, group_info.implicit_slot_len())?;
        Ok(Captures {
            group_info,
            pid: None,
            slots,
        })
    }

    /// No match, with room for which pattern matched and for no span.
    pub fn empty(alloc: Global, group_info: GroupInfo) -> Captures
        ensures { result ≡ record { groups = group_info; pattern = None; slots = [] } }
    {
        Captures {
            group_info,
            pid: None,
            slots: Vec::new(alloc),
        }
    }

    /// A copy with the same groups, pattern and slots.
    pub fn try_clone(&self, alloc: Global) -> Result<Captures, AllocError>
        ensures { IfOk result (λ c. c ≡ self.now) }
    {
        let mut slots = Vec::with_capacity(alloc, self.slots.len())?;
        slots.extend_from_slice(&self.slots)?;
        Ok(Captures {
            group_info: self.group_info.try_clone(alloc)?,
            pid: self.pid,
            slots,
        })
    }

    /// Whether a pattern matched.
    pub fn is_match(&self) -> bool
        ensures { result ≡ is_some self.now.pattern }
    {
        self.pid.is_some()
    }

    /// The pattern that matched.
    pub fn pattern(&self) -> Option<PatternID>
        ensures { result ≡ self.now.pattern }
    {
        self.pid
    }

    /// The match, if the span of its first group is known.
    pub fn get_match(&self) -> Option<Match>
        requires { ForSome (group_span self.now 0) (λ span. span.start ≤ span.end) }
        ensures { result ≡ whole_match self.now }
    {
        let pid = self.pid?;
        let span = self.get_group(0)?;
        Some(Match::new(pid, span))
    }

    /// The span of a group of the matched pattern. The result is `None` if no pattern matched, the group took no part in
    /// the match, its slots aren't kept, or there is no such group.
    pub fn get_group(&self, index: usize) -> Option<Span>
        ensures { result ≡ group_span self.now index }
    {
        let pid = self.pid?;
        let first = match self.group_info.pattern_len() {
            1 => index.checked_mul(2)?,
            _ => self.group_info.slot(pid, index)?,
        };
        span_at(&self.slots, first)
    }

    /// The span of the group of the matched pattern with this name. The result is `None` if [`Captures::get_group`]
    /// returns `None`, or if no group has this name.
    pub fn get_group_by_name(&self, name: &str) -> Option<Span>
        ensures { result ≡ named_span self.now name.now }
    {
        let index = self.group_info.to_index(self.pid?, name)?;
        self.get_group(index)
    }

    /// The spans of the groups of the matched pattern in order, `None` for a group without one. If no pattern matched,
    /// there are none.
    pub fn iter(&self) -> CapturesPatternIter<'_>
        ensures { result ≡ group_spans self.now }
    {
        CapturesPatternIter::new(self)
    }

    /// How many groups the matched pattern has, or 0 if no pattern matched.
    pub fn group_len(&self) -> usize
        ensures value { result ≡ matched_group_len self.now.groups self.now.pattern }
        ensures in_range { result ≤ greatest_index }
    {
        match self.pid {
            Some(pid) => self.group_info.group_len(pid),
            None => 0,
        }
    }

    /// The groups of all patterns.
    pub fn group_info(&self) -> &GroupInfo
        ensures { result.now ≡ self.now.groups }
    {
        &self.group_info
    }

    /// Forgets the match, and unsets all slots.
    pub fn clear(&mut self)
        ensures { self.new ≡ record { groups = self.old.groups; pattern = None; slots = replicate (length self.old.slots) None } }
    {
        self.pid = None;
        self.slots.fill(None);
    }

    /// Sets which pattern matched, if one did. The slots stay as they are.
    pub fn set_pattern(&mut self, pid: Option<PatternID>)
        ensures { self.new ≡ record { groups = self.old.groups; pattern = pid; slots = self.old.slots } }
    {
        self.pid = pid;
    }

    /// The slots that are kept.
    pub fn slots(&self) -> &[Option<NonMaxUsize>]
        ensures { result.now ≡ self.now.slots }
    {
        &self.slots
    }

    /// The slots that are kept, for writing.
    pub fn slots_mut(&mut self) -> &mut [Option<NonMaxUsize>]
        ensures* writes_back { sem 𝓛 (borrows_slots self.entry result) }
        ensures value { result.now ≡ self.old.slots }
    {
        self.slots.as_mut_slice()
    }
}

/// So many slots, none of them set.
fn unset(alloc: Global, len: usize) -> Result<Vec<Option<NonMaxUsize>>, AllocError>
    ensures { IfOk result (λ slots. slots.items ≡ replicate len None) }
{
    vec![in alloc; None; len]
}

/// The value of a slot; `None` if it is unset or isn't kept.
fn slot_value(slots: &[Option<NonMaxUsize>], index: usize) -> Option<usize>
    ensures { result ≡ slot_value slots.now index }
{
    match slots.get(index) {
        Some(Some(value)) => Some(value.get()),
        _ => None,
    }
}

/// The span whose ends are in this slot and the next one.
fn span_at(slots: &[Option<NonMaxUsize>], first: usize) -> Option<Span>
    ensures { result ≡ span_at slots.now first }
{
    let start = slot_value(slots, first)?;
    let end = slot_value(slots, first.checked_add(1)?)?;
    Some(Span { start, end })
}

impl Captures {
    /// The parts of a haystack of UTF-8 in the overall span of the match and in those of the next `N` groups that took
    /// part in it. The result is `None` if no pattern matched, the overall span isn't there, fewer groups took part, or
    /// one of the spans cuts no part out of the haystack.
    pub fn extract<H: Text, const N: usize>(&self, haystack: H) -> Option<(H, [H; N])>
        ensures { option_map (λ parts. H.bytes parts.0 ∷ map H.bytes parts.1) result
            ≡ cut_spans (H.cuts (H.bytes haystack)) (H.bytes haystack) (N + 1) (match_spans (group_spans self.now)) }
    {
        self.parts(haystack)
    }

    /// The parts of a haystack of bytes in the overall span of the match and in those of the next `N` groups that took
    /// part in it. A span may cut out any bytes. Otherwise this is [`extract`](Captures::extract).
    pub fn extract_bytes<H: Bytes, const N: usize>(&self, haystack: H) -> Option<(H, [H; N])>
        ensures { option_map (λ parts. H.bytes parts.0 ∷ map H.bytes parts.1) result
            ≡ cut_spans (H.cuts (H.bytes haystack)) (H.bytes haystack) (N + 1) (match_spans (group_spans self.now)) }
    {
        self.parts(haystack)
    }

    /// The parts of any haystack that [`extract`](Captures::extract) returns for text.
    fn parts<H: Haystack, const N: usize>(&self, haystack: H) -> Option<(H, [H; N])>
        ensures { option_map (λ parts. H.bytes parts.0 ∷ map H.bytes parts.1) result
            ≡ cut_spans (H.cuts (H.bytes haystack)) (H.bytes haystack) (N + 1) (match_spans (group_spans self.now)) }
    {
        let mut spans = self.iter();
        let whole = haystack.cut(spans.next_overall()?)?;
        let mut parts = [whole; N];
        for index in 0..N {
            parts[index] = haystack.cut(spans.next_known()?)?;
        }
        Some((whole, parts))
    }
}
