ghost use Rattle.std.specs.Prelude.{◌≡◌, ◌≢◌, ◌<◌, ◌≤◌, true, false, [], None, MatchResult, MatchOption, ⊤};
ghost use Rattle.look_core.specs.Terminators.{one_of};
ghost use Rattle.nfa_core.specs.BuilderStates.{blank, bytes_of_drafts, pattern_count};
ghost use Rattle.nfa_core.specs.BuilderFaults.{Adds, ReportsFaultOf, limit_fault};
ghost use Rattle.nfa_core.specs.Drafts.{draft_of};
ghost use Rattle.nfa_core.specs.InOrder.{IsDraftOf};

use crate::build_error::BuildError;
use crate::building::draft::Draft;
use look_core::{AsciiWord, LookMatcher};
use search_core::StateID;
use std::alloc::Global;
use std::marker::Model;

/// Puts the states of an automaton together, as `regex_automata::nfa::thompson::Builder` does. States may lead to others that are added
/// later, and [`patch`](Builder::patch) may set later where they lead.
///
/// A call that fails leaves the builder as it was. As an exception, [`add_capture_start`](Builder::add_capture_start) may leave names of
/// groups recorded, which shows in what is built.
#[derive(Drop)]
pub struct Builder {
    pub(crate) drafts: Vec<Draft>,
    pub(crate) starts: Vec<StateID>,
    /// The names of each pattern's groups.
    pub(crate) groups: Vec<Vec<Option<String>>>,
    pub(crate) is_open: bool,
    pub(crate) utf8: bool,
    pub(crate) reverse: bool,
    pub(crate) look_matcher: LookMatcher<AsciiWord>,
    pub(crate) size_limit: Option<usize>,
    /// The bytes of all states, or [`usize::MAX`] if that is less.
    pub(crate) memory: usize,
}

impl Model for Builder {
    ghost use Rattle.std.specs.Prelude.{◌≡◌, ◌≤◌, true, length, map};
    ghost use Rattle.search_core.specs.Index.{greatest_index};
    ghost use Rattle.search_types.specs.GroupFaults.{groups_in};
    ghost use Rattle.nfa_core.specs.BuilderStates.{Assembly, bytes_of_drafts};
    ghost use Rattle.nfa_core.specs.Drafts.{draft_of};
    ghost use Rattle.nfa_core.specs.InOrder.{IsInOrder, patterns_of};

    ghost Value = { Assembly };

    ghost view = { λ b. record {
      drafts = map draft_of b.drafts.items;
      starts = b.starts.items;
      groups = groups_in b.groups.items;
      is_open = b.is_open;
      utf8 = b.utf8;
      reverse = b.reverse;
      terminator = b.look_matcher.terminator;
      size_limit = b.size_limit;
    } };

    ghost invariant = { λ b. (b.memory ≡ bytes_of_drafts (map draft_of b.drafts.items)) ×
        (b.is_open ≡ true → length b.starts.items ≤ greatest_index) ×
        IsInOrder (map draft_of b.drafts.items) (patterns_of b.is_open b.starts.items) b.size_limit };
}

/// Returns an error if so many bytes exceed the limit.
pub(crate) fn check_limit(size_limit: Option<usize>, bytes: usize) -> Result<(), BuildError>
    ensures { MatchResult result (λ _. limit_fault size_limit bytes ≡ None)
        (λ e. ReportsFaultOf e (limit_fault size_limit bytes) × (limit_fault size_limit bytes ≢ None)) }
{
    match size_limit {
        Some(limit) if limit < bytes => Err(BuildError::ExceededSizeLimit { limit }),
        _ => Ok(()),
    }
}

impl Builder {
    /// A builder without states and patterns. Its automata read forward, keep to characters of UTF-8, and have no size limit.
    pub fn new(alloc: Global) -> Builder
        ensures { result ≡ blank (one_of 0x0A) }
    {
        Builder {
            drafts: Vec::new(alloc),
            starts: Vec::new(alloc),
            groups: Vec::new(alloc),
            is_open: false,
            utf8: true,
            reverse: false,
            look_matcher: LookMatcher::new(AsciiWord),
            size_limit: None,
            memory: 0,
        }
    }

    /// Removes all states and patterns, and keeps the settings.
    pub fn clear(&mut self)
        ensures { self.new ≡ record self.old { drafts = []; starts = []; groups = []; is_open = false } }
    {
        self.drafts.clear();
        self.starts.clear();
        self.groups.clear();
        self.is_open = false;
        self.memory = 0;
    }

    /// The bytes that the states are taken to need: 24 for each, 8 for each transition of a sparse one and 4 for each alternate of a union.
    /// A number above [`usize::MAX`] is returned as [`usize::MAX`].
    pub fn memory_usage(&self) -> usize
        ensures value { result ≡ bytes_of_drafts self.now.drafts }
        ensures within { MatchOption self.now.size_limit ⊤ (λ most. result ≤ most) }
    {
        self.memory
    }

    /// Appends a state.
    pub(crate) fn add(&mut self, draft: Draft) -> Result<StateID, BuildError>
        requires { IsDraftOf (pattern_count self.old) (draft_of draft) }
        ensures { Adds self.old self.new result (draft_of draft) }
    {
        let Ok(id) = StateID::new(self.drafts.len()) else {
            return Err(BuildError::TooManyStates);
        };
        let memory = self.memory.saturating_add(draft.memory_usage());
        check_limit(self.size_limit, memory)?;
        self.drafts.push(draft)?;
        self.memory = memory;
        Ok(id)
    }

    /// Sets whether the automaton keeps to characters of UTF-8. If so, empty matches are found only between characters.
    pub fn set_utf8(&mut self, utf8: bool)
        ensures { self.new ≡ record self.old { utf8 = utf8 } }
    {
        self.utf8 = utf8;
    }

    /// See [`set_utf8`](Builder::set_utf8).
    pub fn get_utf8(&self) -> bool
        ensures { result ≡ self.now.utf8 }
    {
        self.utf8
    }

    /// Sets whether the automaton reads from the end of a haystack to its start.
    pub fn set_reverse(&mut self, reverse: bool)
        ensures { self.new ≡ record self.old { reverse = reverse } }
    {
        self.reverse = reverse;
    }

    /// See [`set_reverse`](Builder::set_reverse).
    pub fn get_reverse(&self) -> bool
        ensures { result ≡ self.now.reverse }
    {
        self.reverse
    }

    /// Sets the matcher that decides where looks hold.
    pub fn set_look_matcher(&mut self, look_matcher: LookMatcher<AsciiWord>)
        ensures { self.new ≡ record self.old { terminator = look_matcher.terminator } }
    {
        self.look_matcher = look_matcher;
    }

    /// The matcher that decides where looks hold.
    pub fn get_look_matcher(&self) -> &LookMatcher<AsciiWord>
        ensures { result.now.terminator ≡ self.now.terminator }
    {
        &self.look_matcher
    }

    /// Sets how many bytes the states may take: any number if it is `None`. Returns an error if they take more already.
    pub fn set_size_limit(&mut self, limit: Option<usize>) -> Result<(), BuildError>
        ensures { MatchResult result
            (λ _. (self.new ≡ record self.old { size_limit = limit }) × (limit_fault limit (bytes_of_drafts self.old.drafts) ≡ None))
            (λ e. (self.new ≡ self.old) × ReportsFaultOf e (limit_fault limit (bytes_of_drafts self.old.drafts)) ×
            (limit_fault limit (bytes_of_drafts self.old.drafts) ≢ None)) }
    {
        check_limit(limit, self.memory)?;
        self.size_limit = limit;
        Ok(())
    }

    /// How many bytes the states may take: any number if it is `None`.
    pub fn get_size_limit(&self) -> Option<usize>
        ensures { result ≡ self.now.size_limit }
    {
        self.size_limit
    }
}
