//! A trie of ranges of bytes.
ghost use Rattle.std.specs.Prelude.{◌≡◌, [], ◌⊎◌, map, alloc_error, IfOk, IfErr, OnOk, OnErr};
ghost use Rattle.thompson_nfa.specs.RangeCalls.{CallsAll, CallsUpTo};
ghost use Rattle.hir_core.specs.Sequences.{bytes_of};
ghost use Rattle.thompson_nfa.specs.RangeTries.{AreRanges, IsApart, IsTrie, IsWith};
ghost use Rattle.thompson_nfa.specs.RangeWalks.{paths_of};

use crate::range_tries::range_copy::keep_below;
use crate::range_tries::range_insert::insert_below;
use crate::range_tries::range_walk::{call_each, emit};
use crate::range_tries::trie_nodes::{Next, Nodes};
use hir_core::Utf8Range;
use std::alloc::{AllocError, Global};
use std::marker::Model;

/// A set of byte strings. It takes sequences of ranges in any order, and returns sequences that ascend: at
/// the first range in which two of them differ, the earlier one's range ends before the later one's begins. A
/// contract sees these sequences.
///
/// As `regex_automata::nfa::thompson::range_trie::RangeTrie`.
#[derive(Drop)]
pub struct RangeTrie {
    alloc: Global,
    nodes: Nodes,
    root: Next,
    /// How many edges there may be before the nodes that can't be reached from the root are dropped.
    most: usize,
}

/// How many edges a trie may have in any case.
const LEAST: usize = 262144;

impl Model for RangeTrie {
    ghost use Rattle.std.specs.Prelude.{ℕ, List, length};

    ghost Value = { List (List (ℕ × ℕ)) };

    ghost use Rattle.thompson_nfa.specs.TrieNodes.{following, IsInside};

    ghost view = { λ t. following t.nodes t.root };

    ghost invariant = { λ t. IsInside (length t.nodes) t.root };
}

impl RangeTrie {
    /// A trie with no string.
    pub fn new(alloc: Global) -> RangeTrie
        ensures { result ≡ [] }
    {
        RangeTrie {
            alloc,
            nodes: Nodes::new(alloc),
            root: Next::Nothing,
            most: LEAST,
        }
    }

    /// Forgets all strings.
    pub fn clear(&mut self)
        ensures { self.new ≡ [] }
    {
        self.nodes.clear();
        self.root = Next::Nothing;
        self.most = LEAST;
    }

    /// Drops the nodes that can't be reached from the root, if there are many edges.
    fn tidy(&mut self) -> Result<(), AllocError>
        ensures { self.new ≡ self.old }
    {
        if self.nodes.size() <= self.most {
            return Ok(());
        }
        let root = keep_below(&mut self.nodes, self.alloc, self.root)?;
        self.root = root;
        self.most = self.nodes.size().saturating_mul(4).max(LEAST);
        Ok(())
    }

    /// Adds the strings with a byte of each range, in the order of the ranges. None of them may be a proper
    /// prefix of a string of the trie, nor have one as a proper prefix. If there is no memory, the trie stays
    /// as it is.
    pub fn insert(&mut self, ranges: &[Utf8Range]) -> Result<(), AllocError>
        requires ordered { AreRanges (map bytes_of ranges.now) }
        requires apart { IsApart self.old (map bytes_of ranges.now) }
        ensures ok { OnOk result (IsWith self.old (map bytes_of ranges.now) self.new) }
        ensures err { OnErr result (self.new ≡ self.old) }
        ensures trie { IsTrie self.new }
    {
        let tidied = self.tidy();
        self.see_order();
        tidied?;
        let root = insert_below(&mut self.nodes, self.alloc, self.root, ranges);
        self.nodes.see_order();
        self.root = root?;
        Ok(())
    }

    /// Adds the empty string. It is a proper prefix of every other string, so the trie may have no other one.
    #[tactic(auto, using(crate::proofs::Tries::EmptyString::empty_alone))]
    pub fn add_empty(&mut self)
        requires { IsApart self.old [] }
        ensures { IsWith self.old [] self.new }
    {
        self.root = Next::End;
    }

    /// Calls the closure for each sequence, in ascending order, and stops at its first error. If there is no
    /// memory for the sequences, the call returns an error as well; then the closure wasn't called.
    pub fn iter<E: From<AllocError>, F: FnMut(&[Utf8Range]) -> Result<(), E>>(
        &self,
        f: F,
    ) -> Result<(), E>
        requires { F.IsAlwaysCallable f }
        ensures ok { OnOk result (CallsAll F.step f self.now) }
        ensures err { IfErr result (λ e. CallsUpTo F.step f self.now e ⊎ E.from_gives alloc_error e) }
        ensures trie { IsTrie self.now }
    {
        let paths = self.paths(self.alloc)?;
        call_each(f, &paths)
    }

    /// The sequences ascend.
    pub(crate) fn see_order(&self)
        ensures { IsTrie self.now }
    {
        self.nodes.see_order();
    }

    /// The sequences, ascending.
    pub(crate) fn paths(&self, alloc: Global) -> Result<Vec<Vec<Utf8Range>>, AllocError>
        ensures paths { IfOk result (λ v. paths_of v.items ≡ self.now) }
        ensures trie { IsTrie self.now }
    {
        self.nodes.see_order();
        let mut paths = Vec::new(alloc);
        emit(&self.nodes, alloc, self.root, &[], &mut paths)?;
        Ok(paths)
    }
}
