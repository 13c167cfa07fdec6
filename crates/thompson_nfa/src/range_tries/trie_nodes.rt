//! The nodes of a trie of ranges, each made once and never changed.
ghost use Rattle.std.specs.Prelude.{◌≡◌, ◌<◌, ◌≤◌, ◌+◌, ◌++◌, [], ◌∷◌, ℕ, length, get_or, IfOk, OnErr, map};
ghost use Rattle.hir_core.specs.Sequences.{bytes_of};
ghost use Rattle.thompson_nfa.specs.declared.range_tries.trie_nodes.Next.TheVariants.{Nothing, End, Node};
ghost use Rattle.thompson_nfa.specs.RangeTries.{IsTrie};
ghost use Rattle.thompson_nfa.specs.TrieNodes.{along, following, IsInside, AreInside, Rises};

use hir_core::Utf8Range;
use std::alloc::{AllocError, Global};
use std::marker::Model;

/// What follows an edge.
#[derive(Clone, Copy)]
pub(crate) enum Next {
    /// No string.
    Nothing,
    /// The end of a string.
    End,
    /// What the node with this number emits.
    Node(usize),
}

/// A range of bytes, and what follows it.
#[derive(Clone, Copy)]
pub(crate) struct Edge {
    pub(crate) range: Utf8Range,
    pub(crate) next: Next,
}

/// The edges of each node. A contract sees the sequences that each node emits.
#[derive(Drop)]
pub(crate) struct Nodes {
    rows: Vec<Vec<Edge>>,
    /// How many edges the nodes have.
    size: usize,
}

impl Model for Nodes {
    ghost use Rattle.std.specs.Prelude.{ℕ, List, [], map};

    ghost Value = { List (List (List (ℕ × ℕ))) };

    ghost use Rattle.thompson_nfa.specs.TrieNodes.{emitted_from, AreNodes};

    ghost view = { λ n. emitted_from [] (map (λ v. v.items) n.rows.items) };

    ghost invariant = { λ n. AreNodes 0 (map (λ v. v.items) n.rows.items) };
}

impl Nodes {
    pub(crate) fn new(alloc: Global) -> Nodes
        ensures { result ≡ [] }
    {
        Nodes {
            rows: Vec::new(alloc),
            size: 0,
        }
    }

    /// How many nodes there are.
    pub(crate) fn len(&self) -> usize
        ensures { result ≡ length self.now }
    {
        self.rows.len()
    }

    /// How many edges the nodes have.
    pub(crate) fn size(&self) -> usize {
        self.size
    }

    /// Makes a node.
    pub(crate) fn push(&mut self, edges: Vec<Edge>) -> Result<Next, AllocError>
        requires inside { AreInside (length self.old) edges.items }
        requires rising { Rises 0 edges.items }
        ensures node { IfOk result (λ n. n ≡ Node (length self.old)) }
        ensures ok { IfOk result (λ _. self.new ≡ self.old ++ along self.old edges.items ∷ []) }
        ensures err { OnErr result (self.new ≡ self.old) }
    {
        let number = self.rows.len();
        let size = self.size.saturating_add(edges.len());
        self.rows.push(edges)?;
        self.size = size;
        Ok(Next::Node(number))
    }

    /// The edges of a node.
    pub(crate) fn edges(&self, number: usize) -> &[Edge]
        requires { number < length self.now }
        ensures emits { along self.now result.now ≡ get_or self.now number [] }
        ensures inside { AreInside number result.now }
        ensures rising { Rises 0 result.now }
    {
        &self.rows[number]
    }

    /// Forgets all nodes.
    pub(crate) fn clear(&mut self)
        ensures { self.new ≡ [] }
    {
        self.rows.clear();
        self.size = 0;
    }

    /// The sequences that each node emits ascend.
    #[tactic(auto, using(crate::proofs::Tries::SequenceOrder::tries_of))]
    pub(crate) fn see_order(&self)
        ensures { (i : ℕ) → IsTrie (get_or self.now i []) }
    {
        let _rows = &self.rows;
    }
}
