//! A trie of literals as a fragment: its nodes are compiled from the last to the first.
ghost use Rattle.std.specs.Prelude.{◌≡◌, ◌≤◌, ◌+◌, ◌*◌, ◌++◌, [], ◌∷◌, true, false, length, All, IfOk, IfErr, OnOk, OnErr};
ghost use Rattle.thompson_nfa.specs.Compiled.{Makes, Weighs, Does};
ghost use Rattle.thompson_nfa.specs.LiteralGroups.{texts, bytes_in};
ghost use Rattle.thompson_nfa.specs.LiteralStates.{literals, spelt};
ghost use Rattle.thompson_nfa.specs.Refusals.{Quits, ExceedsLimit};

use crate::compiling::Fragment;
use crate::drafts::add_empty;
use crate::literals::literal_nodes::nodes;
use crate::literals::literal_states::add_node;
use crate::literals::literal_texts::add_text;
use nfa_core::{BuildError, Builder};
use search_core::StateID;
use std::alloc::{AllocError, Global};
use std::marker::Model;

/// Returns `len` names for nodes, all of them `id`.
fn same_names(alloc: Global, id: StateID, len: usize) -> Result<Vec<StateID>, AllocError>
    ensures { IfOk result (λ v. (length v.items ≡ len) × All (λ q. q ≡ id) v.items) }
{
    let mut names = Vec::new(alloc);
    for _index in 0..len {
        names.push(id)?;
    }
    Ok(names)
}

/// A fragment for one of the strings, an earlier one preferred, by the nodes of a trie. If the automaton
/// reads in reverse, the strings are those that are read, from the last byte of what they stand for.
fn compile_strings(
    builder: &mut Builder,
    alloc: Global,
    strings: Vec<&[u8]>,
) -> Result<Fragment, BuildError>
    requires { 1 ≤ length strings.items }
    ensures made { IfOk result (λ f. Makes builder.old builder.new f.start f.end (1 + 2 * bytes_in (texts strings.entry.items))) }
    ensures denotes { IfOk result (λ f. Does builder.old builder.new f.start f.end
        (literals builder.old.reverse (texts strings.entry.items))) }
    ensures weighs { IfOk result (λ _. Weighs builder.old builder.new
        (24 + 32 * bytes_in (texts strings.entry.items) + 36 * length (texts strings.entry.items))) }
    ensures passed { IfErr result (λ e. ExceedsLimit builder.old
        (24 + 32 * bytes_in (texts strings.entry.items) + 36 * length (texts strings.entry.items)) e) }
    ensures groups { IfOk result (λ _. builder.new.groups ≡ builder.old.groups) }
    ensures refused { IfErr result (λ e. Quits builder.old builder.new (1 + 2 * bytes_in (texts strings.entry.items)) e) }
{
    let laid = nodes(alloc, strings)?;
    let end = add_empty(builder)?;
    let mut names = same_names(alloc, end, laid.len())?;
    for i in (0..laid.len()).rev() {
        let id = add_node(builder, alloc, &laid[i].items, &names, end)?;
        let start = add_text(builder, laid[i].stem, id)?;
        names[i] = start;
    }
    Ok(Fragment {
        start: names[0],
        end,
    })
}

/// Literals in order of preference. They share the states of what they begin with, in the order in which they
/// are read. A contract sees the strings that are read, in that order.
///
/// As `regex_automata::nfa::thompson::literal_trie::LiteralTrie`.
#[derive(Drop)]
pub(crate) struct LiteralTrie {
    reverse: bool,
    strings: Vec<Vec<u8>>,
}

impl Model for LiteralTrie {
    ghost use Rattle.std.specs.Prelude.{map};
    ghost use Rattle.thompson_nfa.specs.LiteralStates.{Strings};

    ghost Value = { Strings };

    ghost view = { λ t. record { reverse = t.reverse; strings = map (λ v. v.items) t.strings.items } };
}

/// The bytes in the order in which they are read.
fn in_order(alloc: Global, reverse: bool, literal: &[u8]) -> Result<Vec<u8>, AllocError>
    ensures { IfOk result (λ v. v.items ≡ spelt reverse literal.now) }
{
    let mut string = Vec::new(alloc);
    string.extend_from_slice(literal)?;
    if reverse {
        string.reverse();
    }
    Ok(string)
}

impl LiteralTrie {
    /// A trie without literals. Literals are read from the first byte on.
    pub(crate) fn forward(alloc: Global) -> LiteralTrie
        ensures { result ≡ record { reverse = false; strings = [] } }
    {
        LiteralTrie {
            reverse: false,
            strings: Vec::new(alloc),
        }
    }

    /// A trie without literals. Literals are read from the last byte on.
    pub(crate) fn reverse(alloc: Global) -> LiteralTrie
        ensures { result ≡ record { reverse = true; strings = [] } }
    {
        LiteralTrie {
            reverse: true,
            strings: Vec::new(alloc),
        }
    }

    /// Adds a literal after those that are there.
    pub(crate) fn add(&mut self, alloc: Global, literal: &[u8]) -> Result<(), AllocError>
        ensures ok { OnOk result (self.new ≡ record self.old { strings = self.old.strings ++ spelt self.old.reverse literal.now ∷ [] }) }
        ensures err { OnErr result (self.new ≡ self.old) }
    {
        let string = in_order(alloc, self.reverse, literal)?;
        self.strings.push(string)?;
        Ok(())
    }

    fn texts(&self, alloc: Global) -> Result<Vec<&[u8]>, AllocError>
        ensures { IfOk result (λ v. texts v.items ≡ self.now.strings) }
    {
        let mut all = Vec::new(alloc);
        for string in &self.strings {
            all.push(string.as_slice())?;
        }
        Ok(all)
    }

    /// Compiles the trie.
    pub(crate) fn compile(
        &self,
        builder: &mut Builder,
        alloc: Global,
    ) -> Result<Fragment, BuildError>
        requires { 1 ≤ length self.now.strings }
        ensures made { IfOk result (λ f. Makes builder.old builder.new f.start f.end (1 + 2 * bytes_in self.now.strings)) }
        ensures denotes { IfOk result (λ f. Does builder.old builder.new f.start f.end (literals builder.old.reverse self.now.strings)) }
        ensures weighs { IfOk result (λ _. Weighs builder.old builder.new
            (24 + 32 * bytes_in self.now.strings + 36 * length self.now.strings)) }
        ensures passed { IfErr result (λ e. ExceedsLimit builder.old (24 + 32 * bytes_in self.now.strings + 36 * length self.now.strings)
            e) }
        ensures groups { IfOk result (λ _. builder.new.groups ≡ builder.old.groups) }
        ensures refused { IfErr result (λ e. Quits builder.old builder.new (1 + 2 * bytes_in self.now.strings) e) }
    {
        let strings = self.texts(alloc)?;
        let all = compile_strings(builder, alloc, strings)?;
        Ok(all)
    }
}
