ghost use Rattle.std.specs.Prelude.{◌≡◌, [], ◌≤◌, IfOk, IfSome, IsTrue, option_map, string_bytes};
ghost use Rattle.hir_core.specs.Tree.{empty, literal, byte_class, char_class, look, repetition, capture, concat, alternation};
ghost use Rattle.hir_core.specs.Facts.{facts, height, count, is_ascending, IsWellFormed};
ghost use Rattle.hir_core.specs.Node.{node};

use crate::class_facts::sequence_count;
use crate::facts::{alternation_count, concat_count, height_over, repetition_count};
use crate::properties::Properties;
use look_core::Look;
use std::alloc::{AllocError, Global};
use std::marker::Model;

/// A pattern as an expression tree, kept as given, after `regex_syntax::hir::Hir`. Its facts are computed
/// once, when it is made, so returning them takes constant time.
#[cycle(hir)]
#[derive(Debug, Drop)]
pub struct Hir {
    kind: HirKind,
    properties: Properties,
    height: usize,
    count: usize,
}

/// The node at the top of a tree. As `regex_syntax::hir::HirKind`.
#[cycle(hir)]
#[derive(Debug, Drop)]
pub enum HirKind {
    /// The empty string.
    Empty,
    /// These bytes, one after the other.
    Literal(Vec<u8>),
    /// One byte of one of the ranges, whose ends belong to them. If there is no range, the class matches
    /// nothing.
    Bytes(Vec<(u8, u8)>),
    /// The UTF-8 of one scalar of one of the ranges, whose ends belong to them. If there is no range, the
    /// class matches nothing.
    Chars(Vec<(char, char)>),
    /// No byte, at an offset where the look holds.
    Look(Look),
    /// At least `min` and at most `max` rounds of `sub`. If `max` is `None`, there is no upper bound. More
    /// rounds are preferred if `greedy` is true, and fewer if it is false.
    Repetition {
        min: u32,
        max: Option<u32>,
        greedy: bool,
        sub: Box<Hir>,
    },
    /// What `sub` matches, with its span recorded as the group with this index and, if it has one, this name.
    Capture {
        index: u32,
        name: Option<String>,
        sub: Box<Hir>,
    },
    /// The parts, one after the other.
    Concat(Vec<Hir>),
    /// One of the parts, an earlier one preferred.
    Alternation(Vec<Hir>),
}

impl Model for Hir {
    ghost use Rattle.hir_core.specs.Tree.{Tree};
    ghost use Rattle.hir_core.specs.TreeCode.{tree_code};

    ghost Value = { Tree };

    ghost coded = { tree_code };

    ghost use Rattle.hir_core.specs.Facts.{KeepsFacts};
    ghost use Rattle.hir_core.specs.Weight.{weight};
    ghost use Rattle.hir_core.specs.Node.{node};

    ghost view = { λ a. node a.kind };

    ghost invariant = { λ a. KeepsFacts (node a.kind) a.properties a.height a.count };

    ghost size = { weight };

    ghost use Rattle.hir_core.specs.Falls.{deep-Hir-le-weight};

    ghost size_decreases = { λ a h. deep-Hir-le-weight a };
}

impl Hir {
    /// The tree of the empty string.
    pub fn empty() -> Hir
        ensures { result ≡ empty }
    {
        Hir {
            kind: HirKind::Empty,
            properties: Properties::of_empty(),
            height: 1,
            count: 1,
        }
    }

    /// The tree that matches no span: a byte class without a range.
    pub fn fail(alloc: Global) -> Hir
        ensures { result ≡ byte_class [] }
    {
        Hir::bytes(Vec::new(alloc))
    }

    /// These bytes, one after the other.
    pub fn literal(bytes: Vec<u8>) -> Hir
        ensures { result ≡ literal bytes.items }
    {
        let properties = Properties::of_literal(&bytes);
        let count = bytes.len().saturating_mul(2).saturating_add(1);
        Hir {
            kind: HirKind::Literal(bytes),
            properties,
            height: 1,
            count,
        }
    }

    /// One byte of one of the ranges. Both ends of a range belong to it. The ranges have to be ascending and
    /// disjoint, which [`is_ascending`](crate::is_ascending) checks.
    pub fn bytes(ranges: Vec<(u8, u8)>) -> Hir
        requires { IsTrue (is_ascending ranges.items) }
        ensures { result ≡ byte_class ranges.items }
    {
        let properties = Properties::of_bytes(&ranges);
        Hir {
            kind: HirKind::Bytes(ranges),
            properties,
            height: 1,
            count: 2,
        }
    }

    /// The UTF-8 of one scalar of one of the ranges. Both ends of a range belong to it. The ranges have to be
    /// ascending and disjoint, which [`is_ascending_chars`](crate::is_ascending_chars) checks.
    pub fn chars(ranges: Vec<(char, char)>) -> Hir
        requires { IsTrue (is_ascending ranges.items) }
        ensures { result ≡ char_class ranges.items }
    {
        let properties = Properties::of_chars(&ranges);
        let count = sequence_count(&ranges).saturating_mul(4).saturating_add(2);
        Hir {
            kind: HirKind::Chars(ranges),
            properties,
            height: 1,
            count,
        }
    }

    /// No byte, at an offset where the look holds.
    pub fn look(assertion: Look) -> Hir
        ensures { result ≡ look assertion }
    {
        Hir {
            kind: HirKind::Look(assertion),
            properties: Properties::of_look(assertion),
            height: 1,
            count: 1,
        }
    }

    /// At least `min` and at most `max` rounds of `sub`. If `max` is `None`, there is no upper bound. If
    /// `greedy` is true, more rounds are preferred. `min` has to be at most `max`. The call fails only if it
    /// is out of memory, and then `sub` is dropped.
    pub fn repetition(
        alloc: Global,
        min: u32,
        max: Option<u32>,
        greedy: bool,
        sub: Hir,
    ) -> Result<Hir, AllocError>
        requires { IfSome max (λ most. min ≤ most) }
        ensures { IfOk result (λ x. x ≡ repetition min max greedy sub) }
    {
        let properties = sub.properties.repeated(min, max);
        let height = sub.height.saturating_add(1);
        let count = repetition_count(min as usize, max, sub.count);
        Ok(Hir {
            kind: HirKind::Repetition {
                min,
                max,
                greedy,
                sub: Box::new(alloc, sub)?,
            },
            properties,
            height,
            count,
        })
    }

    /// What `sub` matches, with its span recorded as the group with this index and, if it has one, this name.
    /// The call fails only if it is out of memory, and then `sub` is dropped.
    pub fn capture(
        alloc: Global,
        index: u32,
        name: Option<String>,
        sub: Hir,
    ) -> Result<Hir, AllocError>
        ensures { IfOk result (λ x. x ≡ capture index (option_map string_bytes name) sub) }
    {
        let properties = sub.properties;
        let height = sub.height.saturating_add(1);
        let count = sub.count.saturating_add(2);
        Ok(Hir {
            kind: HirKind::Capture {
                index,
                name,
                sub: Box::new(alloc, sub)?,
            },
            properties,
            height,
            count,
        })
    }

    /// The parts, one after the other. Without parts, this is the empty string.
    pub fn concat(subs: Vec<Hir>) -> Hir
        ensures { result ≡ concat subs.items }
    {
        let properties = Properties::of_concat(&subs);
        let height = height_over(&subs);
        let count = concat_count(&subs);
        Hir {
            kind: HirKind::Concat(subs),
            properties,
            height,
            count,
        }
    }

    /// One of the parts, an earlier one preferred. Without parts, this matches nothing.
    pub fn alternation(subs: Vec<Hir>) -> Hir
        ensures { result ≡ alternation subs.items }
    {
        let properties = Properties::of_alternation(&subs);
        let height = height_over(&subs);
        let count = alternation_count(&subs);
        Hir {
            kind: HirKind::Alternation(subs),
            properties,
            height,
            count,
        }
    }

    /// The node at the top, as it was given.
    pub fn kind(&self) -> &HirKind
        ensures is { node result.now ≡ self.now }
        ensures well_formed { IsWellFormed self.now }
    {
        &self.kind
    }

    /// The facts of the tree, which are known without a haystack.
    pub fn properties(&self) -> Properties
        ensures { result ≡ facts self.now }
    {
        self.properties
    }

    /// The height of the tree: 1 for a leaf, otherwise one more than that of the highest part.
    pub fn height(&self) -> usize
        ensures { result ≡ height self.now }
    {
        self.height
    }

    /// An upper bound on the number of states of an automaton for the tree:
    ///
    /// - for the empty pattern and for a look, 1;
    /// - for a literal of k bytes, 2k + 1;
    /// - for a byte class, 2;
    /// - for a class of scalars, 2 and four times the number of its sequences of byte ranges;
    /// - for a capture, 2 and the count of its body;
    /// - for a concatenation, 1 and the sum of its parts;
    /// - for an alternation, 4 and the sum of its parts;
    /// - for a repetition up to `max`, `min` copies of its body, one more than a copy for each further round,
    ///   and 1;
    /// - for a repetition without a bound, `min` copies of its body, at least one, and 3.
    ///
    /// Sums stop at `usize::MAX`.
    pub fn count(&self) -> usize
        ensures { result ≡ count self.now }
    {
        self.count
    }

    /// A copy of the tree. The call fails only if it is out of memory.
    #[cycle(try_clone)]
    pub fn try_clone(&self, alloc: Global) -> Result<Hir, AllocError>
        ensures { IfOk result (λ x. x ≡ self.now) }
    {
        Ok(Hir {
            kind: clone_kind(&self.kind, alloc)?,
            properties: self.properties,
            height: self.height,
            count: self.count,
        })
    }
}

#[cycle(try_clone)]
fn clone_kind(kind: &HirKind, alloc: Global) -> Result<HirKind, AllocError>
    ensures { IfOk result (λ copy. node copy ≡ node kind.now) }
{
    Ok(match kind {
        HirKind::Empty => HirKind::Empty,
        HirKind::Literal(bytes) => HirKind::Literal(bytes.to_vec(alloc)?),
        HirKind::Bytes(ranges) => HirKind::Bytes(ranges.to_vec(alloc)?),
        HirKind::Chars(ranges) => HirKind::Chars(ranges.to_vec(alloc)?),
        HirKind::Look(look) => HirKind::Look(*look),
        HirKind::Repetition {
            min,
            max,
            greedy,
            sub,
        } => HirKind::Repetition {
            min: *min,
            max: *max,
            greedy: *greedy,
            sub: Box::new(alloc, sub.try_clone(alloc)?)?,
        },
        HirKind::Capture { index, name, sub } => HirKind::Capture {
            index: *index,
            name: clone_name(name, alloc)?,
            sub: Box::new(alloc, sub.try_clone(alloc)?)?,
        },
        HirKind::Concat(subs) => HirKind::Concat(clone_all(subs, alloc)?),
        HirKind::Alternation(subs) => HirKind::Alternation(clone_all(subs, alloc)?),
    })
}

fn clone_name(name: &Option<String>, alloc: Global) -> Result<Option<String>, AllocError>
    ensures { IfOk result (λ copy. option_map string_bytes copy ≡ option_map string_bytes name.now) }
{
    match name {
        None => Ok(None),
        Some(name) => Ok(Some(String::from_str(alloc, name)?)),
    }
}

#[cycle(try_clone)]
fn clone_all(subs: &[Hir], alloc: Global) -> Result<Vec<Hir>, AllocError>
    ensures { IfOk result (λ copies. copies.items ≡ subs.now) }
{
    let mut copies = Vec::new(alloc);
    for sub in subs {
        copies.push(sub.try_clone(alloc)?)?;
    }
    Ok(copies)
}
