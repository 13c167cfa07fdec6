//! How the matches of a regex are found, which is decided when it is made.
ghost use Rattle.std.specs.Prelude.{◌≤◌, ◌∷◌, [], IfSome, List, length};
ghost use Rattle.hir_core.specs.Tree.{Tree, alternation};
ghost use Rattle.literal_search.specs.Searches.{IsBegunBy};
ghost use Rattle.meta_regex.specs.Starts.{DescribesStarts};
ghost use Rattle.meta_regex.specs.Ways.{IsNextOf, IsSequenceOfTrees, IsWayOf};

use crate::first_bytes::set_of_first_bytes;
use crate::literal_starts::LiteralStarts;
use crate::runs::{NextRun, Run, flags_of, run_of_only};
use crate::sequences::Sequence;
use crate::splitting::parts_of;
use hir_core::Hir;
use literal_search::{CandidateFinder, Effort};
use std::alloc::Global;

/// How matches are found.
#[derive(Drop)]
pub(crate) enum Way {
    /// By automata, which begin where literals or first bytes say.
    Automata,
    /// The only pattern is a run of a class.
    Run(Run),
    /// The only pattern is literals and rounds of classes, one after the other.
    Sequence(Sequence),
}

/// The sequence that the only tree is, if there is one tree, it is one, and it has no empty span.
fn sequence_of_only(alloc: Global, trees: &[Hir]) -> Option<Sequence>
    ensures { IfSome result (λ s. IsSequenceOfTrees s trees.now) }
{
    let Some((tree, others)) = trees.split_first() else {
        return None;
    };
    if !others.is_empty() {
        return None;
    }
    let Some(parts) = parts_of(alloc, tree) else {
        return None;
    };
    let Some(first) = set_of_first_bytes(trees) else {
        return None;
    };
    Some(Sequence {
        parts,
        first,
        starts: regex_literal::ByteSet::new(&flags_of(&first)),
    })
}

/// Whether a search may begin at the start of a line with a literal.
fn begins_at_lines(starts: &LiteralStarts) -> bool {
    match starts {
        LiteralStarts::InLine(_) => true,
        LiteralStarts::Begins(_) | LiteralStarts::FirstByte(_) | LiteralStarts::Unknown => false,
    }
}

/// The literals with which each match begins, if these are known.
#[inline(always)]
fn literals_of(starts: &LiteralStarts) -> Option<&CandidateFinder>
    ensures { (x : Tree) → DescribesStarts starts.now (alternation (x ∷ [])) → IfSome result (λ f. IsBegunBy f.now x) }
{
    match starts {
        LiteralStarts::Begins(finder) => Some(finder),
        LiteralStarts::InLine(_) | LiteralStarts::FirstByte(_) | LiteralStarts::Unknown => None,
    }
}

impl Way {
    /// How the matches of these trees are found, if literals say this of where they start. `short` says whether a try to match at one offset
    /// is expected to read few bytes. If it isn't, a try in vain may read all of a haystack, so none is made.
    pub(crate) fn of(alloc: Global, trees: &[Hir], starts: &LiteralStarts, short: bool) -> Way
        ensures { IsWayOf result trees.now }
    {
        if let Some(run) = run_of_only(alloc, trees) {
            return Way::Run(run);
        }
        if !short || begins_at_lines(starts) {
            return Way::Automata;
        }
        match sequence_of_only(alloc, trees) {
            Some(sequence) => Way::Sequence(sequence),
            None => Way::Automata,
        }
    }

    /// The next match from this offset on, or where automata have to begin.
    #[inline(always)]
    pub(crate) fn next(
        &self,
        starts: &LiteralStarts,
        effort: &mut Effort,
        haystack: &[u8],
        from: usize,
    ) -> NextRun
        requires { from ≤ length haystack.now }
        ensures { (trees : List Tree) → IsWayOf self.now trees → DescribesStarts starts.now (alternation trees) →
            IsNextOf trees haystack.now from result }
    {
        match self {
            Way::Automata => NextRun::From(from),
            Way::Run(run) => run.next(haystack, from),
            Way::Sequence(sequence) => sequence.next(literals_of(starts), effort, haystack, from),
        }
    }
}
