//! Laws of trees that are meant for one line and read for a block of lines. Each function has no code: its contract is the law.
ghost use Rattle.std.specs.Prelude.{◌≡◌, ◌↔◌, ◌≤◌, ◌+◌, ℕ, Bool, false, true, List, length};
ghost use Rattle.look_core.specs.Codes.{is_anchor_crlf};
ghost use Rattle.look_core.specs.Looks.{IsWordSet};
ghost use Rattle.look_core.specs.declared.look.Look.{Look};
ghost use Rattle.hir_core.specs.Facts.{minimum_len, LoopsRead};
ghost use Rattle.hir_core.specs.Means.{Looks, Means};
ghost use Rattle.hir_core.specs.Tree.{Tree};
ghost use Rattle.line_trees.specs.LineTrees.{line_look, line_tree, has_crlf, IsLineBetween, block_of, line_looks};
ghost use Rattle.line_trees.specs.LineTrees.{MeansInBlock, MeansInLine, HasMatch};
ghost use Rattle.line_trees.specs.LineTrees.{reads_feed, HasNoFeedFrom};
ghost use Rattle.line_trees.specs.WordlessTrees.{wordless_tree};

/// At each offset of a line, every look except the two at carriage returns holds in the line exactly if its line look holds in the block.
/// If a carriage return belongs to the end of a line, one direction remains: if the look holds in the line, its line look holds in the
/// block.
#[tactic(auto, using(crate::proofs::LineLookLemmas::same_looks, crate::proofs::LineLookLemmas::looks_go_on))]
pub fn line_looks_hold_in_the_block()
    ensures same { (words : ℕ → Bool) (before line after : List ℕ) (l : Look) (i : ℕ) → IsWordSet words →
        IsLineBetween false before line after → is_anchor_crlf l ≡ false → i ≤ length line →
        line_looks words line l i ≡ line_looks words (block_of before line after) (line_look false l) (length before + i) }
    ensures at_least { (crlf : Bool) (words : ℕ → Bool) (before line after : List ℕ) (l : Look) (i : ℕ) → IsWordSet words →
        IsLineBetween crlf before line after → is_anchor_crlf l ≡ false → i ≤ length line → line_looks words line l i ≡ true →
        line_looks words (block_of before line after) (line_look crlf l) (length before + i) ≡ true }
{}

/// What a tree matches in a line, its line tree matches in each block with that line, at the same bytes. So if a line has a match, the
/// block has one. If a block has a match, no line need have one, since the match may reach over the ends of lines.
#[tactic(auto, using(crate::proofs::MeaningLemmas::means_in_block, crate::proofs::MeaningLemmas::match_in_block))]
pub fn a_line_with_a_match_is_a_block_with_one()
    ensures spans { (crlf : Bool) (words : ℕ → Bool) (before line after : List ℕ) (x : Tree) → IsWordSet words →
        IsLineBetween crlf before line after → has_crlf x ≡ false → MeansInBlock crlf words before line after x }
    ensures found { (crlf : Bool) (words : ℕ → Bool) (before line after : List ℕ) (x : Tree) → IsWordSet words →
        IsLineBetween crlf before line after → has_crlf x ≡ false → HasMatch (line_looks words line) line x →
        HasMatch (line_looks words (block_of before line after)) (block_of before line after) (line_tree crlf x) }
{}

/// A match of the line tree in the block that reaches over no end of a line is a match of the tree in that line, if only a line feed ends
/// lines.
#[tactic(auto, using(crate::proofs::WithinLemmas::means_in_line))]
pub fn a_match_within_a_line_is_one_of_the_line()
    ensures { (words : ℕ → Bool) (before line after : List ℕ) (x : Tree) → IsWordSet words → IsLineBetween false before line after →
        has_crlf x ≡ false → MeansInLine words before line after x }
{}

/// If a tree consumes no line feed, none is among the bytes of its matches, in any haystack. So a match of its line tree in a block lies in
/// one line.
#[tactic(auto, using(crate::proofs::FeedLemmas::reads_none))]
pub fn a_match_that_reads_no_feed_lies_in_one_line()
    ensures { (looks : Looks) (h : List ℕ) (x : Tree) (s e : ℕ) → reads_feed x ≡ false → Means looks h x s e → HasNoFeedFrom h s e }
{}

/// Line trees preserve three facts of the tree. The minimum length is equal. The body of every unbounded repetition consumes at least one
/// byte exactly if that holds for the tree. A line tree can consume a line feed exactly if the tree can.
#[tactic(auto, using(crate::proofs::KeptLemmas::minimum_kept, crate::proofs::KeptLemmas::loops_kept, crate::proofs::KeptLemmas::feeds_kept))]
pub fn line_trees_read_as_much()
    ensures least { (crlf : Bool) (x : Tree) → minimum_len (line_tree crlf x) ≡ minimum_len x }
    ensures loops { (crlf : Bool) (x : Tree) → LoopsRead (line_tree crlf x) ↔ LoopsRead x }
    ensures feeds { (crlf : Bool) (x : Tree) → reads_feed (line_tree crlf x) ≡ reads_feed x }
{}

/// Without its looks at words by characters, a tree matches at least the spans that it matches. It has a look at carriage returns only if
/// the tree has one, and can consume a line feed exactly if the tree can.
#[tactic(auto, using(crate::proofs::WordlessLemmas::means_wordless, crate::proofs::WordlessLemmas::returns_wordless, crate::proofs::WordlessLemmas::feeds_wordless))]
pub fn a_wordless_tree_matches_as_much()
    ensures spans { (looks : Looks) (h : List ℕ) (x : Tree) (s e : ℕ) → Means looks h x s e → Means looks h (wordless_tree x) s e }
    ensures returns { (x : Tree) → has_crlf x ≡ false → has_crlf (wordless_tree x) ≡ false }
    ensures feeds { (x : Tree) → reads_feed (wordless_tree x) ≡ reads_feed x }
{}
