//! Trees that are read for blocks of lines, and the test for trees that have none.
ghost use Rattle.std.specs.Prelude.{◌≡◌, ◌==◌, IfOk, map, option_map, string_bytes};
ghost use Rattle.std.specs.List.{list_any};
ghost use Rattle.look_core.specs.Codes.{is_anchor_crlf};
ghost use Rattle.hir_core.specs.Tree.{concat, alternation};
ghost use Rattle.hir_core.specs.Means.{is_member};
ghost use Rattle.line_trees.specs.LineTrees.{line_end, line_look, line_tree, has_crlf, reads_feed};

use hir_core::{Hir, HirKind};
use look_core::Look;
use std::alloc::{AllocError, Global};

/// The look at the end of a line in a block. With `crlf`, a carriage return right before the line feed belongs to the end of the line.
pub fn line_end(crlf: bool) -> Look
    ensures { result ≡ line_end crlf }
{
    if crlf { Look::EndCRLF } else { Look::EndLF }
}

/// The look that holds in a block of lines if this one holds in a line of it.
pub fn line_look(look: Look, crlf: bool) -> Look
    ensures { result ≡ line_look crlf look }
{
    match look {
        Look::Start => Look::StartLF,
        Look::End | Look::EndLF => line_end(crlf),
        other => other,
    }
}

/// A copy of the name, if there is one.
pub(crate) fn copied(alloc: Global, name: &Option<String>) -> Result<Option<String>, AllocError>
    ensures { IfOk result (λ copy. option_map string_bytes copy ≡ option_map string_bytes name.now) }
{
    match name {
        None => Ok(None),
        Some(name) => Ok(Some(String::from_str(alloc, name)?)),
    }
}

/// The tree with each of its looks replaced by its line look. What the tree matches in a line, the line tree matches in each block with
/// that line ([`a_line_with_a_match_is_a_block_with_one`](crate::laws::a_line_with_a_match_is_a_block_with_one)). The only error is a
/// failed allocation.
#[cycle(line_tree)]
pub fn line_tree(alloc: Global, x: &Hir, crlf: bool) -> Result<Hir, AllocError>
    ensures { IfOk result (λ y. y ≡ line_tree crlf x.now) }
{
    match x.kind() {
        HirKind::Empty | HirKind::Literal(_) | HirKind::Bytes(_) | HirKind::Chars(_) => {
            let y = x.try_clone(alloc)?;
            Ok(y)
        }
        HirKind::Look(look) => Ok(Hir::look(line_look(*look, crlf))),
        HirKind::Repetition {
            min,
            max,
            greedy,
            sub,
        } => {
            let body = line_tree(alloc, sub, crlf)?;
            let y = Hir::repetition(alloc, *min, *max, *greedy, body)?;
            Ok(y)
        }
        HirKind::Capture { index, name, sub } => {
            let body = line_tree(alloc, sub, crlf)?;
            let y = Hir::capture(alloc, *index, copied(alloc, name)?, body)?;
            Ok(y)
        }
        HirKind::Concat(subs) => Ok(Hir::concat(all_line_trees(alloc, subs, crlf)?)),
        HirKind::Alternation(subs) => Ok(Hir::alternation(all_line_trees(alloc, subs, crlf)?)),
    }
}

/// The line trees of these trees, in their order.
#[cycle(line_tree)]
pub fn all_line_trees(alloc: Global, xs: &[Hir], crlf: bool) -> Result<Vec<Hir>, AllocError>
    ensures { IfOk result (λ ys. ys.items ≡ map (line_tree crlf) xs.now) }
{
    let mut ys = Vec::new(alloc);
    for x in xs {
        ys.push(line_tree(alloc, x, crlf)?)?;
    }
    Ok(ys)
}

fn knows_crlf(look: Look) -> bool
    ensures { result ≡ is_anchor_crlf look }
{
    match look {
        Look::StartCRLF | Look::EndCRLF => true,
        _ => false,
    }
}

/// Whether the tree has a look that knows carriage returns, so that the laws say nothing of its line tree.
#[cycle(has_crlf)]
pub fn has_crlf(x: &Hir) -> bool
    ensures { result ≡ has_crlf x.now }
{
    match x.kind() {
        HirKind::Empty | HirKind::Literal(_) | HirKind::Bytes(_) | HirKind::Chars(_) => false,
        HirKind::Look(look) => knows_crlf(*look),
        HirKind::Repetition { sub, .. } => has_crlf(sub),
        HirKind::Capture { sub, .. } => has_crlf(sub),
        HirKind::Concat(subs) => any_has_crlf(subs),
        HirKind::Alternation(subs) => any_has_crlf(subs),
    }
}

/// Whether one of the trees has such a look.
#[cycle(has_crlf)]
pub fn any_has_crlf(xs: &[Hir]) -> bool
    ensures any { result ≡ list_any has_crlf xs.now }
    ensures concat { result ≡ has_crlf (concat xs.now) }
    ensures alternation { result ≡ has_crlf (alternation xs.now) }
{
    for x in xs {
        if has_crlf(x) {
            return true;
        }
    }
    false
}

fn has_feed(bytes: &[u8]) -> bool
    ensures { result ≡ list_any (λ b. b == 0x0A) bytes.now }
{
    bytes.contains(&b'\n')
}

fn has_feed_byte(ranges: &[(u8, u8)]) -> bool
    ensures { result ≡ is_member ranges.now 0x0A }
{
    ranges
        .iter()
        .any(|range| range.0 <= b'\n' && b'\n' <= range.1)
}

fn has_feed_char(ranges: &[(char, char)]) -> bool
    ensures { result ≡ is_member ranges.now 0x0A }
{
    ranges
        .iter()
        .any(|range| range.0 <= '\n' && '\n' <= range.1)
}

/// Whether the tree may consume a line feed. What a tree matches that consumes none lies in one line
/// ([`a_match_that_reads_no_feed_lies_in_one_line`](crate::laws::a_match_that_reads_no_feed_lies_in_one_line)).
#[cycle(reads_feed)]
pub fn reads_feed(x: &Hir) -> bool
    ensures { result ≡ reads_feed x.now }
{
    match x.kind() {
        HirKind::Empty | HirKind::Look(_) => false,
        HirKind::Literal(bytes) => has_feed(bytes),
        HirKind::Bytes(ranges) => has_feed_byte(ranges),
        HirKind::Chars(ranges) => has_feed_char(ranges),
        HirKind::Repetition { sub, .. } => reads_feed(sub),
        HirKind::Capture { sub, .. } => reads_feed(sub),
        HirKind::Concat(subs) => any_reads_feed(subs),
        HirKind::Alternation(subs) => any_reads_feed(subs),
    }
}

/// Whether one of the trees may consume a line feed.
#[cycle(reads_feed)]
pub fn any_reads_feed(xs: &[Hir]) -> bool
    ensures any { result ≡ list_any reads_feed xs.now }
    ensures concat { result ≡ reads_feed (concat xs.now) }
    ensures alternation { result ≡ reads_feed (alternation xs.now) }
{
    for x in xs {
        if reads_feed(x) {
            return true;
        }
    }
    false
}
