//! Templates, which write what they stand for at a match.
ghost use Rattle.std.specs.Prelude.{◌≡◌, ◌≤◌, ◌++◌, ◌∷◌, [], ℕ, List, IfOk, IfSome, OnOk, OnErr, length, take};
ghost use Rattle.templates.specs.Expansion.{IsLiteral, IsReadFrom, greatest_group, piece_text, pieces_text, template_text, text_or_none};
ghost use Rattle.templates.specs.Reading.{AreReadFrom};
ghost use Rattle.templates.specs.Slots.{group_in};
ghost use Rattle.templates.specs.declared.template.Piece.{Piece as PieceModel};

use crate::reading::{Step, step_at};
use crate::slots::group_in;
use group_finder::GroupNames;
use std::alloc::{AllocError, Global};

/// A part of a template.
#[derive(Drop)]
pub(crate) enum Piece {
    /// These bytes.
    Literal(Vec<u8>),
    /// What the group with this number matched, or nothing.
    Group(usize),
}

/// A replacement text that was read. It writes what it stands for at each match.
#[derive(Drop)]
pub struct Template {
    pub(crate) pieces: Vec<Piece>,
}

fn push(pieces: &mut Vec<Piece>, piece: Piece) -> Result<(), AllocError>
    ensures { OnOk result (pieces.new.items ≡ pieces.old.items ++ piece ∷ []) }
{
    pieces.push(piece)?;
    Ok(())
}

/// Adds bytes that stand for themselves.
fn push_literal(alloc: Global, pieces: &mut Vec<Piece>, literal: &[u8]) -> Result<(), AllocError>
    ensures { OnOk result ((group_text : ℕ → List ℕ) →
        pieces_text group_text pieces.new.items ≡ pieces_text group_text pieces.old.items ++ literal.now) }
{
    if literal.is_empty() {
        return Ok(());
    }
    let bytes = Vec::from_slice(alloc, literal)?;
    push(pieces, Piece::Literal(bytes))
}

/// Adds a group, if there is one.
fn push_group(pieces: &mut Vec<Piece>, group: Option<usize>) -> Result<(), AllocError>
    ensures { OnOk result ((group_text : ℕ → List ℕ) →
        pieces_text group_text pieces.new.items ≡ pieces_text group_text pieces.old.items ++ text_or_none group_text group) }
{
    match group {
        Some(number) => push(pieces, Piece::Group(number)),
        None => Ok(()),
    }
}

/// The pieces of a replacement text.
fn pieces_of(
    alloc: Global,
    names: &GroupNames,
    replacement: &[u8],
) -> Result<Vec<Piece>, AllocError>
    ensures { IfOk result (λ v. AreReadFrom names.now replacement.now v.items) }
{
    let mut pieces = Vec::new(alloc);
    let mut at = 0;
    while at < replacement.len() {
        let Step {
            literal,
            group,
            next,
        } = step_at(names, replacement, at);
        push_literal(alloc, &mut pieces, literal)?;
        push_group(&mut pieces, group)?;
        at = next;
    }
    Ok(pieces)
}

/// The bytes that a piece writes for a match with these slots.
#[inline]
fn bytes_of<'a>(piece: &'a Piece, haystack: &'a [u8], slots: &[usize]) -> &'a [u8]
    ensures { result.now ≡ piece_text (group_in haystack.now slots.now) piece.now }
{
    match piece {
        Piece::Literal(bytes) => bytes.as_slice(),
        Piece::Group(group) => group_in(haystack, slots, *group),
    }
}

/// The greatest number of a group, with that of a further piece.
fn with_piece(greatest: Option<usize>, piece: &Piece) -> Option<usize>
    ensures { (pieces : List PieceModel) → greatest ≡ greatest_group pieces → result ≡ greatest_group (piece.now ∷ pieces) }
{
    match piece {
        Piece::Literal(_) => greatest,
        Piece::Group(group) => match greatest {
            Some(other) => Some(other.max(*group)),
            None => Some(*group),
        },
    }
}

impl Template {
    /// Reads a replacement text for a pattern whose groups have these names.
    ///
    /// `$1` and `${1}` stand for the group with this number, `$name` and `${name}` for the first group with this name, and `$$` for a dollar
    /// sign. Without braces, a name is as long as letters, digits and underscores of ASCII follow: `$1a` is `${1a}`. A name that no group has
    /// stands for nothing, and so does the number of a group that isn't there. Any other dollar sign stands for itself, as one before an
    /// opening brace without a closing one.
    pub fn new(
        alloc: Global,
        names: &GroupNames,
        replacement: &[u8],
    ) -> Result<Template, AllocError>
        ensures { IfOk result (IsReadFrom names.now replacement.now) }
    {
        let pieces = pieces_of(alloc, names, replacement)?;
        Ok(Template { pieces })
    }

    /// A template that writes bytes as they are. A dollar sign stands for itself.
    pub fn literal(alloc: Global, bytes: &[u8]) -> Result<Template, AllocError>
        ensures { IfOk result (IsLiteral bytes.now) }
    {
        let mut pieces = Vec::new(alloc);
        push_literal(alloc, &mut pieces, bytes)?;
        Ok(Template { pieces })
    }
}

impl Template {
    /// The greatest number of a group that the template writes, or None if it writes none. What it writes depends on groups up
    /// to this one alone, so a row of slots needs room for no more groups.
    pub fn greatest_group(&self) -> Option<usize>
        ensures greatest { result ≡ greatest_group self.now.pieces.items }
        ensures enough { (a b : ℕ → List ℕ) → IfSome result (λ k. (n : ℕ) → n ≤ k → a n ≡ b n) →
            template_text a self.now ≡ template_text b self.now }
    {
        let mut greatest = None;
        for i in (0..self.pieces.len()).rev() {
            greatest = with_piece(greatest, &self.pieces[i]);
        }
        greatest
    }

    /// Appends the pieces. After an error, some of them may be appended.
    fn append_pieces(
        &self,
        haystack: &[u8],
        slots: &[usize],
        output: &mut Vec<u8>,
    ) -> Result<(), AllocError>
        ensures appended { OnOk result (output.new.items ≡ output.old.items ++ template_text (group_in haystack.now slots.now) self.now) }
        ensures kept { take (length output.old.items) output.new.items ≡ output.old.items }
    {
        for piece in &self.pieces {
            output.extend_from_slice(bytes_of(piece, haystack, slots))?;
        }
        Ok(())
    }

    /// Appends to an output what the template writes for a match with these slots, as [`group_in`] reads them. If memory runs out, the output
    /// is as it was.
    pub fn append(
        &self,
        haystack: &[u8],
        slots: &[usize],
        output: &mut Vec<u8>,
    ) -> Result<(), AllocError>
        ensures appended { OnOk result (output.new.items ≡ output.old.items ++ template_text (group_in haystack.now slots.now) self.now) }
        ensures kept { OnErr result (output.new.items ≡ output.old.items) }
    {
        let before = output.len();
        match self.append_pieces(haystack, slots, output) {
            Ok(()) => Ok(()),
            Err(error) => {
                output.truncate(before);
                Err(error)
            }
        }
    }
}
