ghost use Rattle.std.specs.Prelude.{◌≡◌, ◌≤◌, ◌<◌, ◌++◌, ◌∷◌, [], ◌^◌, ℕ, All, IfErr, IfOk, IsTrue, OnOk, decimal, length, map};
ghost use Rattle.std.specs.Prelude.{string_bytes};
ghost use Rattle.std.specs.List.{flat_map};
ghost use Rattle.hir_core.specs.Facts.{is_ascending};
ghost use Rattle.hir_core.specs.Tree.{empty, literal, byte_class, char_class, look};
ghost use Rattle.hirhead.specs.HasLines.{AreScalars, IsShort, FitsIn, AllFit, IsUnfit, AreUnfit};
ghost use Rattle.hirhead.specs.Lines.{byte_item, scalar_item, order_word, rounds_line, lines_of, pattern_lines, after_word, line_text};
ghost use Rattle.hirhead.specs.Lines.{lines_text};

use crate::look_names::look_name;
use hir_core::{Hir, HirKind};
use look_core::Look;
use std::alloc::{AllocError, Global};

/// Why a tree has no lines.
#[derive(Clone, Copy, Debug, PartialEq, Eq)]
pub enum Unfit {
    /// There is no memory left.
    NoMemory,
    /// The tree that the lines make is above 250 nodes high.
    TooDeep,
    /// A concatenation or an alternation has 2^32 parts or more.
    TooManyParts,
}

/// The number of a tree, counted from 0, and why it has no lines.
#[derive(Clone, Copy, Debug, PartialEq, Eq)]
pub struct UnfitTree {
    pub number: usize,
    pub unfit: Unfit,
}

impl From<AllocError> for Unfit {
    ghost use Rattle.std.specs.Prelude.{◌≡◌};
    ghost use Rattle.hirhead.specs.declared.lines.Unfit.TheVariants.{NoMemory};

    ghost from_gives = { λ _ e. e ≡ NoMemory };

    fn from(_e: AllocError) -> Unfit {
        Unfit::NoMemory
    }
}

/// A line of one word.
pub(crate) fn report_word(text: &mut String, word: &str) -> Result<(), AllocError>
    ensures { OnOk result (string_bytes text.new ≡ string_bytes text.old ++ line_text (word.now ∷ [])) }
{
    writeln!(text, "{word}")?;
    Ok(())
}

/// A line of two words.
pub(crate) fn report_words(text: &mut String, word: &str, next: &str) -> Result<(), AllocError>
    ensures { OnOk result (string_bytes text.new ≡ string_bytes text.old ++ line_text (word.now ∷ next.now ∷ [])) }
{
    writeln!(text, "{word} {next}")?;
    Ok(())
}

/// A line of a word and a number.
fn report_number(text: &mut String, word: &str, number: u32) -> Result<(), AllocError>
    ensures { OnOk result (string_bytes text.new ≡ string_bytes text.old ++ line_text (word.now ∷ decimal number ∷ [])) }
{
    writeln!(text, "{word} {number}")?;
    Ok(())
}

#[tactic(auto, using(crate::proofs::TellLemmas::one_line))]
fn report_empty(text: &mut String) -> Result<(), AllocError>
    ensures { OnOk result (string_bytes text.new ≡ string_bytes text.old ++ lines_text (lines_of empty)) }
{
    report_word(text, "empty")?;
    Ok(())
}

/// What a literal has are bytes.
fn see_bytes(bytes: &[u8])
    ensures { All (λ b. b < 256) bytes.now }
{}

#[tactic(auto, using(crate::proofs::TellLemmas::no_literal_text, crate::proofs::TellLemmas::literal_text, crate::proofs::TellLemmas::literal_fits))]
fn report_literal(alloc: Global, text: &mut String, bytes: &[u8]) -> Result<(), AllocError>
    ensures lines { OnOk result (string_bytes text.new ≡ string_bytes text.old ++ lines_text (lines_of (literal bytes.now))) }
    ensures fits { FitsIn 1 (literal bytes.now) }
{
    see_bytes(bytes);
    if bytes.is_empty() {
        report_word(text, "empty")?;
        return Ok(());
    }
    let hex = hex::encode(alloc, bytes)?;
    report_words(text, "lit", hex.as_str())?;
    Ok(())
}

#[tactic(auto, using(crate::proofs::TellLemmas::hex_byte))]
fn push_byte_item(text: &mut String, start: u8, end: u8) -> Result<(), AllocError>
    ensures item { OnOk result (string_bytes text.new ≡ string_bytes text.old ++ 32 ∷ byte_item (start, end)) }
    ensures small { end < 256 }
{
    write!(text, " {start:02X}-{end:02X}")?;
    Ok(())
}

/// The items, and the end of the line.
fn push_byte_items(text: &mut String, ranges: &[(u8, u8)]) -> Result<(), AllocError>
    ensures items { OnOk result (string_bytes text.new ≡ string_bytes text.old ++ after_word (map byte_item ranges.now)) }
    ensures small { IfOk result (λ _. All (λ r. r.1 < 256) ranges.now) }
{
    for range in ranges {
        let (start, end) = *range;
        push_byte_item(text, start, end)?;
    }
    writeln!(text)?;
    Ok(())
}

#[tactic(auto, using(crate::proofs::TellLemmas::no_bytes_text, crate::proofs::TellLemmas::bytes_text, crate::proofs::TellLemmas::bytes_fit))]
fn report_bytes(text: &mut String, ranges: &[(u8, u8)]) -> Result<(), AllocError>
    requires { IsTrue (is_ascending ranges.now) }
    ensures lines { OnOk result (string_bytes text.new ≡ string_bytes text.old ++ lines_text (lines_of (byte_class ranges.now))) }
    ensures fits { IfOk result (λ _. FitsIn 1 (byte_class ranges.now)) }
{
    if ranges.is_empty() {
        report_number(text, "alt", 0)?;
        return Ok(());
    }
    text.push_str("bytes")?;
    push_byte_items(text, ranges)?;
    Ok(())
}

fn push_scalar_item(text: &mut String, start: char, end: char) -> Result<(), AllocError>
    ensures item { OnOk result (string_bytes text.new ≡ string_bytes text.old ++ 32 ∷ scalar_item (start, end)) }
    ensures scalars { AreScalars (start, end) }
{
    let low = u32::from(start);
    let high = u32::from(end);
    write!(text, " {low:X}-{high:X}")?;
    Ok(())
}

/// The items, and the end of the line.
fn push_scalar_items(text: &mut String, ranges: &[(char, char)]) -> Result<(), AllocError>
    ensures items { OnOk result (string_bytes text.new ≡ string_bytes text.old ++ after_word (map scalar_item ranges.now)) }
    ensures scalars { IfOk result (λ _. All AreScalars ranges.now) }
{
    for range in ranges {
        let (start, end) = *range;
        push_scalar_item(text, start, end)?;
    }
    writeln!(text)?;
    Ok(())
}

#[tactic(auto, using(crate::proofs::TellLemmas::no_chars_text, crate::proofs::TellLemmas::chars_text, crate::proofs::TellLemmas::chars_fit))]
fn report_chars(text: &mut String, ranges: &[(char, char)]) -> Result<(), AllocError>
    requires { IsTrue (is_ascending ranges.now) }
    ensures lines { OnOk result (string_bytes text.new ≡ string_bytes text.old ++ lines_text (lines_of (char_class ranges.now))) }
    ensures fits { IfOk result (λ _. FitsIn 1 (char_class ranges.now)) }
{
    if ranges.is_empty() {
        report_number(text, "alt", 0)?;
        return Ok(());
    }
    text.push_str("chars")?;
    push_scalar_items(text, ranges)?;
    Ok(())
}

#[tactic(auto, using(crate::proofs::TellLemmas::one_line))]
fn report_look(text: &mut String, assertion: Look) -> Result<(), AllocError>
    ensures { OnOk result (string_bytes text.new ≡ string_bytes text.old ++ lines_text (lines_of (look assertion))) }
{
    report_words(text, "look", look_name(assertion))?;
    Ok(())
}

fn order_word(greedy: bool) -> &'static str
    ensures { result.now ≡ order_word greedy }
{
    if greedy { "greedy" } else { "lazy" }
}

fn report_rounds(
    text: &mut String,
    min: u32,
    max: Option<u32>,
    greedy: bool,
) -> Result<(), AllocError>
    ensures lines { OnOk result (string_bytes text.new ≡ string_bytes text.old ++ line_text (rounds_line min max greedy)) }
    ensures short { (min < 2 ^ 32) × IsShort max }
{
    let order = order_word(greedy);
    match max {
        None => {
            writeln!(text, "rep {min} inf {order}")?;
            Ok(())
        }
        Some(max) => {
            writeln!(text, "rep {min} {max} {order}")?;
            Ok(())
        }
    }
}

/// How many parts stand in a row.
fn count_of(subs: &[Hir]) -> Result<u32, Unfit>
    ensures count { IfOk result (λ count. count ≡ length subs.now) }
    ensures few { IfOk result (λ count. count < 2 ^ 32) }
    ensures refused { IfErr result (λ e. (e ≡ Unfit.TooManyParts) × (2 ^ 32 ≤ length subs.now)) }
{
    if subs.len() > u32::MAX as usize {
        return Err(Unfit::TooManyParts);
    }
    Ok(subs.len() as u32)
}

/// Appends the lines of the tree, where they make one of at most so many levels.
#[cycle(tell)]
fn tell(alloc: Global, text: &mut String, x: &Hir, levels: u8) -> Result<(), Unfit>
    ensures lines { OnOk result (string_bytes text.new ≡ string_bytes text.old ++ lines_text (lines_of x.now)) }
    ensures fits { IfOk result (λ _. FitsIn levels x.now) }
    ensures refused { IfErr result (λ e. IsUnfit levels x.now e) }
{
    if levels == 0 {
        return Err(Unfit::TooDeep);
    }
    match x.kind() {
        HirKind::Empty => Ok(report_empty(text)?),
        HirKind::Literal(bytes) => Ok(report_literal(alloc, text, bytes)?),
        HirKind::Bytes(ranges) => Ok(report_bytes(text, ranges)?),
        HirKind::Chars(ranges) => Ok(report_chars(text, ranges)?),
        HirKind::Look(look) => Ok(report_look(text, *look)?),
        HirKind::Repetition {
            min,
            max,
            greedy,
            sub,
        } => {
            tell(alloc, text, sub, levels - 1)?;
            report_rounds(text, *min, *max, *greedy)?;
            Ok(())
        }
        HirKind::Capture { sub: body, .. } => {
            tell(alloc, text, body, levels)?;
            Ok(())
        }
        HirKind::Concat(subs) => {
            let count = count_of(subs)?;
            report_parts(alloc, text, subs, levels - 1)?;
            report_number(text, "cat", count)?;
            Ok(())
        }
        HirKind::Alternation(subs) => {
            let count = count_of(subs)?;
            report_parts(alloc, text, subs, levels - 1)?;
            report_number(text, "alt", count)?;
            Ok(())
        }
    }
}

/// Appends the lines of each tree, one after the other.
#[cycle(tell)]
fn report_parts(alloc: Global, text: &mut String, subs: &[Hir], levels: u8) -> Result<(), Unfit>
    ensures lines { OnOk result (string_bytes text.new ≡ string_bytes text.old ++ lines_text (flat_map lines_of subs.now)) }
    ensures fits { IfOk result (λ _. AllFit levels subs.now) }
    ensures refused { IfErr result (λ e. (n : ℕ) × AreUnfit levels subs.now n e) }
{
    for sub in subs {
        tell(alloc, text, sub, levels)?;
    }
    Ok(())
}

/// The height up to which the notation makes trees.
const LEVELS: u8 = 250;

/// The lines of one pattern, with the one that takes it.
fn report_pattern(alloc: Global, text: &mut String, x: &Hir) -> Result<(), Unfit>
    ensures lines { OnOk result (string_bytes text.new ≡ string_bytes text.old ++ lines_text (pattern_lines (x.now ∷ []))) }
    ensures fits { IfOk result (λ _. FitsIn 250 x.now) }
    ensures refused { IfErr result (λ e. IsUnfit 250 x.now e) }
{
    tell(alloc, text, x, LEVELS)?;
    report_word(text, "pattern")?;
    Ok(())
}

/// The lines of all patterns.
pub(crate) fn report_patterns(
    alloc: Global,
    text: &mut String,
    trees: &[Hir],
) -> Result<(), UnfitTree>
    ensures lines { OnOk result (string_bytes text.new ≡ string_bytes text.old ++ lines_text (pattern_lines trees.now)) }
    ensures fits { IfOk result (λ _. AllFit 250 trees.now) }
    ensures refused { IfErr result (λ e. AreUnfit 250 trees.now e.number e.unfit) }
{
    for (number, tree) in trees.iter().enumerate() {
        match report_pattern(alloc, text, tree) {
            Ok(()) => {}
            Err(unfit) => return Err(UnfitTree { number, unfit }),
        }
    }
    Ok(())
}
