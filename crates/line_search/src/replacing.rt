//! Replaces the matches of a line by what a template writes.
ghost use Rattle.std.specs.Prelude.{◌≡◌, ◌≤◌, ◌<◌, ◌==◌, ◌+◌, ◌-◌, ◌*◌, ◌^◌, ◌∷◌, ◌++◌, [], All, List, Some, IfOk, IfSome, OnOk, length, map, option_map, slice_range};
ghost use Rattle.regex_hir.specs.Re.{Re, accept, attempt};
ghost use Rattle.regex_hir.specs.Find.{Match, find, find_after};
ghost use Rattle.regex_meta.specs.Programs.{pattern_of};
ghost use Rattle.regex_vm.specs.Found.{group_cells};
ghost use Rattle.regex_syntax.specs.Captures.{SameCaptures};
ghost use Rattle.group_finder.specs.Slots.{offset_of_cell};
ghost use Rattle.pattern_search.specs.Searches.{span_of_match};
ghost use Rattle.pattern_search.specs.Texts.{AreReadAs};
ghost use Rattle.line_search.specs.Bounded.{line_pattern};
ghost use Rattle.line_search.specs.Fallbacks.{IsProgramOf};
ghost use Rattle.line_search.specs.Groups.{AreSlots, HasGroups, comes};
ghost use Rattle.line_search.specs.Meant.{line_config};
ghost use Rattle.line_search.specs.LineMatchers.{span_pair};
ghost use Rattle.line_search.specs.Replacing.{all_names, most_groups, written_for};
ghost use Rattle.line_search.specs.Searchers.{AreReplaced};

use crate::fault::Fault;
use crate::pattern_groups::PatternGroups;
use group_finder::NO_OFFSET;
use hir_regex::see_bytes;
use pattern_fallback::ends_at;
use regex_meta::Searcher;
use search_types::Span;
use std::alloc::{AllocError, Global};
use templates::{Template, bytes_between};

/// A line with its matches replaced.
#[derive(Drop)]
pub struct Replaced {
    pub bytes: Vec<u8>,
    /// Where what replaces the matches is.
    pub spans: Vec<Span>,
}

/// The match from an offset on. The cells get its groups.
fn capture_from(
    searcher: &mut Searcher<'_>,
    line: &[u8],
    start: usize,
    cells: &mut [usize],
) -> Option<Span>
    requires start { start ≤ length line.now }
    requires width { length cells.old ≤ searcher.old.program.now.dfa.nfa.slot_count - 2 }
    ensures same { searcher.new.program.now ≡ searcher.old.program.now }
    ensures found { (a : Re) → SameCaptures (pattern_of searcher.old.program.now) a →
        HasGroups (find a line.now start) (option_map span_pair result) cells.new }
{
    see_bytes(line);
    match searcher.captures(line, start, cells) {
        Some((start, end)) => Some(Span { start, end }),
        None => None,
    }
}

/// The next match after one that ended at this offset. The cells get its groups.
fn capture_after(
    searcher: &mut Searcher<'_>,
    line: &[u8],
    end: usize,
    cells: &mut [usize],
) -> Option<Span>
    requires width { length cells.old ≤ searcher.old.program.now.dfa.nfa.slot_count - 2 }
    ensures same { searcher.new.program.now ≡ searcher.old.program.now }
    ensures found { (a : Re) → SameCaptures (pattern_of searcher.old.program.now) a →
        HasGroups (find_after (find a line.now) end) (option_map span_pair result) cells.new }
{
    if end > line.len() {
        return None;
    }
    let next = capture_from(searcher, line, end, cells);
    if !ends_at(next, end) {
        return next;
    }
    if end >= line.len() {
        return None;
    }
    capture_from(searcher, line, end + 1, cells)
}

/// The first match, or the next one after a match that ended at this offset. The cells get its groups.
fn capture_next(
    searcher: &mut Searcher<'_>,
    line: &[u8],
    last: Option<usize>,
    cells: &mut [usize],
) -> Option<Span>
    requires width { length cells.old ≤ searcher.old.program.now.dfa.nfa.slot_count - 2 }
    ensures same { searcher.new.program.now ≡ searcher.old.program.now }
    ensures found { (a : Re) → SameCaptures (pattern_of searcher.old.program.now) a →
        HasGroups (comes (find a line.now) last) (option_map span_pair result) cells.new }
{
    match last {
        Some(end) => capture_after(searcher, line, end, cells),
        None => capture_from(searcher, line, 0, cells),
    }
}

/// The offset in a cell, which holds the offset plus one, or 0 for none.
fn offset(cell: usize) -> usize
    ensures { result ≡ offset_of_cell cell }
{
    if cell == 0 { NO_OFFSET } else { cell - 1 }
}

/// The elements of cells are below 2^64.
fn see_cells(cells: &[usize])
    ensures { All (λ cell. cell < 2 ^ 64) cells.now }
{}

/// The slots of a match with this span and these cells.
fn slots_of(alloc: Global, span: Span, cells: &[usize]) -> Result<Vec<usize>, AllocError>
    ensures { IfOk result (λ v. v.items ≡ span.start ∷ span.end ∷ map offset_of_cell cells.now) }
{
    let mut slots = Vec::new(alloc);
    slots.push(span.start)?;
    slots.push(span.end)?;
    for cell in cells {
        slots.push(offset(*cell))?;
    }
    Ok(slots)
}

/// Appends what a template writes for a match with these slots.
fn append_written(
    alloc: Global,
    groups: &PatternGroups<'_>,
    line: &[u8],
    template: &[u8],
    start: usize,
    slots: &[usize],
    output: &mut Vec<u8>,
) -> Result<(), Fault>
    requires start { start ≤ length line.now }
    requires width { length slots.now ≡ 2 * most_groups (all_names groups.now.0 groups.now.1) }
    ensures { OnOk result ((res : List Re) (m : Match) → AreReadAs (line_config groups.now.0) groups.now.1 res → m.start ≡ start →
        attempt line.now (line_pattern groups.now.0 res) accept m.start ≡ Some m.trace → AreSlots m slots.now → 2 ≤ length slots.now →
        output.new.items ≡ output.old.items ++ written_for groups.now.0 (all_names groups.now.0 groups.now.1) res template.now line.now m) }
{
    let number = match groups.number_at(alloc, line, start) {
        Ok(number) => number,
        Err(e) => return Err(e),
    };
    let Some(names) = groups.names(number) else {
        return Err(Fault::TooLarge);
    };
    let read = Template::new(alloc, names, template)?;
    read.append(line, slots, output)?;
    Ok(())
}

fn push_span(spans: &mut Vec<Span>, span: Span) -> Result<(), AllocError>
    ensures { OnOk result (map span_pair spans.new.items ≡ map span_pair spans.old.items ++ span_pair span ∷ []) }
{
    spans.push(span)?;
    Ok(())
}

/// Appends the bytes from an offset up to a match with this span and these cells, and then what a template writes for the match.
fn append_match(
    alloc: Global,
    groups: &PatternGroups<'_>,
    line: &[u8],
    template: &[u8],
    at: usize,
    span: Span,
    cells: &[usize],
    out: &mut Replaced,
) -> Result<(), Fault>
    requires start { span.start ≤ length line.now }
    requires width { length cells.now + 2 ≡ 2 * most_groups (all_names groups.now.0 groups.now.1) }
    ensures bytes { OnOk result ((res : List Re) (m : Match) → AreReadAs (line_config groups.now.0) groups.now.1 res →
        span_pair span ≡ span_of_match m → attempt line.now (line_pattern groups.now.0 res) accept m.start ≡ Some m.trace →
        cells.now ≡ group_cells m (length cells.now) → out.new.bytes.items ≡ (out.old.bytes.items ++ slice_range line.now at span.start)
        ++ written_for groups.now.0 (all_names groups.now.0 groups.now.1) res template.now line.now m) }
    ensures spans { OnOk result (map span_pair out.new.spans.items ≡ map span_pair out.old.spans.items
        ++ (length (out.old.bytes.items ++ slice_range line.now at span.start), length out.new.bytes.items) ∷ []) }
{
    see_cells(cells);
    out.bytes
        .extend_from_slice(bytes_between(line, at, span.start))?;
    let start = out.bytes.len();
    let slots = slots_of(alloc, span, cells)?;
    append_written(
        alloc,
        groups,
        line,
        template,
        span.start,
        &slots,
        &mut out.bytes,
    )?;
    let end = out.bytes.len();
    push_span(&mut out.spans, Span { start, end })?;
    Ok(())
}

/// Appends the line with all matches replaced.
fn replace_matches(
    alloc: Global,
    searcher: &mut Searcher<'_>,
    groups: &PatternGroups<'_>,
    line: &[u8],
    template: &[u8],
    cells: &mut [usize],
    out: &mut Replaced,
) -> Result<(), Fault>
    requires program { IsProgramOf groups.now.0 groups.now.1 searcher.old.program.now }
    requires width { length cells.old + 2 ≡ 2 * most_groups (all_names groups.now.0 groups.now.1) }
    requires room { length cells.old ≤ searcher.old.program.now.dfa.nfa.slot_count - 2 }
    requires no_bytes { out.old.bytes.items ≡ [] }
    requires no_spans { out.old.spans.items ≡ [] }
    ensures same { searcher.new.program.now ≡ searcher.old.program.now }
    ensures replaced { OnOk result (AreReplaced groups.now.0 groups.now.1 template.now line.now out.new.bytes.items
        (map span_pair out.new.spans.items)) }
{
    let most = line.len() + 1;
    let mut last: Option<usize> = None;
    for count in 0..most {
        let Some(span) = capture_next(searcher, line, last, cells) else {
            out.bytes
                .extend_from_slice(bytes_between(line, last.unwrap_or(0), line.len()))?;
            return Ok(());
        };
        append_match(
            alloc,
            groups,
            line,
            template,
            last.unwrap_or(0),
            span,
            cells,
            out,
        )?;
        last = Some(span.end);
    }
    out.bytes
        .extend_from_slice(bytes_between(line, last.unwrap_or(0), line.len()))?;
    Ok(())
}

/// How many cells a search for groups fills, if the program has as many.
fn cell_count(groups: &PatternGroups<'_>, slots: u32) -> Option<usize>
    ensures width { IfSome result (λ n. n + 2 ≡ 2 * most_groups (all_names groups.now.0 groups.now.1)) }
    ensures room { IfSome result (λ n. n ≤ slots - 2) }
{
    let most = groups.most_groups();
    if most == 0 || most > slots as usize / 2 {
        return None;
    }
    Some(2 * most - 2)
}

/// The line with each match replaced by what a template writes for it. The searcher is one for these patterns.
pub(crate) fn replace_all(
    alloc: Global,
    searcher: &mut Searcher<'_>,
    groups: &PatternGroups<'_>,
    line: &[u8],
    template: &[u8],
) -> Result<Replaced, Fault>
    requires program { IsProgramOf groups.now.0 groups.now.1 searcher.old.program.now }
    ensures same { searcher.new.program.now ≡ searcher.old.program.now }
    ensures replaced { IfOk result (λ r. AreReplaced groups.now.0 groups.now.1 template.now line.now r.bytes.items (map span_pair r.spans.items)) }
{
    let Some(count) = cell_count(groups, searcher.program.dfa.nfa.slot_count) else {
        return Err(Fault::TooLarge);
    };
    let mut cells = vec![in alloc; 0usize; count]?;
    let mut out = Replaced {
        bytes: Vec::new(alloc),
        spans: Vec::new(alloc),
    };
    replace_matches(
        alloc, searcher, groups, line, template, &mut cells, &mut out,
    )?;
    Ok(out)
}
