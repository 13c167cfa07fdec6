//! Prints the matches of long lines, or a long line for each of them, one after the other. So the memory doesn't grow with the number of
//! matches in a line.
ghost use Rattle.std.specs.Prelude.{◌≡◌, ◌++◌, ◌∷◌, [], ℕ, List, IfErr, IfOk, IsTrue, OnOk, false, length, nat_lt};
ghost use Rattle.std.specs.Prelude.{option_map, take, true};
ghost use Rattle.std.specs.List.{flat_map};
ghost use Rattle.std.specs.Io.KnownBytes.{Appends};
ghost use Rattle.regex_hir.specs.Re.{Re};
ghost use Rattle.pattern_search.specs.Texts.{AreReadAs};
ghost use Rattle.grep_core.specs.ContextPrinting.{Waits, item, print_item};
ghost use Rattle.line_search.specs.Lines.{TextLine, searched};
ghost use Rattle.line_search.specs.FoundSpans.{IsNextSpan};
ghost use Rattle.grep_core.specs.LongLines.{MayWriteMatches, PrintsByMatch, PrintsEach, PrintsPlain, Sends, WritesLine, printed_one};
ghost use Rattle.line_search.specs.Meant.{line_config};
ghost use Rattle.line_search.specs.Patterns.{spans_in};
ghost use Rattle.grep_core.specs.Printing.{text_line};
ghost use Rattle.line_search.specs.LineMatchers.{span_pair, LineMatcher};
ghost use Rattle.grep_core.specs.Reporting.{count_in_all, may_select, shown, still_reported};
ghost use Rattle.line_search.specs.Searchers.{IsMatchReported};
ghost use Rattle.grep_core.specs.declared.output_options.Print.TheVariants.{Matches};
ghost use Rattle.grep_core.specs.declared.role.Role.TheVariants.{Selected};

use crate::blocks::report_one;
use crate::context_printer::select_first;
use crate::items::push_some;
use crate::line::Line;
use crate::looking::searched;
use crate::output_options::{OutputOptions, Print};
use crate::printing::push_for;
use crate::progress::{Progress, Task, pass};
use crate::reading::write_out;
use crate::reporter::{Reporter, count_more, may_select, shown};
use crate::role::Role;
use line_search::{Fault, Finder};
use search_types::Span;
use std::alloc::Global;
use std::io::Write;

/// From this many bytes on, what is printed of a line is written before its next match is searched for.
const FULL: usize = 65536;

/// Writes the output and empties it, if it is long.
fn write_some<W: Write>(writer: &mut W, out: &mut Vec<u8>) -> Result<(), Fault>
    ensures sends { OnOk result (Sends (W.contents writer.old) (W.contents writer.new) out.old.items out.new.items) }
    ensures fault { IfErr result (λ _. (n : ℕ) × Appends (W.contents writer.old) (W.contents writer.new) (take n out.old.items)) }
{
    if out.len() < FULL {
        return Ok(());
    }
    match write_out(writer, out) {
        Ok(()) => {}
        Err(e) => return Err(e),
    }
    out.clear();
    Ok(())
}

/// Appends what is printed for a match of a selected line: the match, or the line.
fn push_one(
    alloc: Global,
    out: &mut Vec<u8>,
    what: &OutputOptions<'_>,
    name: Option<&[u8]>,
    line: Line<'_>,
    span: Span,
) -> Result<(), Fault>
    ensures { OnOk result (out.new.items ≡ out.old.items
        ++ printed_one what.now (option_map (λ n. n.now) name.entry) (text_line line.entry) (span_pair span)) }
{
    match what.print {
        Print::Matches => push_some(alloc, out, what, name, Role::Selected, line, span),
        _ => push_for(alloc, out, what, name, Role::Selected, line, &[], span),
    }
}

/// Prints a match of a selected line, and searches for the next one.
fn write_match<W: Write>(
    alloc: Global,
    writer: &mut W,
    out: &mut Vec<u8>,
    finder: &mut Finder<'_>,
    what: &OutputOptions<'_>,
    name: Option<&[u8]>,
    line: Line<'_>,
    bytes: &[u8],
    span: Span,
) -> Result<Option<Span>, Fault>
    requires { finder.old.spans ≡ true }
    ensures same { finder.new ≡ finder.old }
    ensures next { IfOk result (λ o. IsNextSpan finder.old.how finder.old.texts bytes.now span.end (option_map span_pair o)) }
    ensures sends { OnOk result (Sends (W.contents writer.old) (W.contents writer.new)
        (out.old.items ++ printed_one what.now (option_map (λ n. n.now) name.entry) (text_line line.entry) (span_pair span))
        out.new.items) }
    ensures fault { IfErr result (λ _. (more : List ℕ) → (n : ℕ) × Appends (W.contents writer.old) (W.contents writer.new)
        (take n ((out.old.items ++ printed_one what.now (option_map (λ n. n.now) name.entry) (text_line line.entry)
        (span_pair span)) ++ more))) }
{
    match push_one(alloc, out, what, name, line, span) {
        Ok(()) => {}
        Err(e) => return Err(e),
    }
    match write_some(writer, out) {
        Ok(()) => {}
        Err(e) => return Err(e),
    }
    let next = match finder.find_next(alloc, bytes, span.end) {
        Ok(next) => next,
        Err(e) => return Err(e),
    };
    Ok(next)
}

/// Prints the matches of a selected line, each as a line of its own, or the line for each. What isn't written yet is left as the output.
fn write_matches<W: Write>(
    alloc: Global,
    writer: &mut W,
    out: &mut Vec<u8>,
    finder: &mut Finder<'_>,
    what: &OutputOptions<'_>,
    name: Option<&[u8]>,
    line: Line<'_>,
    bytes: &[u8],
) -> Result<(), Fault>
    requires { finder.old.spans ≡ true }
    ensures same { finder.new ≡ finder.old }
    ensures sends { OnOk result ((res : List Re) → AreReadAs (line_config finder.old.how) finder.old.texts res →
        Sends (W.contents writer.old) (W.contents writer.new) (out.old.items
        ++ flat_map (printed_one what.now (option_map (λ n. n.now) name.entry) (text_line line.entry))
        (spans_in finder.old.how res bytes.now)) out.new.items) }
    ensures fault { IfErr result (λ _. (res : List Re) → AreReadAs (line_config finder.old.how) finder.old.texts res → (more : List ℕ) →
        (n : ℕ) × Appends (W.contents writer.old) (W.contents writer.new) (take n ((out.old.items
        ++ flat_map (printed_one what.now (option_map (λ n. n.now) name.entry) (text_line line.entry))
        (spans_in finder.old.how res bytes.now)) ++ more))) }
{
    let mut next = match finder.find_from(alloc, bytes, 0) {
        Ok(next) => next,
        Err(e) => return Err(e),
    };
    let most = bytes.len() + 1;
    for step in 0..most {
        let Some(span) = next else {
            return Ok(());
        };
        next = match write_match(alloc, writer, out, finder, what, name, line, bytes, span) {
            Ok(next) => next,
            Err(e) => return Err(e),
        };
    }
    Ok(())
}

/// Whether the matches of selected lines are printed alone, and not what replaces them.
pub(crate) fn prints_matches(what: &OutputOptions<'_>) -> bool
    ensures matches { IsTrue result → what.now.print ≡ Matches }
    ensures plain { IsTrue result → PrintsPlain what.now }
{
    match what.print {
        Print::Matches => !what.invert && what.replacement.is_none(),
        _ => false,
    }
}

/// Whether selected lines are printed once for each of their matches, however long they are and without replacing these.
pub(crate) fn prints_each(what: &OutputOptions<'_>) -> bool
    ensures each { IsTrue result → PrintsEach what.now }
    ensures plain { IsTrue result → PrintsPlain what.now }
{
    match what.print {
        Print::Lines => {
            what.each_match
                && what.most_bytes.is_none()
                && !what.invert
                && what.replacement.is_none()
        }
        _ => false,
    }
}

/// Whether what is printed for a match of a selected line depends on no other match.
fn prints_by_match(what: &OutputOptions<'_>) -> bool
    ensures by_match { IsTrue result → PrintsByMatch what.now }
    ensures plain { IsTrue result → PrintsPlain what.now }
{
    prints_matches(what) || prints_each(what)
}

/// Whether the matches of a line that has one can be printed one after the other, if this many lines were selected before it.
fn may_write_matches(finder: &Finder<'_>, what: &OutputOptions<'_>, count: u64) -> bool
    ensures { IsTrue result → MayWriteMatches finder.now what.now count }
{
    if !finder.with_matches() || !prints_by_match(what) {
        return false;
    }
    may_select(what, count)
}

/// Advances to the matches of a line that is selected: what comes before them is printed.
fn begin_matches(
    alloc: Global,
    out: &mut Vec<u8>,
    what: &OutputOptions<'_>,
    name: &[u8],
    with_name: bool,
    telling: &mut Reporter,
) -> Result<(), Fault>
    requires waits { Waits what.now telling.old.course }
    requires by_match { PrintsByMatch what.now }
    requires plain { PrintsPlain what.now }
    requires may { may_select what.now.most telling.old.count ≡ true }
    ensures goes_on { OnOk result ((f : LineMatcher) (line : TextLine) → true ≡ f.has_match line.content → (lines : List TextLine) →
        out.old.items ++ still_reported what.now f name.now with_name telling.old (line ∷ lines)
        ≡ out.new.items ++ (print_item what.now (shown with_name name.now) Selected (item line (f.spans line.content))
        ++ still_reported what.now f name.now with_name telling.new lines)) }
    ensures counts { OnOk result ((f : LineMatcher) (line : TextLine) → true ≡ f.has_match line.content → (lines : List TextLine) →
        count_in_all what.now f telling.new lines ≡ count_in_all what.now f telling.old (line ∷ lines)) }
    ensures waits { OnOk result (Waits what.now telling.new.course) }
{
    match select_first(
        alloc,
        out,
        what,
        shown(name, with_name),
        &mut telling.course,
    ) {
        Ok(()) => {}
        Err(e) => return Err(e),
    }
    match count_more(telling.count, true) {
        Ok(count) => {
            telling.count = count;
            Ok(())
        }
        Err(e) => Err(e),
    }
}

/// Writes the output for a line that is selected and whose matches are printed one after the other. `bytes` are those that are searched.
fn write_selected<W: Write>(
    alloc: Global,
    writer: &mut W,
    finder: &mut Finder<'_>,
    task: Task<'_>,
    telling: &mut Reporter,
    line: Line<'_>,
    bytes: &[u8],
) -> Result<(), Fault>
    requires waits { Waits task.what.now telling.old.course }
    requires may { MayWriteMatches finder.old task.what.now telling.old.count }
    ensures same { finder.new ≡ finder.old }
    ensures waits { OnOk result (Waits task.entry.what.now telling.new.course) }
    ensures counts { OnOk result ((f : LineMatcher) (line : TextLine) → true ≡ f.has_match line.content → (lines : List TextLine) →
        count_in_all task.entry.what.now f telling.new lines ≡ count_in_all task.entry.what.now f telling.old (line ∷ lines)) }
    ensures writes { OnOk result ((f : LineMatcher) (res : List Re) → AreReadAs (line_config finder.old.how) finder.old.texts res →
        true ≡ f.has_match (text_line line.entry).content → spans_in finder.old.how res bytes.now ≡ f.spans (text_line line.entry).content →
        nat_lt 0 (length (f.spans (text_line line.entry).content)) ≡ true → (lines : List TextLine) → Sends (W.contents writer.old) (W.contents writer.new)
        (still_reported task.entry.what.now f task.entry.name.now task.entry.with_name telling.old (text_line line.entry ∷ lines))
        (still_reported task.entry.what.now f task.entry.name.now task.entry.with_name telling.new lines)) }
    ensures fault { IfErr result (λ _. (f : LineMatcher) (res : List Re) → AreReadAs (line_config finder.old.how) finder.old.texts res →
        true ≡ f.has_match (text_line line.entry).content → spans_in finder.old.how res bytes.now ≡ f.spans (text_line line.entry).content →
        nat_lt 0 (length (f.spans (text_line line.entry).content)) ≡ true → (lines : List TextLine) → (n : ℕ) × Appends (W.contents writer.old) (W.contents writer.new)
        (take n (still_reported task.entry.what.now f task.entry.name.now task.entry.with_name telling.old (text_line line.entry ∷ lines)))) }
{
    let mut out = Vec::new(alloc);
    match begin_matches(
        alloc,
        &mut out,
        task.what,
        task.name,
        task.with_name,
        telling,
    ) {
        Ok(()) => {}
        Err(e) => return Err(e),
    }
    let name = shown(task.name, task.with_name);
    match write_matches(
        alloc, writer, &mut out, finder, task.what, name, line, bytes,
    ) {
        Ok(()) => {}
        Err(e) => return Err(e),
    }
    match write_out(writer, &out) {
        Ok(()) => Ok(()),
        Err(e) => Err(e),
    }
}

/// Writes the output for a line whose matches are listed before they are printed.
pub(crate) fn write_listed<W: Write>(
    alloc: Global,
    writer: &mut W,
    finder: &mut Finder<'_>,
    task: Task<'_>,
    progress: &mut Progress,
    bytes: &[u8],
    is_ended: bool,
    is_known: bool,
) -> Result<(), Fault>
    requires waits { Waits task.what.now progress.old.telling.course }
    requires known { is_known ≡ true → IsMatchReported finder.old.how finder.old.texts
        (searched finder.old.how.crlf (record { bytes = bytes.now; is_ended = is_ended })) true }
    ensures { WritesLine task.entry finder.old finder.new progress.old progress.new (record { bytes = bytes.now; is_ended = is_ended })
        (W.contents writer.old) (W.contents writer.new) result }
{
    let mut out = Vec::new(alloc);
    match report_one(
        alloc, &mut out, finder, task, progress, bytes, is_ended, is_known,
    ) {
        Ok(()) => {}
        Err(e) => return Err(e),
    }
    write_out(writer, &out)
}

/// Writes the output for a line that is selected and whose matches are printed one after the other. The line is given without its line feed.
fn write_found<W: Write>(
    alloc: Global,
    writer: &mut W,
    finder: &mut Finder<'_>,
    task: Task<'_>,
    progress: &mut Progress,
    bytes: &[u8],
    is_ended: bool,
) -> Result<(), Fault>
    requires waits { Waits task.what.now progress.old.telling.course }
    requires may { MayWriteMatches finder.old task.what.now progress.old.telling.count }
    requires known { IsMatchReported finder.old.how finder.old.texts
        (searched finder.old.how.crlf (record { bytes = bytes.now; is_ended = is_ended })) true }
    ensures { WritesLine task.entry finder.old finder.new progress.old progress.new (record { bytes = bytes.now; is_ended = is_ended })
        (W.contents writer.old) (W.contents writer.new) result }
{
    let line = Line {
        number: progress.number,
        place: progress.place,
        bytes,
        is_ended,
    };
    let text = searched(finder.crlf(), bytes, is_ended);
    match write_selected(
        alloc,
        writer,
        finder,
        task,
        &mut progress.telling,
        line,
        text,
    ) {
        Ok(()) => {}
        Err(e) => return Err(e),
    }
    pass(progress, bytes.len())
}

/// Writes the output for a line of which the matches may be printed. The line is given without its line feed.
pub(crate) fn write_line<W: Write>(
    alloc: Global,
    writer: &mut W,
    finder: &mut Finder<'_>,
    task: Task<'_>,
    progress: &mut Progress,
    bytes: &[u8],
    is_ended: bool,
) -> Result<(), Fault>
    requires waits { Waits task.what.now progress.old.telling.course }
    ensures { WritesLine task.entry finder.old finder.new progress.old progress.new (record { bytes = bytes.now; is_ended = is_ended })
        (W.contents writer.old) (W.contents writer.new) result }
{
    let has = match finder.has_match(alloc, searched(finder.crlf(), bytes, is_ended)) {
        Ok(has) => has,
        Err(e) => return Err(e),
    };
    if has && may_write_matches(finder, task.what, progress.telling.count) {
        return write_found(alloc, writer, finder, task, progress, bytes, is_ended);
    }
    write_listed(alloc, writer, finder, task, progress, bytes, is_ended, has)
}
