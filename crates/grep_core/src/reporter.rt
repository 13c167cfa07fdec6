//! The output for an input, line by line.
ghost use Rattle.std.specs.Prelude.{◌≡◌, ◌++◌, ◌∷◌, [], ℕ, ◌+◌, Bool, List, Option, OnOk, IfOk, IsTrue, decimal, map, nat_lt, not, ◌&&◌};
ghost use Rattle.std.specs.Prelude.{length, option_map, if◌then◌else◌};
ghost use Rattle.grep_core.specs.ContextPrinting.{Item, Waits, item, print_item, still};
ghost use Rattle.line_search.specs.Lines.{TextLine};
ghost use Rattle.line_search.specs.LineMatchers.{span_pair, LineMatcher};
ghost use Rattle.grep_core.specs.Printing.{text_line};
ghost use Rattle.grep_core.specs.Report.{first_of, print_lines, report_as, roles_of, selected, count_line, name_line, counted_as};
ghost use Rattle.grep_core.specs.Report.{shown_line, shown_spans};
ghost use Rattle.grep_core.specs.Selecting.{count_selected};
ghost use Rattle.grep_core.specs.Reporting.{shown, added, added_matches, counts_matches, number_of, prints_lines, reported_lines, may_select};
ghost use Rattle.grep_core.specs.Reporting.{still_reported, count_in_all};
ghost use Rattle.grep_core.specs.declared.output_options.OutputOptions.{OutputOptions as TheOutputOptions};

use crate::colors::{Part, push_marked};
use crate::context_printer::{ContextPrinter, advance, see_end};
use crate::line::Line;
use crate::output_options::{OutputOptions, Print};
use crate::printing::push_name_before;
use crate::progress::sum;
use crate::separator_state::SeparatorState;
use line_search::Fault;
use search_types::Span;
use std::alloc::{AllocError, Global};

/// The state of the output after some lines.
#[derive(Drop)]
pub struct Reporter {
    pub course: ContextPrinter,
    /// How many of them are selected.
    pub count: u64,
    /// How many matches the selected ones have, if that is printed.
    pub matches: u64,
}

/// The name that is printed before lines, if any.
pub(crate) fn shown(name: &[u8], with_name: bool) -> Option<&[u8]>
    ensures { option_map (λ n. n.now) result ≡ shown with_name name.now }
{
    if with_name { Some(name) } else { None }
}

/// Whether the output consists of lines or of the matches in them.
pub fn prints_lines(print: Print) -> bool
    ensures { result ≡ prints_lines print }
{
    match print {
        Print::Lines | Print::Matches => true,
        Print::Count | Print::CountMatches => false,
        Print::NameIfAny | Print::NameIfNone | Print::Nothing => false,
    }
}

/// Whether one more line may be selected, after this many.
pub fn may_select(what: &OutputOptions<'_>, count: u64) -> bool
    ensures { result ≡ may_select what.now.most count }
{
    match what.most {
        Some(most) => count < most,
        None => true,
    }
}

/// Whether a line is wanted, given whether it has a match.
fn is_wanted(what: &OutputOptions<'_>, has: bool) -> bool
    ensures { result ≡ (if what.now.invert then not has else has) }
{
    if what.invert { !has } else { has }
}

/// Whether a line is selected, after this many selected ones.
pub fn is_selected(what: &OutputOptions<'_>, count: u64, has: bool) -> bool
    ensures { result ≡ ((if what.now.invert then not has else has) && may_select what.now.most count) }
{
    is_wanted(what, has) && may_select(what, count)
}

/// Appends the output for one line, for every kind of output.
fn report_by_flags(
    alloc: Global,
    out: &mut Vec<u8>,
    what: &OutputOptions<'_>,
    name: Option<&[u8]>,
    course: &mut ContextPrinter,
    line: Line<'_>,
    is_selected: bool,
    found: &[Span],
) -> Result<(), Fault>
    requires { Waits what.now course.old }
    ensures goes_on { OnOk result ((text : List ℕ) (with_name : Bool) (n m : ℕ) (flags : List Bool) (items : List Item) →
        shown with_name text ≡ option_map (λ n. n.now) name.entry → m ≡ n + added what.now.print is_selected (length (map span_pair found.now)) →
        out.old.items ++ reported_lines what.now.print what.now text with_name course.old n (is_selected ∷ flags)
        (item (text_line line.entry) (map span_pair found.now) ∷ items)
        ≡ out.new.items ++ reported_lines what.now.print what.now text with_name course.new m flags items) }
    ensures waits { OnOk result (Waits what.now course.new) }
{
    if prints_lines(what.print) {
        return advance(alloc, out, what, name, course, line, is_selected, found);
    }
    Ok(())
}

/// Adds one to the count if a line is selected.
pub(crate) fn count_more(count: u64, is_selected: bool) -> Result<u64, Fault>
    ensures { IfOk result (λ n. n ≡ count + (if is_selected then 1 else 0)) }
{
    if !is_selected {
        return Ok(count);
    }
    match count.checked_add(1) {
        Some(more) => Ok(more),
        None => Err(Fault::TooLong),
    }
}

/// Whether matches are counted, and not lines.
pub fn counts_matches(print: Print) -> bool
    ensures { result ≡ counts_matches print }
{
    match print {
        Print::CountMatches => true,
        Print::Lines | Print::Matches | Print::Count => false,
        Print::NameIfAny | Print::NameIfNone | Print::Nothing => false,
    }
}

/// Adds the matches of a line to their number if the line is selected and the number is printed.
fn more_matches(print: Print, matches: u64, is_selected: bool, found: usize) -> Result<u64, Fault>
    ensures { IfOk result (λ n. n ≡ matches + added_matches print is_selected found) }
{
    if counts_matches(print) && is_selected {
        return sum(matches, found as u64);
    }
    Ok(matches)
}

impl Reporter {
    /// The state before the first line, where `known` describes the lines of earlier inputs, and so many lines are printed as context
    /// before the first selected one.
    pub fn new(alloc: Global, first: u64, known: SeparatorState) -> Reporter
        ensures count { result.count ≡ 0 }
        ensures matches { result.matches ≡ 0 }
        ensures prints { (w : TheOutputOptions) → first ≡ first_of w.context → (name : Option (List ℕ)) → (flags : List Bool) → (items : List Item) →
            still w name result.course flags items ≡ print_lines w (print_item w name) known (roles_of w flags) items }
        ensures starts { (w : TheOutputOptions) → first ≡ first_of w.context → (f : LineMatcher) → (name : List ℕ) → (with_name : Bool) → (lines : List TextLine) →
            still_reported w f name with_name result lines ≡ report_as w.print w f name with_name known lines (selected w f lines) }
        ensures counts { (w : TheOutputOptions) → (f : LineMatcher) → (lines : List TextLine) →
            count_in_all w f result lines ≡ count_selected (selected w f lines) }
        ensures waits { (w : TheOutputOptions) → Waits w result.course }
    {
        Reporter {
            course: ContextPrinter::new(alloc, first, known),
            count: 0,
            matches: 0,
        }
    }
}

/// Processes one line, which is selected or not, with the matches that are shown in it.
pub fn report_flagged(
    alloc: Global,
    out: &mut Vec<u8>,
    what: &OutputOptions<'_>,
    name: &[u8],
    with_name: bool,
    telling: &mut Reporter,
    line: Line<'_>,
    is_selected: bool,
    found: &[Span],
) -> Result<(), Fault>
    requires { Waits what.now telling.old.course }
    ensures goes_on { OnOk result ((flags : List Bool) (items : List Item) →
        out.old.items ++ reported_lines what.now.print what.now name.now with_name telling.old.course (number_of what.now.print telling.old)
        (is_selected ∷ flags) (item (text_line line.entry) (map span_pair found.now) ∷ items)
        ≡ out.new.items ++ reported_lines what.now.print what.now name.now with_name telling.new.course
        (number_of what.now.print telling.new) flags items) }
    ensures count { OnOk result (telling.new.count ≡ telling.old.count + (if is_selected then 1 else 0)) }
    ensures waits { OnOk result (Waits what.now telling.new.course) }
{
    report_by_flags(
        alloc,
        out,
        what,
        shown(name, with_name),
        &mut telling.course,
        line,
        is_selected,
        found,
    )?;
    telling.count = count_more(telling.count, is_selected)?;
    telling.matches = more_matches(what.print, telling.matches, is_selected, found.len())?;
    Ok(())
}

/// Processes one line, given as it is shown, with whether it has a match, and its matches or what replaces them, if the output depends on
/// these.
pub fn report_line(
    alloc: Global,
    out: &mut Vec<u8>,
    what: &OutputOptions<'_>,
    name: &[u8],
    with_name: bool,
    telling: &mut Reporter,
    line: Line<'_>,
    has: bool,
    found: &[Span],
) -> Result<(), Fault>
    requires { Waits what.now telling.old.course }
    ensures goes_on { OnOk result ((f : LineMatcher) (own : TextLine) → has ≡ f.has_match own.content →
        text_line line.entry ≡ shown_line what.now f own → map span_pair found.now ≡ shown_spans what.now f own → (lines : List TextLine) →
        out.old.items ++ still_reported what.now f name.now with_name telling.old (own ∷ lines)
        ≡ out.new.items ++ still_reported what.now f name.now with_name telling.new lines) }
    ensures counts { OnOk result ((f : LineMatcher) (own : TextLine) → has ≡ f.has_match own.content → (lines : List TextLine) →
        count_in_all what.now f telling.new lines ≡ count_in_all what.now f telling.old (own ∷ lines)) }
    ensures waits { OnOk result (Waits what.now telling.new.course) }
{
    let is_selected = is_selected(what, telling.count, has);
    report_flagged(
        alloc,
        out,
        what,
        name,
        with_name,
        telling,
        line,
        is_selected,
        found,
    )?;
    Ok(())
}

/// Appends a number as a line.
fn push_number(alloc: Global, out: &mut Vec<u8>, number: u64) -> Result<(), AllocError>
    ensures { OnOk result (out.new.items ≡ out.old.items ++ (decimal number ++ 10 ∷ [])) }
{
    let text = format!(in alloc; "{number}")?;
    out.extend_from_slice(text.as_str().as_bytes())?;
    out.push(b'\n')?;
    Ok(())
}

/// Appends a count as a line, after the name if there is one.
fn push_count(
    alloc: Global,
    out: &mut Vec<u8>,
    what: &OutputOptions<'_>,
    name: Option<&[u8]>,
    count: u64,
) -> Result<(), AllocError>
    ensures { OnOk result (out.new.items ≡ out.old.items ++ count_line what.now (option_map (λ n. n.now) name.entry) count) }
{
    let Some(name) = name else {
        return push_number(alloc, out, count);
    };
    push_name_before(out, what, b":", name)?;
    push_number(alloc, out, count)
}

/// Appends the name of an input as a line.
pub(crate) fn push_name(
    out: &mut Vec<u8>,
    what: &OutputOptions<'_>,
    name: &[u8],
) -> Result<(), AllocError>
    ensures { OnOk result (out.new.items ≡ out.old.items ++ name_line what.now name.now) }
{
    push_marked(out, &what.color, Part::Name, name)?;
    out.push(if what.zero_names { 0 } else { b'\n' })?;
    Ok(())
}

/// Appends what is printed after the last line.
pub fn report_end(
    alloc: Global,
    out: &mut Vec<u8>,
    what: &OutputOptions<'_>,
    name: &[u8],
    with_name: bool,
    telling: &Reporter,
) -> Result<(), AllocError>
    requires { Waits what.now telling.now.course }
    ensures { OnOk result ((f : LineMatcher) → out.new.items ≡ out.old.items ++ still_reported what.now f name.now with_name telling.now
        []) }
{
    match what.print {
        Print::Lines | Print::Matches => {
            see_end(what, &telling.course);
            Ok(())
        }
        Print::Count => push_count(alloc, out, what, shown(name, with_name), telling.count),
        Print::CountMatches => push_count(
            alloc,
            out,
            what,
            shown(name, with_name),
            telling.matches,
        ),
        Print::NameIfAny if telling.count > 0 => push_name(out, what, name),
        Print::NameIfNone if telling.count == 0 => push_name(out, what, name),
        _ => Ok(()),
    }
}

fn one_of(count: u64) -> u64
    ensures { result ≡ (if nat_lt 0 count then 1 else 0) }
{
    if count > 0 { 1 } else { 0 }
}

/// The number that is counted for this many selected lines. It is at most 1 if all that is asked for is whether there is one.
pub fn counted_as(print: Print, count: u64) -> u64
    ensures { result ≡ counted_as print count }
{
    match print {
        Print::Lines | Print::Matches | Print::Count | Print::CountMatches => count,
        Print::NameIfAny | Print::NameIfNone | Print::Nothing => one_of(count),
    }
}

/// Whether the next lines change neither the output nor the number that is counted, whatever they are.
pub(crate) fn is_over(what: &OutputOptions<'_>, telling: &Reporter) -> bool
    ensures reported { IsTrue result → (f : LineMatcher) (name : List ℕ) (with_name : Bool) (lines : List TextLine) →
        still_reported what.now f name with_name telling.now lines ≡ still_reported what.now f name with_name telling.now [] }
    ensures counted { IsTrue result → (f : LineMatcher) (lines : List TextLine) →
        counted_as what.now.print (count_in_all what.now f telling.now lines)
        ≡ counted_as what.now.print (count_in_all what.now f telling.now []) }
{
    let is_spent = !may_select(what, telling.count);
    match what.print {
        Print::Lines | Print::Matches => is_spent && telling.course.left == 0,
        Print::Count | Print::CountMatches => is_spent,
        Print::NameIfAny | Print::NameIfNone | Print::Nothing => is_spent || telling.count > 0,
    }
}
