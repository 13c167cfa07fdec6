// One line: its words, the stack and the patterns before and after it.
ghost use Rattle.std.specs.Prelude.{◌≡◌, ◌⊎◌, ◌<◌, ◌≤◌, true, false, IfOk, IfErr, OnOk, MatchOption, IsTrue, length, Some, None, []};
ghost use Rattle.std.specs.Prelude.{◌∷◌, ◌++◌, nat_lt, take, slice_index_or};
ghost use Rattle.hir_core.specs.Tree.{empty};
ghost use Rattle.hir_core.specs.Facts.{height};
ghost use Rattle.thompson_nfa.specs.LiteralGroups.{texts};
ghost use Rattle.hirscan.specs.Words.{words};
ghost use Rattle.hirscan.specs.Readers.{hex_byte, word_at};
ghost use Rattle.hirscan.specs.LineFault.{fault, byte_fault, known_fault, after_line, top, below, when, is_at_most, is_word_count};
ghost use Rattle.hirscan.specs.LineFault.{is_setting};
ghost use Rattle.hirscan.specs.LineFault.{is_class, is_setting_after_node, left_fault};
ghost use Rattle.hirscan.specs.QueryReports.{words_left, query_value, ReportsLineFault, ReportsStep, IsDone, step_after};
ghost use Rattle.hirscan.specs.declared.fault.FaultKind.TheVariants.{TooFewTrees, TooDeep};
ghost use Rattle.hirscan.specs.declared.words.LineWord.TheVariants.{Utf8, Line, Capacity, Quit, Classes, Shrink, Anchored};
ghost use Rattle.hirscan.specs.declared.words.LineWord.TheVariants.{Span as SpanWord, Empty, Lit, Bytes, Chars, Look, Rep, Cat, Alt};
ghost use Rattle.hirscan.specs.declared.words.LineWord.TheVariants.{Pattern, Find};

use crate::fault::{FaultKind, LineFault};
use crate::split::WordsLeft;
use crate::words::{
    LineWord, bound, class_ranges, hex_byte, hex_bytes, line_word, look_named, low_ends, number,
    order, scalar_items, scalar_ranges, switch, word_at, yes_or_no,
};
use hir_core::Hir;
use hir_regex::Settings;
use look_core::LineTerm;
use search_types::Span;
use std::alloc::{AllocError, Global};

/// No tree may be higher.
const MAX_HEIGHT: usize = 250;

/// More words than may follow the first of any line but a class.
const MORE_THAN_MAY_FOLLOW: usize = 4;

/// How the patterns are searched.
#[derive(Clone, Copy)]
pub(crate) struct Setup {
    pub settings: Settings,
    pub anchored: bool,
    pub span: Option<Span>,
}

/// How the patterns are searched, the trees on the stack, the last pushed last, and the patterns that were
/// taken.
#[derive(Drop)]
pub(crate) struct HeadState {
    pub setup: Setup,
    pub stack: Vec<Hir>,
    pub patterns: Vec<Hir>,
}

/// What comes after a line that has no fault.
#[derive(Clone, Copy)]
pub(crate) enum Step {
    Next,
    End,
}

/// Pushes a tree after the others. If an allocation fails, the tree is dropped.
fn push_onto(trees: &mut Vec<Hir>, tree: Hir) -> Result<(), AllocError>
    ensures { OnOk result (trees.new.items ≡ trees.old.items ++ tree ∷ []) }
{
    trees.push(tree)?;
    Ok(())
}

/// Pushes a tree, unless it is too high.
fn push(state: &mut HeadState, tree: Hir) -> Result<(), LineFault>
    ensures ok { OnOk result ((height tree ≤ 250) × (state.new.stack.items ≡ state.old.stack.items ++ tree ∷ [])
        × (state.new.patterns.items ≡ state.old.patterns.items) × (state.new.setup ≡ state.old.setup)) }
    ensures err { IfErr result (λ e. ReportsLineFault (when (nat_lt 250 (height tree)) TooDeep) e) }
{
    if tree.height() > MAX_HEIGHT {
        return Err(LineFault::Is(FaultKind::TooDeep));
    }
    let Ok(()) = push_onto(&mut state.stack, tree) else {
        return Err(LineFault::NoMemory);
    };
    Ok(())
}

/// Pops the top tree.
#[tactic(auto, using(crate::proofs::StackLemmas::top_one, crate::proofs::StackLemmas::below_one))]
fn pop(state: &mut HeadState) -> Option<Hir>
    ensures found { MatchOption result (length state.old.stack.items ≡ 0) (λ x. (0 < length state.old.stack.items)
        × (slice_index_or (top 1 state.old.stack.items) 0 empty ≡ x)
        × (state.new.stack.items ≡ below 1 state.old.stack.items)) }
    ensures patterns { state.new.patterns.items ≡ state.old.patterns.items }
    ensures setup { state.new.setup ≡ state.old.setup }
{
    state.stack.pop()
}

/// Pops `count` trees; the lowest comes first.
fn pop_many(state: &mut HeadState, count: u32) -> Result<Vec<Hir>, LineFault>
    ensures ok { IfOk result (λ parts. (count ≤ length state.old.stack.items)
        × (parts.items ≡ top count state.old.stack.items)
        × (state.new.stack.items ≡ below count state.old.stack.items)) }
    ensures err { IfErr result (λ e. ReportsLineFault (when (nat_lt (length state.old.stack.items) count) TooFewTrees) e) }
    ensures patterns { state.new.patterns.items ≡ state.old.patterns.items }
    ensures setup { state.new.setup ≡ state.old.setup }
{
    let len = state.stack.len();
    if len < count as usize {
        return Err(LineFault::Is(FaultKind::TooFewTrees));
    }
    let Ok(parts) = state.stack.split_off(len - count as usize) else {
        return Err(LineFault::NoMemory);
    };
    Ok(parts)
}

fn utf8_line(args: &[&[u8]], state: &mut HeadState) -> Result<(), LineFault>
    requires { length args.now ≡ 1 }
    ensures ok { OnOk result (IsDone Utf8 (texts args.now) (query_value state.old) (query_value state.new)) }
    ensures err { IfErr result (λ e. ReportsLineFault (left_fault Utf8 (texts args.now) (query_value state.old)) e) }
{
    let Some(on) = switch(word_at(args, 0)) else {
        return Err(LineFault::Is(FaultKind::BadChoice));
    };
    state.setup.settings.utf8 = on;
    Ok(())
}

fn byte_at(args: &[&[u8]], i: usize) -> Result<u8, LineFault>
    requires { i < length args.now }
    ensures ok { IfOk result (λ b. hex_byte (word_at (texts args.now) i) ≡ Some b) }
    ensures err { IfErr result (λ e. ReportsLineFault (byte_fault (word_at (texts args.now) i)) e) }
{
    hex_byte(word_at(args, i)).ok_or(LineFault::Is(FaultKind::BadHex))
}

fn terminator_line(args: &[&[u8]], state: &mut HeadState) -> Result<(), LineFault>
    requires { (length args.now ≡ 1) ⊎ (length args.now ≡ 2) }
    ensures ok { OnOk result (IsDone Line (texts args.now) (query_value state.old) (query_value state.new)) }
    ensures err { IfErr result (λ e. ReportsLineFault (left_fault Line (texts args.now) (query_value state.old)) e) }
{
    let first = byte_at(args, 0)?;
    let mut terminator = LineTerm::one(first);
    if args.len() == 2 {
        terminator = LineTerm::two(first, byte_at(args, 1)?);
    }
    state.setup.settings.line_terminator = terminator;
    Ok(())
}

fn capacity_line(args: &[&[u8]], state: &mut HeadState) -> Result<(), LineFault>
    requires { length args.now ≡ 1 }
    ensures ok { OnOk result (IsDone Capacity (texts args.now) (query_value state.old) (query_value state.new)) }
    ensures err { IfErr result (λ e. ReportsLineFault (left_fault Capacity (texts args.now) (query_value state.old)) e) }
{
    let Some(bytes) = number(word_at(args, 0)) else {
        return Err(LineFault::Is(FaultKind::BadNumber));
    };
    let dfa = state.setup.settings.dfa;
    state.setup.settings.dfa = dfa.cache_capacity(bytes as usize);
    Ok(())
}

fn quit_line(args: &[&[u8]], state: &mut HeadState) -> Result<(), LineFault>
    requires { length args.now ≡ 1 }
    ensures ok { OnOk result (IsDone Quit (texts args.now) (query_value state.old) (query_value state.new)) }
    ensures err { IfErr result (λ e. ReportsLineFault (left_fault Quit (texts args.now) (query_value state.old)) e) }
{
    let byte = byte_at(args, 0)?;
    let dfa = state.setup.settings.dfa;
    state.setup.settings.dfa = dfa.quit(byte, true);
    Ok(())
}

fn classes_line(args: &[&[u8]], state: &mut HeadState) -> Result<(), LineFault>
    requires { length args.now ≡ 1 }
    ensures ok { OnOk result (IsDone Classes (texts args.now) (query_value state.old) (query_value state.new)) }
    ensures err { IfErr result (λ e. ReportsLineFault (left_fault Classes (texts args.now) (query_value state.old)) e) }
{
    let Some(on) = switch(word_at(args, 0)) else {
        return Err(LineFault::Is(FaultKind::BadChoice));
    };
    let dfa = state.setup.settings.dfa;
    state.setup.settings.dfa = dfa.byte_classes(on);
    Ok(())
}

fn shrink_line(args: &[&[u8]], state: &mut HeadState) -> Result<(), LineFault>
    requires { length args.now ≡ 1 }
    ensures ok { OnOk result (IsDone Shrink (texts args.now) (query_value state.old) (query_value state.new)) }
    ensures err { IfErr result (λ e. ReportsLineFault (left_fault Shrink (texts args.now) (query_value state.old)) e) }
{
    let Some(on) = switch(word_at(args, 0)) else {
        return Err(LineFault::Is(FaultKind::BadChoice));
    };
    state.setup.settings.shrink = on;
    Ok(())
}

fn anchored_line(args: &[&[u8]], state: &mut HeadState) -> Result<(), LineFault>
    requires { length args.now ≡ 1 }
    ensures ok { OnOk result (IsDone Anchored (texts args.now) (query_value state.old) (query_value state.new)) }
    ensures err { IfErr result (λ e. ReportsLineFault (left_fault Anchored (texts args.now) (query_value state.old)) e) }
{
    let Some(yes) = yes_or_no(word_at(args, 0)) else {
        return Err(LineFault::Is(FaultKind::BadChoice));
    };
    state.setup.anchored = yes;
    Ok(())
}

fn span_line(args: &[&[u8]], state: &mut HeadState) -> Result<(), LineFault>
    requires { length args.now ≡ 2 }
    ensures ok { OnOk result (IsDone SpanWord (texts args.now) (query_value state.old) (query_value state.new)) }
    ensures err { IfErr result (λ e. ReportsLineFault (left_fault SpanWord (texts args.now) (query_value state.old)) e) }
{
    let Some(start) = number(word_at(args, 0)) else {
        return Err(LineFault::Is(FaultKind::BadNumber));
    };
    let Some(end) = number(word_at(args, 1)) else {
        return Err(LineFault::Is(FaultKind::BadNumber));
    };
    state.setup.span = Some(Span {
        start: start as usize,
        end: end as usize,
    });
    Ok(())
}

#[tactic(auto, using(crate::proofs::StackLemmas::below_none))]
fn empty_line(args: &[&[u8]], state: &mut HeadState) -> Result<(), LineFault>
    ensures ok { OnOk result (IsDone Empty (texts args.now) (query_value state.old) (query_value state.new)) }
    ensures err { IfErr result (λ e. ReportsLineFault (left_fault Empty (texts args.now) (query_value state.old)) e) }
{
    push(state, Hir::empty())
}

#[tactic(auto, using(crate::proofs::StackLemmas::below_none))]
fn lit_line(alloc: Global, args: &[&[u8]], state: &mut HeadState) -> Result<(), LineFault>
    requires { length args.now ≡ 1 }
    ensures ok { OnOk result (IsDone Lit (texts args.now) (query_value state.old) (query_value state.new)) }
    ensures err { IfErr result (λ e. ReportsLineFault (left_fault Lit (texts args.now) (query_value state.old)) e) }
{
    let bytes = hex_bytes(alloc, word_at(args, 0))?;
    push(state, Hir::literal(bytes))
}

#[tactic(auto, using(crate::proofs::StackLemmas::below_none))]
fn bytes_line(alloc: Global, args: WordsLeft, state: &mut HeadState) -> Result<(), LineFault>
    ensures ok { OnOk result (IsDone Bytes (words_left args.entry) (query_value state.old) (query_value state.new)) }
    ensures err { IfErr result (λ e. ReportsLineFault (left_fault Bytes (words_left args.entry) (query_value state.old)) e) }
{
    let ends = low_ends(args)?;
    let Ok(ranges) = class_ranges(alloc, &ends) else {
        return Err(LineFault::NoMemory);
    };
    push(state, Hir::bytes(ranges))
}

#[tactic(auto, using(crate::proofs::StackLemmas::below_none, crate::proofs::ScalarRangeLemmas::faultless_items_ascend))]
fn chars_line(alloc: Global, args: WordsLeft, state: &mut HeadState) -> Result<(), LineFault>
    ensures ok { OnOk result (IsDone Chars (words_left args.entry) (query_value state.old) (query_value state.new)) }
    ensures err { IfErr result (λ e. ReportsLineFault (left_fault Chars (words_left args.entry) (query_value state.old)) e) }
{
    let items = scalar_items(alloc, args)?;
    let Ok(ranges) = scalar_ranges(alloc, items) else {
        return Err(LineFault::NoMemory);
    };
    push(state, Hir::chars(ranges))
}

#[tactic(auto, using(crate::proofs::StackLemmas::below_none))]
fn look_line(args: &[&[u8]], state: &mut HeadState) -> Result<(), LineFault>
    requires { length args.now ≡ 1 }
    ensures ok { OnOk result (IsDone Look (texts args.now) (query_value state.old) (query_value state.new)) }
    ensures err { IfErr result (λ e. ReportsLineFault (left_fault Look (texts args.now) (query_value state.old)) e) }
{
    let Some(assertion) = look_named(word_at(args, 0)) else {
        return Err(LineFault::Is(FaultKind::UnknownLook));
    };
    push(state, Hir::look(assertion))
}

fn is_at_most(n: u32, most: Option<u32>) -> bool
    ensures { result ≡ is_at_most n most }
{
    match most {
        None => true,
        Some(most) => n <= most,
    }
}

fn rep_line(alloc: Global, args: &[&[u8]], state: &mut HeadState) -> Result<(), LineFault>
    requires { length args.now ≡ 3 }
    ensures ok { OnOk result (IsDone Rep (texts args.now) (query_value state.old) (query_value state.new)) }
    ensures err { IfErr result (λ e. ReportsLineFault (left_fault Rep (texts args.now) (query_value state.old)) e) }
{
    let Some(min) = number(word_at(args, 0)) else {
        return Err(LineFault::Is(FaultKind::BadNumber));
    };
    let Some(max) = bound(word_at(args, 1)) else {
        return Err(LineFault::Is(FaultKind::BadNumber));
    };
    let Some(greedy) = order(word_at(args, 2)) else {
        return Err(LineFault::Is(FaultKind::BadChoice));
    };
    if !is_at_most(min, max) {
        return Err(LineFault::Is(FaultKind::MinAboveMax));
    }
    let Some(sub) = pop(state) else {
        return Err(LineFault::Is(FaultKind::TooFewTrees));
    };
    let Ok(tree) = Hir::repetition(alloc, min, max, greedy, sub) else {
        return Err(LineFault::NoMemory);
    };
    push(state, tree)
}

fn cat_line(args: &[&[u8]], state: &mut HeadState) -> Result<(), LineFault>
    requires { length args.now ≡ 1 }
    ensures ok { OnOk result (IsDone Cat (texts args.now) (query_value state.old) (query_value state.new)) }
    ensures err { IfErr result (λ e. ReportsLineFault (left_fault Cat (texts args.now) (query_value state.old)) e) }
{
    let Some(count) = number(word_at(args, 0)) else {
        return Err(LineFault::Is(FaultKind::BadNumber));
    };
    let parts = pop_many(state, count)?;
    push(state, Hir::concat(parts))
}

fn alt_line(args: &[&[u8]], state: &mut HeadState) -> Result<(), LineFault>
    requires { length args.now ≡ 1 }
    ensures ok { OnOk result (IsDone Alt (texts args.now) (query_value state.old) (query_value state.new)) }
    ensures err { IfErr result (λ e. ReportsLineFault (left_fault Alt (texts args.now) (query_value state.old)) e) }
{
    let Some(count) = number(word_at(args, 0)) else {
        return Err(LineFault::Is(FaultKind::BadNumber));
    };
    let parts = pop_many(state, count)?;
    push(state, Hir::alternation(parts))
}

fn pattern_line(args: &[&[u8]], state: &mut HeadState) -> Result<(), LineFault>
    ensures ok { OnOk result (IsDone Pattern (texts args.now) (query_value state.old) (query_value state.new)) }
    ensures err { IfErr result (λ e. ReportsLineFault (left_fault Pattern (texts args.now) (query_value state.old)) e) }
{
    if state.stack.len() != 1 {
        return Err(LineFault::Is(FaultKind::NotOneTree));
    }
    let Some(tree) = state.stack.pop() else {
        unreachable!()
    };
    let Ok(()) = push_onto(&mut state.patterns, tree) else {
        return Err(LineFault::NoMemory);
    };
    Ok(())
}

fn find_line(args: &[&[u8]], state: &mut HeadState) -> Result<(), LineFault>
    ensures ok { OnOk result (IsDone Find (texts args.now) (query_value state.old) (query_value state.new)) }
    ensures err { IfErr result (λ e. ReportsLineFault (left_fault Find (texts args.now) (query_value state.old)) e) }
{
    if state.stack.len() != 0 {
        return Err(LineFault::Is(FaultKind::TreeLeftOver));
    }
    Ok(())
}

/// Whether `count` words may follow the line's first.
fn is_word_count(word: LineWord, count: usize) -> bool
    ensures { result ≡ is_word_count word count }
{
    match word {
        LineWord::Empty | LineWord::Pattern | LineWord::Find => count == 0,
        LineWord::Utf8 | LineWord::Capacity | LineWord::Quit => count == 1,
        LineWord::Classes | LineWord::Shrink | LineWord::Anchored => count == 1,
        LineWord::Lit | LineWord::Look | LineWord::Cat | LineWord::Alt => count == 1,
        LineWord::Line => count == 1 || count == 2,
        LineWord::Span => count == 2,
        LineWord::Bytes | LineWord::Chars => count >= 1,
        LineWord::Rep => count == 3,
    }
}

fn is_setting(word: LineWord) -> bool
    ensures { result ≡ is_setting word }
{
    matches!(
        word,
        LineWord::Utf8
            | LineWord::Line
            | LineWord::Capacity
            | LineWord::Quit
            | LineWord::Classes
            | LineWord::Shrink
            | LineWord::Anchored
            | LineWord::Span
    )
}

/// Whether the line is a class, which may have any number of items.
fn is_class(word: LineWord) -> bool
    ensures { result ≡ is_class word }
{
    matches!(word, LineWord::Bytes | LineWord::Chars)
}

/// Whether the line sets something after a tree has been pushed. Such a tree is on the stack, itself or
/// within another, or was taken as a pattern.
fn is_setting_after_node(word: LineWord, state: &HeadState) -> bool
    ensures { result ≡ is_setting_after_node word (query_value state.now) }
{
    is_setting(word) && (state.stack.len() > 0 || state.patterns.len() > 0)
}

/// Follows a line that sets something and has as many words as it has to.
fn follow_setting(word: LineWord, args: &[&[u8]], state: &mut HeadState) -> Result<(), LineFault>
    requires setting { IsTrue (is_setting word) }
    requires counted { IsTrue (is_word_count word (length args.now)) }
    ensures ok { OnOk result (IsDone word (texts args.now) (query_value state.old) (query_value state.new)) }
    ensures err { IfErr result (λ e. ReportsLineFault (left_fault word (texts args.now) (query_value state.old)) e) }
{
    match word {
        LineWord::Utf8 => utf8_line(args, state),
        LineWord::Line => terminator_line(args, state),
        LineWord::Capacity => capacity_line(args, state),
        LineWord::Quit => quit_line(args, state),
        LineWord::Classes => classes_line(args, state),
        LineWord::Shrink => shrink_line(args, state),
        LineWord::Anchored => anchored_line(args, state),
        LineWord::Span => span_line(args, state),
        _ => unreachable!(),
    }
}

/// Follows another line that is no class and has as many words as it has to.
fn follow_other(
    alloc: Global,
    word: LineWord,
    args: &[&[u8]],
    state: &mut HeadState,
) -> Result<(), LineFault>
    requires other { is_setting word ≡ false }
    requires no_class { is_class word ≡ false }
    requires counted { IsTrue (is_word_count word (length args.now)) }
    ensures ok { OnOk result (IsDone word (texts args.now) (query_value state.old) (query_value state.new)) }
    ensures err { IfErr result (λ e. ReportsLineFault (left_fault word (texts args.now) (query_value state.old)) e) }
{
    match word {
        LineWord::Empty => empty_line(args, state),
        LineWord::Lit => lit_line(alloc, args, state),
        LineWord::Look => look_line(args, state),
        LineWord::Rep => rep_line(alloc, args, state),
        LineWord::Cat => cat_line(args, state),
        LineWord::Alt => alt_line(args, state),
        LineWord::Pattern => pattern_line(args, state),
        LineWord::Find => find_line(args, state),
        _ => unreachable!(),
    }
}

/// What comes after a line of this first word.
fn step_after(word: LineWord) -> Step
    ensures { result ≡ step_after word }
{
    match word {
        LineWord::Find => Step::End,
        _ => Step::Next,
    }
}

/// Follows a line that is a class of one item or more.
fn follow_class(
    alloc: Global,
    word: LineWord,
    args: WordsLeft,
    state: &mut HeadState,
) -> Result<Step, LineFault>
    requires { is_class word ≡ true }
    ensures ok { IfOk result (λ step. IsDone word (words_left args.entry) (query_value state.old) (query_value state.new)
        × (step ≡ step_after word)) }
    ensures err { IfErr result (λ e. ReportsLineFault (left_fault word (words_left args.entry) (query_value state.old)) e) }
{
    match word {
        LineWord::Bytes => bytes_line(alloc, args, state)?,
        LineWord::Chars => chars_line(alloc, args, state)?,
        _ => unreachable!(),
    }
    Ok(Step::Next)
}

/// Follows a line that is no class and has as many words as it has to.
fn follow_counted(
    alloc: Global,
    word: LineWord,
    args: &[&[u8]],
    state: &mut HeadState,
) -> Result<Step, LineFault>
    requires no_class { is_class word ≡ false }
    requires counted { IsTrue (is_word_count word (length args.now)) }
    ensures ok { IfOk result (λ step. IsDone word (texts args.now) (query_value state.old) (query_value state.new)
        × (step ≡ step_after word)) }
    ensures err { IfErr result (λ e. ReportsLineFault (left_fault word (texts args.now) (query_value state.old)) e) }
{
    if is_setting(word) {
        follow_setting(word, args, state)?;
    } else {
        follow_other(alloc, word, args, state)?;
    }
    Ok(step_after(word))
}

/// Follows a line of this first word and these words after it.
#[tactic(auto, using(crate::proofs::StageLemmas::known_fault_setting))]
fn follow(
    alloc: Global,
    word: LineWord,
    args: WordsLeft,
    state: &mut HeadState,
) -> Result<Step, LineFault>
    ensures ok { IfOk result (λ step. (known_fault word (words_left args.entry) (query_value state.old) ≡ None)
        × (query_value state.new ≡ after_line word (words_left args.entry) (query_value state.old)) × (step ≡ step_after word)) }
    ensures err { IfErr result (λ e. ReportsLineFault (known_fault word (words_left args.entry) (query_value state.old)) e) }
{
    if is_setting_after_node(word, state) {
        return Err(LineFault::Is(FaultKind::SettingAfterNode));
    }
    let Ok(first) = args.at_most(alloc, MORE_THAN_MAY_FOLLOW) else {
        return Err(LineFault::NoMemory);
    };
    let reported = follow_words(alloc, word, &first, args, state);
    drop(first);
    reported
}

/// Follows a line that may stand there. `first` has the first words after the line's own word.
fn follow_words(
    alloc: Global,
    word: LineWord,
    first: &[&[u8]],
    args: WordsLeft,
    state: &mut HeadState,
) -> Result<Step, LineFault>
    requires allowed { is_setting_after_node word (query_value state.old) ≡ false }
    requires first { texts first.now ≡ take 4 (words_left args) }
    ensures ok { IfOk result (λ step. (known_fault word (words_left args.entry) (query_value state.old) ≡ None)
        × (query_value state.new ≡ after_line word (words_left args.entry) (query_value state.old)) × (step ≡ step_after word)) }
    ensures err { IfErr result (λ e. ReportsLineFault (known_fault word (words_left args.entry) (query_value state.old)) e) }
{
    if !is_word_count(word, first.len()) {
        return Err(LineFault::Is(FaultKind::WrongWordCount));
    }
    if is_class(word) {
        return follow_class(alloc, word, args, state);
    }
    follow_counted(alloc, word, first, state)
}

/// Follows a line, given without its line feed.
pub(crate) fn read_line(
    alloc: Global,
    line: &[u8],
    state: &mut HeadState,
) -> Result<Step, LineFault>
    ensures ok { IfOk result (λ step. ReportsStep (words line.now) (query_value state.old) (query_value state.new) step) }
    ensures err { IfErr result (λ e. ReportsLineFault (fault (words line.now) (query_value state.old)) e) }
{
    let mut args = WordsLeft::of(line);
    let Some(first) = args.next() else {
        return Err(LineFault::Is(FaultKind::UnknownWord));
    };
    let Some(word) = line_word(first) else {
        return Err(LineFault::Is(FaultKind::UnknownWord));
    };
    follow(alloc, word, args, state)
}
