//! The library for C, C++, Rust and Python. Each call applies the corresponding function of [`ffi_core`] to what a handle holds.
//!
//! The header, `capi/hanneddois.h`, documents the calls and what a caller has to guarantee. Its rules are those of Rust's types: a handle
//! holds what its ghost field says, slices have the lengths that are passed with them, and a call has exclusive use of what it borrows.
//! `specs/Answers.antt` defines what each result means, in terms of the patterns and options from which the handle's regex is made.
#![tactic(auto)]

mod apart;
mod handle;
pub mod stream_calls;
mod stream_handle;

ghost use Rattle.std.specs.Prelude.{◌≡◌, ◌≢◌, ◌⊎◌, ◌<◌, ◌≤◌, ◌*◌, Some, None, IfSome, IfOk, IfErr, false, length, nat_eq, replicate};
ghost use Rattle.std.specs.Prelude.{if◌then◌else◌, nat_lt, true};
ghost use Rattle.group_finder.specs.Slots.{no_offset};
ghost use Rattle.ffi_core.specs.Compiled.{IsMadeOf, IsCallError, are_arguments};
ghost use Rattle.ffi_core.specs.Failures.{plain};
ghost use Rattle.ffi_core.specs.Groups.{IsGroupCount, IsGroupName};
ghost use Rattle.ffi_core.specs.Texts.{cut};
ghost use Rattle.hanneddois.specs.Answers.{AnswersIsMatch, AnswersFind, AnswersCaptures, AnswersAll, AnswersCapturesAll, AnswersCapturesNext, AnswersWhichMatch};
ghost use Rattle.hanneddois.specs.Answers.{KeptNext, has_rows, AnswersReplace, FailsReplace, is_replaced, pattern_count_of};
ghost use Rattle.hanneddois.specs.Answers.{RejectsNew, ReportsStatus, FailsSearch, FailsCaptures, FailsMatchingPatterns};

use apart::boxed;
use ffi_core::{
    Compiled, Failure, FoundMatch, NO_OFFSET, NewError, Options, accepts, error_text, patterns_of,
};
use handle::Handle;
use meta_regex::Regex;
use std::alloc::{AllocError, Global};

/// The call succeeded: a regex is made, or there is a match.
const OK: u32 = 0;

/// There is no match.
const NONE: u32 = 1;

/// An argument isn't one that the call accepts.
const BAD_ARGUMENT: u32 = 2;

/// Memory ran out.
const NO_MEMORY: u32 = 3;

/// There is no room for the whole output.
const OUTPUT_TOO_SMALL: u32 = 13;

/// The flag of a replacement whose bytes are written as they are.
const LITERAL: u32 = 1;

const VERSION: u32 = 300;

/// Writes an error with this status alone, and returns the status.
fn end(status: u32, error: &mut Failure) -> u32
    ensures status { result ≡ status }
    ensures reported { error.new ≡ plain status }
{
    *error = Failure::plain(status);
    status
}

fn refuse(failure: Failure, error: &mut Failure) -> u32
    ensures status { result ≡ failure.status }
    ensures reported { error.new ≡ failure }
{
    *error = failure;
    failure.status
}

/// A compiled regex in a memory block of its own.
fn made(
    alloc: Global,
    texts: &[u8],
    lengths: &[usize],
    options: &Options,
) -> Result<Box<Compiled>, NewError>
    ensures made { IfOk result (λ b. IsMadeOf options.now (cut lengths.now texts.now) b.value) }
    ensures refused { IfErr result (IsCallError options.now lengths.now texts.now) }
{
    let texts = match patterns_of(alloc, texts, lengths) {
        Ok(texts) => texts,
        Err(e) => return Err(e),
    };
    let compiled = match Compiled::new(alloc, &texts, options) {
        Ok(compiled) => compiled,
        Err(e) => return Err(e),
    };
    match boxed(alloc, compiled) {
        Ok(inside) => Ok(inside),
        Err(_) => Err(NewError::NoMemory),
    }
}

/// Makes a regex from patterns and returns the status 0, or returns an error:
///
/// - 2: an argument isn't one that the call accepts. Arguments are checked before all else.
/// - 3: memory ran out.
/// - 4: a pattern isn't UTF-8.
/// - 5: a pattern has a syntax error.
/// - 6: a pattern nests too deep.
/// - 7: a pattern has an unbounded repetition whose body can match the empty string.
/// - 8: the automata are larger than allowed, or what finds groups is.
/// - 9: the capacity of a cache is less than it needs.
///
/// No options lead to the status 10, which is about Unicode word boundaries.
#[unsafe(no_mangle)]
pub extern "C" fn hanneddois_new(
    alloc: Global,
    regex: &mut Handle,
    texts: &[u8],
    lengths: &[usize],
    options: &Options,
    error: &mut Failure,
) -> u32
    ensures reported { error.new.status ≡ result }
    ensures holds { result ≡ 0 → regex.new.value ≢ None }
    ensures made { IfSome regex.new.value (IsMadeOf options.now (cut lengths.now texts.now)) }
    ensures empty { result ≢ 0 → regex.new.value ≡ None }
    ensures plain { result ≡ 0 → error.new ≡ plain 0 }
    ensures argument { are_arguments options.now lengths.now texts.now ≡ false → error.new ≡ plain 2 }
    ensures refused { RejectsNew options.now lengths.now texts.now error.new }
{
    drop(regex.take(alloc));
    if !accepts(texts, lengths, options) {
        return end(BAD_ARGUMENT, error);
    }
    match made(alloc, texts, lengths, options) {
        Ok(inside) => {
            regex.put(alloc, inside);
            end(OK, error)
        }
        Err(e) => refuse(e.failure(), error),
    }
}

/// Checks that threads may use values of this type at the same time.
fn shareable<T: Send + Sync>() {}

/// A second handle of the same regex, in a memory block of its own. Both share the [`Regex`], and threads may use them at the same time.
fn copied(alloc: Global, inside: &Compiled) -> Result<Box<Compiled>, AllocError>
    ensures { IfOk result (λ b. b.value ≡ inside.now) }
{
    shareable::<Regex>();
    let compiled = inside.try_clone(alloc)?;
    match boxed(alloc, compiled) {
        Ok(copy) => Ok(copy),
        Err(error) => Err(error),
    }
}

/// Makes `to` a second handle of the regex of `from`, with caches of its own, and returns the status 0. Both share the compiled patterns, so
/// nothing is parsed or compiled. Otherwise `to` is empty, and the status says why:
///
/// - 2: `from` is empty.
/// - 3: memory ran out.
///
/// What `to` held before is freed.
#[unsafe(no_mangle)]
pub extern "C" fn hanneddois_clone(alloc: Global, from: &mut Handle, to: &mut Handle) -> u32
    ensures same { from.new.value ≡ from.old.value }
    ensures copied { result ≡ 0 → to.new.value ≡ from.old.value }
    ensures empty { result ≢ 0 → to.new.value ≡ None }
    ensures argument { from.old.value ≡ None → result ≡ 2 }
    ensures refused { IfSome from.old.value (λ _. (result ≡ 0) ⊎ (result ≡ 3)) }
{
    drop(to.take(alloc));
    let Some(inside) = from.take(alloc) else {
        return BAD_ARGUMENT;
    };
    let copy = copied(alloc, &inside);
    from.put(alloc, inside);
    match copy {
        Ok(copy) => {
            to.put(alloc, copy);
            OK
        }
        Err(_) => NO_MEMORY,
    }
}

/// Frees what the handle holds.
#[unsafe(no_mangle)]
pub extern "C" fn hanneddois_free(alloc: Global, regex: &mut Handle)
    ensures { regex.new.value ≡ None }
{
    drop(regex.take(alloc));
}

/// The number of patterns of the regex.
#[unsafe(no_mangle)]
pub extern "C" fn hanneddois_pattern_count(alloc: Global, regex: &mut Handle) -> usize
    ensures same { regex.new.value ≡ regex.old.value }
    ensures count { result ≡ pattern_count_of regex.old.value }
{
    let Some(inside) = regex.take(alloc) else {
        return 0;
    };
    let count = inside.pattern_count();
    regex.put(alloc, inside);
    count
}

/// The number of groups of the pattern with a number, group 0 counted. 0 if there is no such pattern, or if the handle is empty.
#[unsafe(no_mangle)]
pub extern "C" fn hanneddois_group_count(alloc: Global, regex: &mut Handle, pattern: usize) -> usize
    ensures same { regex.new.value ≡ regex.old.value }
    ensures empty { regex.old.value ≡ None → result ≡ 0 }
    ensures count { IfSome regex.old.value (λ v. IsGroupCount v pattern result) }
{
    let Some(inside) = regex.take(alloc) else {
        return 0;
    };
    let count = inside.group_count(pattern);
    regex.put(alloc, inside);
    count
}

/// Writes the name of a group of the pattern with a number, as far as it fits. Returns the length of the name in bytes, or 0 if there is no
/// such group, if it has no name, or if the handle is empty.
#[unsafe(no_mangle)]
pub extern "C" fn hanneddois_group_name(
    alloc: Global,
    regex: &mut Handle,
    pattern: usize,
    group: usize,
    name: &mut [u8],
) -> usize
    ensures same { regex.new.value ≡ regex.old.value }
    ensures empty { regex.old.value ≡ None → (result ≡ 0) × (name.new ≡ name.old) }
    ensures name { IfSome regex.old.value (λ v. IsGroupName v pattern group name.old name.new result) }
{
    let Some(inside) = regex.take(alloc) else {
        return 0;
    };
    let length = inside.write_group_name(pattern, group, name);
    regex.put(alloc, inside);
    length
}

/// The bytes that the caches are estimated to need.
#[unsafe(no_mangle)]
pub extern "C" fn hanneddois_memory_usage(alloc: Global, regex: &mut Handle) -> usize
    ensures same { regex.new.value ≡ regex.old.value }
{
    let Some(inside) = regex.take(alloc) else {
        return 0;
    };
    let bytes = inside.memory_usage();
    regex.put(alloc, inside);
    bytes
}

/// How often the caches were cleared, also those that larger ones have replaced.
#[unsafe(no_mangle)]
pub extern "C" fn hanneddois_clear_count(alloc: Global, regex: &mut Handle) -> usize
    ensures same { regex.new.value ≡ regex.old.value }
{
    let Some(inside) = regex.take(alloc) else {
        return 0;
    };
    let count = inside.clear_count();
    regex.put(alloc, inside);
    count
}

/// Whether there is a match. The status is 0 if there is one, and 1 if there is none. Otherwise it is an error:
///
/// - 2: the handle is empty.
/// - 3: memory ran out.
/// - 8: the toolchain's regexes that the search needs are too large.
/// - 12: the haystack isn't UTF-8 but has to be.
#[unsafe(no_mangle)]
pub extern "C" fn hanneddois_is_match(
    alloc: Global,
    regex: &mut Handle,
    haystack: &[u8],
    error: &mut Failure,
) -> u32
    ensures status { ReportsStatus result error.new }
    ensures same { regex.new.value ≡ regex.old.value }
    ensures empty { regex.old.value ≡ None → error.new ≡ plain 2 }
    ensures answer { IfSome regex.old.value (λ v. AnswersIsMatch v haystack.now result) }
    ensures refused { IfSome regex.old.value (λ v. FailsSearch v haystack.now error.new) }
{
    let Some(mut inside) = regex.take(alloc) else {
        return end(BAD_ARGUMENT, error);
    };
    let reported = inside.is_match(alloc, haystack);
    regex.put(alloc, inside);
    match reported {
        Ok(true) => end(OK, error),
        Ok(false) => end(NONE, error),
        Err(e) => refuse(Failure::of_search(&e), error),
    }
}

/// The leftmost match from an offset on. The status is 0 if there is one, and 1 if there is none. The errors are those of
/// [`hanneddois_is_match`], and 2 also if the offset is after the end of the haystack.
#[unsafe(no_mangle)]
pub extern "C" fn hanneddois_find_at(
    alloc: Global,
    regex: &mut Handle,
    haystack: &[u8],
    from: usize,
    found: &mut FoundMatch,
    error: &mut Failure,
) -> u32
    ensures status { ReportsStatus result error.new }
    ensures same { regex.new.value ≡ regex.old.value }
    ensures none { 0 < result → found.new ≡ record { pattern = 0; start = 0; end = 0 } }
    ensures empty { regex.old.value ≡ None → error.new ≡ plain 2 }
    ensures behind { length haystack.now < from → error.new ≡ plain 2 }
    ensures answer { IfSome regex.old.value (λ v. AnswersFind v haystack.now from found.new result) }
    ensures refused { from ≤ length haystack.now → IfSome regex.old.value (λ v. FailsSearch v haystack.now error.new) }
{
    *found = FoundMatch::zero();
    if haystack.len() < from {
        return end(BAD_ARGUMENT, error);
    }
    let Some(mut inside) = regex.take(alloc) else {
        return end(BAD_ARGUMENT, error);
    };
    let reported = inside.find_at(alloc, haystack, from);
    regex.put(alloc, inside);
    match reported {
        Ok(Some(it)) => {
            *found = it;
            end(OK, error)
        }
        Ok(None) => end(NONE, error),
        Err(e) => refuse(Failure::of_search(&e), error),
    }
}

/// Writes into all slots that there is no offset, and into the error that an argument is bad.
fn reject(slots: &mut [usize], error: &mut Failure) -> u32
    ensures status { result ≡ 2 }
    ensures reported { error.new ≡ plain 2 }
    ensures cleared { slots.new ≡ replicate (length slots.old) no_offset }
{
    slots.fill(NO_OFFSET);
    end(BAD_ARGUMENT, error)
}

/// The leftmost match from an offset on, with the offsets of its groups. The status is 0 if there is one, and 1 if there is none. The errors
/// are those of [`hanneddois_find_at`], and 8 also if what finds the groups is too large.
#[unsafe(no_mangle)]
pub extern "C" fn hanneddois_captures(
    alloc: Global,
    regex: &mut Handle,
    haystack: &[u8],
    from: usize,
    found: &mut FoundMatch,
    slots: &mut [usize],
    error: &mut Failure,
) -> u32
    ensures status { ReportsStatus result error.new }
    ensures same { regex.new.value ≡ regex.old.value }
    ensures none { 0 < result → found.new ≡ record { pattern = 0; start = 0; end = 0 } }
    ensures cleared { 0 < result → slots.new ≡ replicate (length slots.old) no_offset }
    ensures empty { regex.old.value ≡ None → error.new ≡ plain 2 }
    ensures behind { length haystack.now < from → error.new ≡ plain 2 }
    ensures answer { IfSome regex.old.value (λ v. AnswersCaptures v haystack.now from (length slots.old) found.new slots.new result) }
    ensures refused { from ≤ length haystack.now → IfSome regex.old.value (λ v. FailsCaptures v haystack.now error.new) }
{
    *found = FoundMatch::zero();
    if from > haystack.len() {
        return reject(slots, error);
    }
    let Some(mut inside) = regex.take(alloc) else {
        return reject(slots, error);
    };
    let reported = inside.captures_at(alloc, haystack, from, slots);
    regex.put(alloc, inside);
    match reported {
        Ok(Some(it)) => {
            *found = it;
            end(OK, error)
        }
        Ok(None) => end(NONE, error),
        Err(e) => refuse(Failure::of_captures(&e), error),
    }
}

/// All matches. The status is 0 if there is any, and 1 if there is none. The errors are those of [`hanneddois_is_match`].
#[unsafe(no_mangle)]
pub extern "C" fn hanneddois_find_all(
    alloc: Global,
    regex: &mut Handle,
    haystack: &[u8],
    matches: &mut [FoundMatch],
    count: &mut usize,
    error: &mut Failure,
) -> u32
    ensures status { ReportsStatus result error.new }
    ensures same { regex.new.value ≡ regex.old.value }
    ensures empty { regex.old.value ≡ None → (error.new ≡ plain 2) × (count.new ≡ 0) × (matches.new ≡ matches.old) }
    ensures none { result ≡ 1 → count.new ≡ 0 }
    ensures answer { IfSome regex.old.value (λ v. AnswersAll v haystack.now count.new matches.old matches.new result) }
    ensures refused { IfSome regex.old.value (λ v. FailsSearch v haystack.now error.new) }
{
    let Some(mut inside) = regex.take(alloc) else {
        *count = 0;
        return end(BAD_ARGUMENT, error);
    };
    let (listed, reported) = inside.find_all(alloc, haystack, matches);
    regex.put(alloc, inside);
    *count = listed;
    match reported {
        Ok(()) if listed > 0 => end(OK, error),
        Ok(()) => end(NONE, error),
        Err(e) => refuse(Failure::of_search(&e), error),
    }
}

/// Whether there are so many slots as that many rows of this width have.
fn fills(slots: usize, rows: usize, width: usize) -> bool
    ensures { result ≡ nat_eq slots (rows * width) }
{
    match rows.checked_mul(width) {
        Some(room) => slots == room,
        None => false,
    }
}

/// All matches with the offsets of their groups, of each as many slots as a row is wide. The status is 0 if there is any match, and 1 if there is
/// none. The errors are those of [`hanneddois_captures`], and 2 also if the slots don't fill the rows.
#[unsafe(no_mangle)]
pub extern "C" fn hanneddois_captures_all(
    alloc: Global,
    regex: &mut Handle,
    haystack: &[u8],
    matches: &mut [FoundMatch],
    slots: &mut [usize],
    width: usize,
    count: &mut usize,
    error: &mut Failure,
) -> u32
    ensures status { ReportsStatus result error.new }
    ensures same { regex.new.value ≡ regex.old.value }
    ensures none { result ≡ 1 → count.new ≡ 0 }
    ensures empty { regex.old.value ≡ None →
        (error.new ≡ plain 2) × (count.new ≡ 0) × (matches.new ≡ matches.old) × (slots.new ≡ slots.old) }
    ensures room { length slots.old ≢ length matches.old * width →
        (error.new ≡ plain 2) × (count.new ≡ 0) × (matches.new ≡ matches.old) × (slots.new ≡ slots.old) }
    ensures answer { length slots.old ≡ length matches.old * width → IfSome regex.old.value
        (λ v. AnswersCapturesAll v haystack.now width count.new matches.old matches.new slots.old slots.new result) }
    ensures refused { length slots.old ≡ length matches.old * width → IfSome regex.old.value (λ v. FailsCaptures v haystack.now error.new) }
{
    *count = 0usize;
    if !fills(slots.len(), matches.len(), width) {
        return end(BAD_ARGUMENT, error);
    }
    let Some(mut inside) = regex.take(alloc) else {
        return end(BAD_ARGUMENT, error);
    };
    let (total, reported) = inside.captures_all(alloc, haystack, matches, slots, width);
    regex.put(alloc, inside);
    *count = total;
    match reported {
        Ok(()) => end(if total == 0 { NONE } else { OK }, error),
        Err(why) => refuse(Failure::of_captures(&why), error),
    }
}

/// Whether there is a row, and there are as many slots as rows of this width have.
fn has_rows(rows: usize, slots: usize, width: usize) -> bool
    ensures { result ≡ has_rows rows slots width }
{
    if rows == 0 {
        return false;
    }
    fills(slots, rows, width)
}

/// The next matches of a compiled regex, as [`hanneddois_captures_next`] returns them for slots that fill the rows.
fn next_matches(
    alloc: Global,
    inside: &mut Compiled,
    haystack: &[u8],
    from: &mut usize,
    matches: &mut [FoundMatch],
    slots: &mut [usize],
    width: usize,
    count: &mut usize,
    error: &mut Failure,
) -> u32
    ensures status { ReportsStatus result error.new }
    ensures same { inside.new ≡ inside.old }
    ensures none { result ≡ 1 → count.new ≡ 0 }
    ensures answer { AnswersCapturesNext inside.old haystack.now from.old width count.new from.new matches.old matches.new slots.old slots.new result }
    ensures refused { FailsCaptures inside.old haystack.now error.new }
{
    let (some, reported) = inside.captures_next(alloc, haystack, from, matches, slots, width);
    *count = some;
    match reported {
        Ok(()) => end(if some == 0 { NONE } else { OK }, error),
        Err(failed) => refuse(Failure::of_captures(&failed), error),
    }
}

/// The next matches from an offset on, as many as there are rows, with the offsets of their groups, of each as many slots as a row is wide.
/// `from` is then the offset from which the next call goes on. The status is 0 if there is any match, and 1 if there is none. The errors are
/// those of [`hanneddois_captures`], and 2 also if there are no rows, or the slots don't fill them.
#[unsafe(no_mangle)]
pub extern "C" fn hanneddois_captures_next(
    alloc: Global,
    regex: &mut Handle,
    haystack: &[u8],
    from: &mut usize,
    matches: &mut [FoundMatch],
    slots: &mut [usize],
    width: usize,
    count: &mut usize,
    error: &mut Failure,
) -> u32
    ensures status { ReportsStatus result error.new }
    ensures same { regex.new.value ≡ regex.old.value }
    ensures none { result ≡ 1 → count.new ≡ 0 }
    ensures empty { regex.old.value ≡ None → (error.new ≡ plain 2) × KeptNext from.old from.new count.new matches.old matches.new slots.old slots.new }
    ensures room { has_rows (length matches.old) (length slots.old) width ≡ false →
        (error.new ≡ plain 2) × KeptNext from.old from.new count.new matches.old matches.new slots.old slots.new }
    ensures answer { has_rows (length matches.old) (length slots.old) width ≡ true → IfSome regex.old.value
        (λ v. AnswersCapturesNext v haystack.now from.old width count.new from.new matches.old matches.new slots.old slots.new result) }
    ensures refused { has_rows (length matches.old) (length slots.old) width ≡ true → IfSome regex.old.value
        (λ v. FailsCaptures v haystack.now error.new) }
{
    *count = 0;
    if !has_rows(matches.len(), slots.len(), width) {
        return end(BAD_ARGUMENT, error);
    }
    let Some(mut inside) = regex.take(alloc) else {
        return end(BAD_ARGUMENT, error);
    };
    let status = next_matches(
        alloc,
        &mut inside,
        haystack,
        from,
        matches,
        slots,
        width,
        count,
        error,
    );
    regex.put(alloc, inside);
    status
}

/// The status of a call that has replaced so many matches, with an output of so many bytes for this room.
fn replaced_status(length: usize, room: usize, count: usize) -> u32
    ensures { result ≡ (if nat_lt room length then 13 else if nat_eq count 0 then 1 else 0) }
{
    if room < length {
        return OUTPUT_TOO_SMALL;
    }
    if count == 0 { NONE } else { OK }
}

/// Replaces the first matches of the haystack, as many as `limit` at most, or all if that is 0. The replacement is a template, or bytes that are
/// written as they are if `flags` is 1. The first bytes of the output are written, as many as there is room for.
///
/// The status is 0 if a match is replaced, and 1 if there is none. It is 13 if there is no room for the whole output. The errors are those of
/// [`hanneddois_captures`], and 2 also if `flags` is neither 0 nor 1.
#[unsafe(no_mangle)]
pub extern "C" fn hanneddois_replace_all(
    alloc: Global,
    regex: &mut Handle,
    haystack: &[u8],
    replacement: &[u8],
    limit: usize,
    flags: u32,
    output: &mut [u8],
    length: &mut usize,
    count: &mut usize,
    error: &mut Failure,
) -> u32
    ensures reported { error.new.status ≡ result }
    ensures same { regex.new.value ≡ regex.old.value }
    ensures plain { is_replaced result ≡ true → error.new ≡ plain result }
    ensures kept { is_replaced result ≡ false → (length.new ≡ 0) × (count.new ≡ 0) × (output.new ≡ output.old) }
    ensures empty { regex.old.value ≡ None → error.new ≡ plain 2 }
    ensures flags { 1 < flags → error.new ≡ plain 2 }
    ensures answer { IfSome regex.old.value (λ v. AnswersReplace v haystack.now replacement.now limit flags output.old output.new length.new
        count.new result) }
    ensures refused { flags < 2 → IfSome regex.old.value (λ v. FailsReplace v haystack.now error.new) }
{
    *length = 0;
    *count = 0;
    if flags > LITERAL {
        return end(BAD_ARGUMENT, error);
    }
    let Some(mut inside) = regex.take(alloc) else {
        return end(BAD_ARGUMENT, error);
    };
    let is_literal = flags == LITERAL;
    let reported = inside.replace_all(alloc, haystack, replacement, is_literal, limit, output);
    regex.put(alloc, inside);
    match reported {
        Ok((total, replaced)) => {
            *length = total;
            *count = replaced;
            end(replaced_status(total, output.len(), replaced), error)
        }
        Err(cause) => refuse(Failure::of_captures(&cause), error),
    }
}

/// Which patterns match. The status is 0 if some pattern does, and 1 if none does. The errors are those of [`hanneddois_is_match`], and 2
/// also if the number of marks isn't the number of patterns.
#[unsafe(no_mangle)]
pub extern "C" fn hanneddois_matching_patterns(
    alloc: Global,
    regex: &mut Handle,
    haystack: &[u8],
    matched: &mut [u8],
    count: &mut usize,
    error: &mut Failure,
) -> u32
    ensures status { ReportsStatus result error.new }
    ensures same { regex.new.value ≡ regex.old.value }
    ensures none { 0 < result → count.new ≡ 0 }
    ensures unmarked { 1 < result → matched.new ≡ replicate (length matched.old) 0 }
    ensures empty { regex.old.value ≡ None → error.new ≡ plain 2 }
    ensures answer { IfSome regex.old.value (λ v. AnswersWhichMatch v haystack.now count.new matched.new result) }
    ensures refused { IfSome regex.old.value (λ v. FailsMatchingPatterns v haystack.now matched.old error.new) }
{
    *count = 0;
    let Some(mut inside) = regex.take(alloc) else {
        matched.fill(0);
        return end(BAD_ARGUMENT, error);
    };
    let reported = inside.matching_patterns(alloc, haystack, matched);
    regex.put(alloc, inside);
    match reported {
        Ok(found) => {
            *count = found;
            end(if found > 0 { OK } else { NONE }, error)
        }
        Err(e) => refuse(Failure::of_search(&e), error),
    }
}

/// The message for an error.
#[unsafe(no_mangle)]
pub extern "C" fn hanneddois_error_text(error: &Failure, text: &mut [u8]) -> usize {
    error_text(error, text)
}

/// The version of the library.
#[unsafe(no_mangle)]
pub extern "C" fn hanneddois_version() -> u32
    ensures { result ≡ 300 }
{
    VERSION
}
