// What a word of a line says by itself.
ghost use Rattle.std.specs.Prelude.{◌≡◌, ℕ, List, ◌+◌, ◌==◌, ◌<◌, ◌≤◌, ◌∷◌, ◌++◌, ◌&&◌, ◌||◌, true, false, [], length, map, reverse};
ghost use Rattle.std.specs.Prelude.{nat_lt, nat_le, Some, None, IfOk, IfErr, OnOk};
ghost use Rattle.std.specs.List.{list_all};
ghost use Rattle.std.specs.Str.{bytes_eq};
ghost use Rattle.hir_core.specs.Means.{is_member};
ghost use Rattle.thompson_nfa.specs.LiteralGroups.{texts};
ghost use Rattle.hirscan.specs.Words.{with_byte, with_range, is_covered, AreLowEnds, class_ranges, scalar_ranges};
ghost use Rattle.hirscan.specs.Readers.{line_word, setting_word, tree_word, number, bound, order, switch, yes_or_no, hex_bytes, hex_byte};
ghost use Rattle.hirscan.specs.Readers.{item_ends, the_ends, hex_number, hex_ends, the_hex_ends, anchor_named, word_look_named};
ghost use Rattle.hirscan.specs.Readers.{word_side_named, half_look_named, look_named, word_at};
ghost use Rattle.hirscan.specs.LineFault.{unless_read, item_fault, scalar_item_fault, first_fault_of};
ghost use Rattle.hirscan.specs.QueryReports.{words_left, ReportsLineFault};
ghost use Rattle.hirscan.specs.declared.fault.FaultKind.TheVariants.{BadHex};

use crate::fault::{FaultKind, LineFault};
use crate::split::{WordsLeft, offset_of};
use hex::{FromHex, FromHexError};
use look_core::Look;
use std::alloc::{AllocError, Global};
use std::marker::Model;

/// This many items of a class of scalars are read before their ranges replace them.
const MANY_ITEMS: usize = 1 << 22;

/// The lines of the notation, by their first word.
#[derive(Clone, Copy)]
pub(crate) enum LineWord {
    Utf8,
    Line,
    Capacity,
    Quit,
    Classes,
    Shrink,
    Anchored,
    Span,
    Empty,
    Lit,
    Bytes,
    Chars,
    Look,
    Rep,
    Cat,
    Alt,
    Pattern,
    Find,
}

/// Whether a word is this name.
fn is(word: &[u8], name: &[u8]) -> bool
    ensures { result ≡ bytes_eq word.now name.now }
{
    word == name
}

/// The line that sets something and begins with this word.
fn setting_word(word: &[u8]) -> Option<LineWord>
    ensures { result ≡ setting_word word.now }
{
    if is(word, b"utf8") {
        return Some(LineWord::Utf8);
    }
    if is(word, b"line") {
        return Some(LineWord::Line);
    }
    if is(word, b"capacity") {
        return Some(LineWord::Capacity);
    }
    if is(word, b"quit") {
        return Some(LineWord::Quit);
    }
    if is(word, b"classes") {
        return Some(LineWord::Classes);
    }
    if is(word, b"shrink") {
        return Some(LineWord::Shrink);
    }
    if is(word, b"anchored") {
        return Some(LineWord::Anchored);
    }
    if is(word, b"span") {
        return Some(LineWord::Span);
    }
    None
}

/// The line that makes or takes trees, or ends the query, and begins with this word.
fn tree_word(word: &[u8]) -> Option<LineWord>
    ensures { result ≡ tree_word word.now }
{
    if is(word, b"empty") {
        return Some(LineWord::Empty);
    }
    if is(word, b"lit") {
        return Some(LineWord::Lit);
    }
    if is(word, b"bytes") {
        return Some(LineWord::Bytes);
    }
    if is(word, b"chars") {
        return Some(LineWord::Chars);
    }
    if is(word, b"look") {
        return Some(LineWord::Look);
    }
    if is(word, b"rep") {
        return Some(LineWord::Rep);
    }
    if is(word, b"cat") {
        return Some(LineWord::Cat);
    }
    if is(word, b"alt") {
        return Some(LineWord::Alt);
    }
    if is(word, b"pattern") {
        return Some(LineWord::Pattern);
    }
    if is(word, b"find") {
        return Some(LineWord::Find);
    }
    None
}

pub(crate) fn line_word(word: &[u8]) -> Option<LineWord>
    ensures { result ≡ line_word word.now }
{
    setting_word(word).or(tree_word(word))
}

/// The word at an index.
pub(crate) fn word_at<'a>(words: &[&'a [u8]], i: usize) -> &'a [u8]
    requires { i < length words.now }
    ensures { result.now ≡ word_at (texts words.now) i }
{
    words[i]
}

#[tactic(auto, using(crate::proofs::WordLemmas::number_empty, crate::proofs::WordLemmas::number_plus, crate::proofs::WordLemmas::number_zero_first, crate::proofs::WordLemmas::number_not_utf8))]
pub(crate) fn number(word: &[u8]) -> Option<u32>
    ensures { result ≡ number word.now }
{
    // `parse` takes a plus and leading zeros.
    if word.len() == 0 || word[0] == b'+' {
        return None;
    }
    if word[0] == b'0' && word.len() != 1 {
        return None;
    }
    let Ok(text) = str::from_utf8(word) else {
        return None;
    };
    text.parse().ok()
}

/// A bound on rounds: a number, or `None` for the word `inf`.
pub(crate) fn bound(word: &[u8]) -> Option<Option<u32>>
    ensures { result ≡ bound word.now }
{
    if is(word, b"inf") {
        return Some(None);
    }
    number(word).map(Some)
}

/// Whether more rounds are preferred.
pub(crate) fn order(word: &[u8]) -> Option<bool>
    ensures { result ≡ order word.now }
{
    if is(word, b"greedy") {
        return Some(true);
    }
    if is(word, b"lazy") {
        return Some(false);
    }
    None
}

/// Whether a setting is switched on.
pub(crate) fn switch(word: &[u8]) -> Option<bool>
    ensures { result ≡ switch word.now }
{
    if is(word, b"on") {
        return Some(true);
    }
    if is(word, b"off") {
        return Some(false);
    }
    None
}

/// Whether a word says yes.
pub(crate) fn yes_or_no(word: &[u8]) -> Option<bool>
    ensures { result ≡ yes_or_no word.now }
{
    if is(word, b"yes") {
        return Some(true);
    }
    if is(word, b"no") {
        return Some(false);
    }
    None
}

pub(crate) fn hex_bytes(alloc: Global, word: &[u8]) -> Result<Vec<u8>, LineFault>
    ensures ok { IfOk result (λ bytes. hex_bytes word.now ≡ Some bytes.items) }
    ensures err { IfErr result (λ e. ReportsLineFault (unless_read (hex_bytes word.now) BadHex) e) }
{
    match hex::decode(alloc, word) {
        Ok(bytes) => {
            if bytes.is_empty() {
                Err(LineFault::Is(FaultKind::BadHex))
            } else {
                Ok(bytes)
            }
        }
        Err(FromHexError::OutOfMemory) => Err(LineFault::NoMemory),
        Err(_) => Err(LineFault::Is(FaultKind::BadHex)),
    }
}

#[tactic(auto, using(crate::proofs::WordLemmas::hex_byte_sized))]
pub(crate) fn hex_byte(digits: &[u8]) -> Option<u8>
    ensures { result ≡ hex_byte digits.now }
{
    let bytes = <[u8; 1] as FromHex>::from_hex(digits).ok()?;
    Some(bytes[0])
}

fn item_ends(word: &[u8]) -> Option<(u8, u8)>
    ensures { result ≡ item_ends word.now }
{
    if word.len() != 5 || word[2] != b'-' {
        return None;
    }
    let Some(low) = hex_byte(&word[..2]) else {
        return None;
    };
    let Some(high) = hex_byte(&word[3..]) else {
        return None;
    };
    Some((low, high))
}

/// An item of a class, as its ends in order.
fn item(word: &[u8]) -> Result<(u8, u8), FaultKind>
    ensures ok { IfOk result (λ ends. (item_fault word.now ≡ None) × (ends ≡ the_ends word.now)) }
    ensures err { IfErr result (λ kind. item_fault word.now ≡ Some kind) }
{
    match item_ends(word) {
        None => Err(FaultKind::BadHex),
        Some((low, high)) => {
            if high < low {
                Err(FaultKind::BadRange)
            } else {
                Ok((low, high))
            }
        }
    }
}

/// For each byte the least low end of the items of a class that end there, or 256 if none does. A byte is in an item if one of
/// these, its own or that of a greater byte, isn't above it.
#[derive(Clone, Copy)]
pub(crate) struct LowEnds {
    lows: [u16; 256],
}

impl Model for LowEnds {
    ghost use Rattle.std.specs.Prelude.{List, ℕ};

    ghost Value = { List ℕ };

    ghost view = { λ s. s.lows };

    ghost inverse = { λ v. record { lows = v } };
}

impl LowEnds {
    /// The ends of no item.
    fn none() -> LowEnds
        ensures { (b : ℕ) → b < 256 → is_covered result b ≡ false }
    {
        LowEnds { lows: [256; 256] }
    }

    /// Adds an item of these ends.
    fn add(&mut self, low: u8, high: u8)
        ensures { (b : ℕ) → is_covered self.new b ≡ (nat_le low b && nat_le b high) || is_covered self.old b }
    {
        let end = usize::from(high);
        self.lows[end] = self.lows[end].min(u16::from(low));
    }
}

/// The ends of the items of a class.
pub(crate) fn low_ends(words: WordsLeft) -> Result<LowEnds, LineFault>
    ensures ok { IfOk result (λ ends. (first_fault_of (map item_fault (words_left words.entry)) ≡ None)
        × AreLowEnds (map the_ends (words_left words.entry)) ends) }
    ensures err { IfErr result (λ e. ReportsLineFault (first_fault_of (map item_fault (words_left words.entry))) e) }
{
    let mut ends = LowEnds::none();
    for word in words {
        match item(word) {
            Ok((low, high)) => ends.add(low, high),
            Err(kind) => return Err(LineFault::Is(kind)),
        }
    }
    Ok(ends)
}

/// Puts a byte before the ranges, which are stored from the last to the first.
fn put_byte(ranges: &mut Vec<(u8, u8)>, b: u8) -> Result<(), AllocError>
    ensures { OnOk result (reverse ranges.new.items ≡ with_byte b (reverse ranges.old.items)) }
{
    let mut high = b;
    if let Some(lowest) = ranges.pop() {
        if u16::from(lowest.0) == u16::from(b) + 1 {
            high = lowest.1;
        } else {
            ranges.push(lowest)?;
        }
    }
    ranges.push((b, high))?;
    Ok(())
}

/// The ranges of the bytes that are in an item, ascending and each as long as it can be.
pub(crate) fn class_ranges(alloc: Global, ends: &LowEnds) -> Result<Vec<(u8, u8)>, AllocError>
    ensures { (items : List (ℕ × ℕ)) → AreLowEnds items ends.now → IfOk result (λ ranges. ranges.items ≡ class_ranges items) }
{
    let mut ranges = Vec::new(alloc);
    let mut low = 256u16; // the least of the low ends that were met
    for code in (0..256usize).rev() {
        let b = code as u8;
        low = low.min(ends.lows[code]);
        if low <= u16::from(b) {
            put_byte(&mut ranges, b)?;
        }
    }
    ranges.reverse();
    Ok(ranges)
}

/// A number of one to six hexadecimal digits.
#[tactic(auto, using(crate::proofs::HexNumberLemmas::hex_number_empty, crate::proofs::HexNumberLemmas::hex_number_long, crate::proofs::HexNumberLemmas::hex_number_plus, crate::proofs::HexNumberLemmas::hex_number_not_utf8))]
fn hex_number(word: &[u8]) -> Option<u32>
    ensures { result ≡ hex_number word.now }
{
    // `from_str_radix` takes a plus.
    if word.len() == 0 || word.len() > 6 || word[0] == b'+' {
        return None;
    }
    let Ok(text) = str::from_utf8(word) else {
        return None;
    };
    u32::from_str_radix(text, 16).ok()
}

/// The two ends of an item of a class of scalars, in whichever order.
fn hex_ends(word: &[u8]) -> Option<(u32, u32)>
    ensures { result ≡ hex_ends word.now }
{
    let Some(sign) = offset_of(word, b'-') else {
        return None;
    };
    let Some(low) = hex_number(&word[..sign]) else {
        return None;
    };
    let Some(high) = hex_number(&word[sign + 1..]) else {
        return None;
    };
    Some((low, high))
}

/// An item of a class of scalars, as its ends in order.
fn scalar_item(word: &[u8]) -> Result<(char, char), FaultKind>
    ensures ok { IfOk result (λ ends. (scalar_item_fault word.now ≡ None) × (ends ≡ the_hex_ends word.now)) }
    ensures err { IfErr result (λ kind. scalar_item_fault word.now ≡ Some kind) }
{
    let Some((low, high)) = hex_ends(word) else {
        return Err(FaultKind::BadHex);
    };
    match (char::from_u32(low), char::from_u32(high)) {
        (Some(low), Some(high)) if low <= high => Ok((low, high)),
        _ => Err(FaultKind::BadRange),
    }
}

/// Whether some number lies between the end of a range and the start of a later one.
fn is_apart(end: char, start: char) -> bool
    ensures { result ≡ nat_lt (end + 1) start }
{
    u32::from(end) + 1 < u32::from(start)
}

/// Joins a range with those of the others that it meets or touches. The others are stored from the last to the first; those that
/// lie before the range are moved to `before`.
fn join_ranges(
    ranges: &mut Vec<(char, char)>,
    range: (char, char),
    before: &mut Vec<(char, char)>,
) -> Result<(char, char), AllocError>
    ensures { IfOk result (λ joined. before.old.items ++ with_range range (reverse ranges.old.items)
        ≡ before.new.items ++ joined ∷ reverse ranges.new.items) }
{
    let (mut low, mut high) = range;
    while let Some(next) = ranges.pop() {
        if is_apart(high, next.0) {
            ranges.push(next)?;
            return Ok((low, high));
        }
        if is_apart(next.1, low) {
            before.push(next)?;
        } else {
            low = low.min(next.0);
            high = high.max(next.1);
        }
    }
    Ok((low, high))
}

/// Puts ranges, which are stored from the first to the last, before others, which are stored from the last to the first.
fn put_back(ranges: &mut Vec<(char, char)>, mut before: Vec<(char, char)>) -> Result<(), AllocError>
    ensures { OnOk result (reverse ranges.new.items ≡ before.items ++ reverse ranges.old.items) }
{
    while let Some(last) = before.pop() {
        ranges.push(last)?;
    }
    Ok(())
}

/// Adds a range to the others, which are stored from the last to the first.
fn put_range(
    alloc: Global,
    ranges: &mut Vec<(char, char)>,
    range: (char, char),
) -> Result<(), AllocError>
    ensures { OnOk result (reverse ranges.new.items ≡ with_range range (reverse ranges.old.items)) }
{
    let mut before = Vec::new(alloc); // the ranges that lie before it, from the first to the last
    let joined = join_ranges(ranges, range, &mut before)?;
    ranges.push(joined)?;
    put_back(ranges, before)
}

/// The ranges of the items, which are added from the last to the first.
fn put_ranges(alloc: Global, items: &[(char, char)]) -> Result<Vec<(char, char)>, AllocError>
    ensures { IfOk result (λ ranges. ranges.items ≡ scalar_ranges items.now) }
{
    let mut ranges = Vec::new(alloc);
    for i in (0..items.len()).rev() {
        put_range(alloc, &mut ranges, items[i])?;
    }
    ranges.reverse();
    Ok(ranges)
}

fn are_in_order(items: &[(char, char)]) -> bool
    ensures { result ≡ list_all (λ item. nat_le item.0 item.1) items.now }
{
    items.iter().all(|item| item.0 <= item.1)
}

/// The items in an order in which each is put before all others. If the items have their low ends first, the ranges are the same
/// in any order.
#[tactic(auto, using(crate::proofs::AnyOrderLemmas::any_order))]
fn sorted(mut items: Vec<(char, char)>) -> Vec<(char, char)>
    ensures { scalar_ranges result.items ≡ scalar_ranges items.items }
{
    if are_in_order(&items) {
        items.sort_unstable();
    }
    items
}

/// The ranges of the scalars that are in an item, ascending and each as long as it can be.
pub(crate) fn scalar_ranges(
    alloc: Global,
    items: Vec<(char, char)>,
) -> Result<Vec<(char, char)>, AllocError>
    ensures { IfOk result (λ ranges. ranges.items ≡ scalar_ranges items.items) }
{
    let sorted = sorted(items);
    let ranges = put_ranges(alloc, &sorted)?;
    Ok(ranges)
}

/// The items, or their ranges if there are many items. Scalars have at most half a million ranges, so most of many items go.
fn compact(alloc: Global, items: Vec<(char, char)>) -> Result<Vec<(char, char)>, AllocError>
    requires { list_all (λ r. nat_le r.0 r.1) items.items ≡ true }
    ensures in_order { IfOk result (λ found. list_all (λ r. nat_le r.0 r.1) found.items ≡ true) }
    ensures members { IfOk result (λ found. (c : ℕ) → is_member found.items c ≡ is_member items.items c) }
{
    if items.len() < MANY_ITEMS {
        return Ok(items);
    }
    let ranges = scalar_ranges(alloc, items)?;
    Ok(ranges)
}

/// Adds an item. If there are many others, their ranges replace them.
fn put_item(
    alloc: Global,
    others: Vec<(char, char)>,
    item: (char, char),
) -> Result<Vec<(char, char)>, AllocError>
    requires others { list_all (λ r. nat_le r.0 r.1) others.items ≡ true }
    requires item { item.0 ≤ item.1 }
    ensures in_order { IfOk result (λ items. list_all (λ r. nat_le r.0 r.1) items.items ≡ true) }
    ensures members { IfOk result (λ items. (c : ℕ) → is_member items.items c ≡ is_member others.items c || is_member (item ∷ []) c) }
{
    let mut items = compact(alloc, others)?;
    items.push(item)?;
    Ok(items)
}

/// Items with the same ranges as those of the words.
pub(crate) fn scalar_items(alloc: Global, words: WordsLeft) -> Result<Vec<(char, char)>, LineFault>
    ensures ok { IfOk result (λ items. (first_fault_of (map scalar_item_fault (words_left words.entry)) ≡ None)
        × (scalar_ranges items.items ≡ scalar_ranges (map the_hex_ends (words_left words.entry)))) }
    ensures err { IfErr result (λ e. ReportsLineFault (first_fault_of (map scalar_item_fault (words_left words.entry))) e) }
{
    let mut items = Vec::new(alloc);
    for word in words {
        let item = match scalar_item(word) {
            Ok(item) => item,
            Err(kind) => return Err(LineFault::Is(kind)),
        };
        items = match put_item(alloc, items, item) {
            Ok(items) => items,
            Err(_) => return Err(LineFault::NoMemory),
        };
    }
    Ok(items)
}

/// The look with this name for an edge of the haystack or of a line.
fn anchor_named(word: &[u8]) -> Option<Look>
    ensures { result ≡ anchor_named word.now }
{
    if is(word, b"Start") {
        return Some(Look::Start);
    }
    if is(word, b"End") {
        return Some(Look::End);
    }
    if is(word, b"StartLF") {
        return Some(Look::StartLF);
    }
    if is(word, b"EndLF") {
        return Some(Look::EndLF);
    }
    if is(word, b"StartCRLF") {
        return Some(Look::StartCRLF);
    }
    if is(word, b"EndCRLF") {
        return Some(Look::EndCRLF);
    }
    None
}

/// The look with this name for an edge of a word.
fn word_look_named(word: &[u8]) -> Option<Look>
    ensures { result ≡ word_look_named word.now }
{
    if is(word, b"WordAscii") {
        return Some(Look::WordAscii);
    }
    if is(word, b"WordAsciiNegate") {
        return Some(Look::WordAsciiNegate);
    }
    if is(word, b"WordUnicode") {
        return Some(Look::WordUnicode);
    }
    if is(word, b"WordUnicodeNegate") {
        return Some(Look::WordUnicodeNegate);
    }
    None
}

/// The look with this name for an offset where a word begins, or where one ends.
fn word_side_named(word: &[u8]) -> Option<Look>
    ensures { result ≡ word_side_named word.now }
{
    if is(word, b"WordStartAscii") {
        return Some(Look::WordStartAscii);
    }
    if is(word, b"WordEndAscii") {
        return Some(Look::WordEndAscii);
    }
    if is(word, b"WordStartUnicode") {
        return Some(Look::WordStartUnicode);
    }
    if is(word, b"WordEndUnicode") {
        return Some(Look::WordEndUnicode);
    }
    None
}

/// The look with this name for an offset before which there is no word, or after which there is none.
fn half_look_named(word: &[u8]) -> Option<Look>
    ensures { result ≡ half_look_named word.now }
{
    if is(word, b"WordStartHalfAscii") {
        return Some(Look::WordStartHalfAscii);
    }
    if is(word, b"WordEndHalfAscii") {
        return Some(Look::WordEndHalfAscii);
    }
    if is(word, b"WordStartHalfUnicode") {
        return Some(Look::WordStartHalfUnicode);
    }
    if is(word, b"WordEndHalfUnicode") {
        return Some(Look::WordEndHalfUnicode);
    }
    None
}

/// The look with this name.
pub(crate) fn look_named(word: &[u8]) -> Option<Look>
    ensures { result ≡ look_named word.now }
{
    anchor_named(word)
        .or(word_look_named(word))
        .or(word_side_named(word))
        .or(half_look_named(word))
}
