//! Numbers given as options of their own, as `-5`. The toolchain's parser has no such options, so `-C` is put before them.
ghost use Rattle.std.specs.Prelude.{◌≡◌, ◌++◌, ◌∷◌, [], None, true, false, IfOk, IfSome, IsTrue, OnOk, map, string_bytes};
ghost use Rattle.std.specs.List.{list_any};
ghost use Rattle.std.specs.Str.{bytes_eq};
ghost use Rattle.grep_options.specs.Numbers.{after_letters, after_other, has_letters, is_awaiting, is_awaiting_choice, is_awaiting_file, is_awaiting_format, is_awaiting_separator, is_digit, letters_in, letters_of};
ghost use Rattle.grep_options.specs.Numbers.{next_word, no_letters, option_words, takes_value, add_byte, add_bytes, with_digit, with_numbers, words_for};
ghost use Rattle.grep_options.specs.declared.numbers.Next.TheVariants.{AnyWord, Value};

use std::alloc::{AllocError, Global};
use std::str;

/// What may follow a word of the command line.
#[derive(Clone, Copy, PartialEq, Eq)]
pub enum Next {
    AnyWord,
    /// The value of an option.
    Value,
    /// Only operands.
    Operands,
}

/// What was read of a word of letters, without its dash. `specs/Numbers.antt` says what each part is.
#[derive(Drop)]
pub struct Cluster {
    letters: Vec<u8>,
    number: Vec<u8>,
    in_number: bool,
    has_value: bool,
    awaits: bool,
}

/// Whether the option with this letter takes a value.
fn takes_value(byte: u8) -> bool
    ensures { result ≡ takes_value byte }
{
    byte == b'e'
        || byte == b'f'
        || byte == b'm'
        || byte == b'A'
        || byte == b'B'
        || byte == b'C'
        || byte == b'd'
        || byte == b'D'
        || byte == b'g'
        || byte == b't'
        || byte == b'M'
}

fn is_digit(byte: u8) -> bool
    ensures { result ≡ is_digit byte }
{
    b'0' <= byte && byte <= b'9'
}

impl Cluster {
    fn new(alloc: Global) -> Cluster
        ensures { letters_of result ≡ no_letters }
    {
        Cluster {
            letters: Vec::new(alloc),
            number: Vec::new(alloc),
            in_number: false,
            has_value: false,
            awaits: false,
        }
    }

    /// Reads a digit of a number.
    fn read_digit(&mut self, byte: u8) -> Result<(), AllocError>
        ensures { OnOk result (letters_of self.new ≡ with_digit (letters_of self.old) byte) }
    {
        if !self.in_number {
            self.number.clear();
        }
        self.in_number = true;
        self.number.push(byte)?;
        Ok(())
    }

    /// Reads one more byte.
    fn read(&mut self, byte: u8) -> Result<(), AllocError>
        ensures { OnOk result (letters_of self.new ≡ add_byte (letters_of self.old) byte) }
    {
        if self.has_value {
            self.awaits = false;
            self.letters.push(byte)?;
            return Ok(());
        }
        if is_digit(byte) {
            return self.read_digit(byte);
        }
        let has_value = takes_value(byte);
        self.in_number = false;
        self.has_value = has_value;
        self.awaits = has_value;
        self.letters.push(byte)?;
        Ok(())
    }
}

/// Reads a word of letters, without its dash.
fn read_letters(alloc: Global, letters: &[u8]) -> Result<Cluster, AllocError>
    ensures { IfOk result (λ c. letters_of c ≡ add_bytes no_letters letters.now) }
{
    let mut cluster = Cluster::new(alloc);
    for byte in letters {
        cluster.read(*byte)?;
    }
    Ok(cluster)
}

/// Appends a word.
fn push_word(alloc: Global, words: &mut Vec<String>, word: &str) -> Result<(), AllocError>
    ensures { OnOk result (map string_bytes words.new.items ≡ map string_bytes words.old.items ++ word.now ∷ []) }
{
    let word = String::from_str(alloc, word)?;
    words.push(word)?;
    Ok(())
}

/// Appends a word that begins with this text. Returns false if its bytes aren't UTF-8.
fn push_bytes(
    alloc: Global,
    words: &mut Vec<String>,
    start: &str,
    bytes: &[u8],
) -> Result<bool, AllocError>
    ensures { IfOk result (λ is_text. IsTrue is_text →
        map string_bytes words.new.items ≡ map string_bytes words.old.items ++ (start.now ++ bytes.now) ∷ []) }
{
    match str::from_utf8(bytes) {
        Ok(text) => {
            let mut word = String::from_str(alloc, start)?;
            word.push_str(text)?;
            words.push(word)?;
            Ok(true)
        }
        Err(_) => Ok(false),
    }
}

/// Appends the words that stand for a word of letters. Returns false if one isn't UTF-8, which can't be.
fn push_pieces(
    alloc: Global,
    words: &mut Vec<String>,
    word: &str,
    cluster: &Cluster,
) -> Result<bool, AllocError>
    ensures { IfOk result (λ is_text. IsTrue is_text →
        map string_bytes words.new.items ≡ map string_bytes words.old.items ++ option_words word.now (letters_of cluster.now)) }
{
    if cluster.number.is_empty() {
        push_word(alloc, words, word)?;
        return Ok(true);
    }
    let is_text = push_bytes(alloc, words, "-C", cluster.number.as_slice())?;
    if cluster.letters.is_empty() || !is_text {
        return Ok(is_text);
    }
    push_bytes(alloc, words, "-", cluster.letters.as_slice())
}

/// Whether the word is one of these.
fn is_one_of(word: &str, names: &[&str]) -> bool
    ensures { result ≡ list_any (λ n. bytes_eq word.now n.now) names.now }
{
    for name in names {
        if word == *name {
            return true;
        }
    }
    false
}

/// Whether the word is an option that chooses files or limits what is read of them, and that GNU grep doesn't have.
fn is_awaiting_choice(word: &str) -> bool
    ensures { result ≡ is_awaiting_choice word.now }
{
    const NAMES: [&str; 6] = [
        "--iglob",
        "--ignore-file",
        "--max-filesize",
        "--max-size",
        "--type-add",
        "--type-clear",
    ];
    is_one_of(word, &NAMES)
}

/// Whether the word is an option that chooses files.
fn is_awaiting_file(word: &str) -> bool
    ensures { result ≡ is_awaiting_file word.now }
{
    const NAMES: [&str; 9] = [
        "--include",
        "--exclude",
        "--exclude-from",
        "--exclude-dir",
        "--glob",
        "--max-depth",
        "--sort",
        "--type",
        "--type-not",
    ];
    is_one_of(word, &NAMES) || is_awaiting_choice(word)
}

/// Whether the word is an option on separators.
fn is_awaiting_separator(word: &str) -> bool
    ensures { result ≡ is_awaiting_separator word.now }
{
    const NAMES: [&str; 4] = [
        "--group-separator",
        "--field-match-separator",
        "--field-context-separator",
        "--path-separator",
    ];
    is_one_of(word, &NAMES)
}

/// Whether the word is an option on what is printed, whose value is the next word.
fn is_awaiting_format(word: &str) -> bool
    ensures { result ≡ is_awaiting_format word.now }
{
    const NAMES: [&str; 4] = ["--max-columns", "--replace", "--binary-files", "--encoding"];
    is_awaiting_separator(word) || is_one_of(word, &NAMES)
}

/// Whether the word is a long option whose value is the next word.
fn is_awaiting(word: &str) -> bool
    ensures { result ≡ is_awaiting word.now }
{
    const NAMES: [&str; 10] = [
        "--regexp",
        "--file",
        "--directory",
        "--max-count",
        "--after-context",
        "--before-context",
        "--context",
        "--label",
        "--directories",
        "--devices",
    ];
    is_one_of(word, &NAMES) || is_awaiting_format(word) || is_awaiting_file(word)
}

/// What may follow a word that isn't one of letters.
fn after_other(word: &str) -> Next
    ensures { result ≡ after_other word.now }
{
    if word == "--" {
        return Next::Operands;
    }
    if is_awaiting(word) {
        return Next::Value;
    }
    Next::AnyWord
}

/// The letters of a word that has a dash and then something else than a dash.
fn letters_in(word: &[u8]) -> Option<&[u8]>
    ensures some { IfSome result (λ s. (has_letters word.now ≡ true) × (s.now ≡ letters_in word.now)) }
    ensures none { result ≡ None → has_letters word.now ≡ false }
{
    match word {
        [b'-', second, ..] if *second != b'-' => Some(&word[1..]),
        _ => None,
    }
}

/// Appends the words that stand for a word of letters, and returns what may follow. Returns none if one isn't UTF-8.
fn push_letters(
    alloc: Global,
    words: &mut Vec<String>,
    word: &str,
    letters: &[u8],
) -> Result<Option<Next>, AllocError>
    ensures { IfOk result (λ o. IfSome o (λ next. (next ≡ after_letters (add_bytes no_letters letters.now))
        × (map string_bytes words.new.items ≡ map string_bytes words.old.items ++ option_words word.now (add_bytes no_letters letters.now)))) }
{
    let cluster = read_letters(alloc, letters)?;
    if !push_pieces(alloc, words, word, &cluster)? {
        return Ok(None);
    }
    if cluster.awaits {
        return Ok(Some(Next::Value));
    }
    Ok(Some(Next::AnyWord))
}

/// Appends the words that stand for a word, and returns what may follow. Returns none if one isn't UTF-8.
fn push_any(alloc: Global, words: &mut Vec<String>, word: &str) -> Result<Option<Next>, AllocError>
    ensures { IfOk result (λ o. IfSome o (λ next. (next ≡ next_word AnyWord word.now)
        × (map string_bytes words.new.items ≡ map string_bytes words.old.items ++ words_for AnyWord word.now))) }
{
    if let Some(letters) = letters_in(word.as_bytes()) {
        return push_letters(alloc, words, word, letters);
    }
    push_word(alloc, words, word)?;
    Ok(Some(after_other(word)))
}

/// Appends the words that stand for a word, depending on what it may be, and returns what may follow.
fn push_next(
    alloc: Global,
    words: &mut Vec<String>,
    next: Next,
    word: &str,
) -> Result<Option<Next>, AllocError>
    ensures { IfOk result (λ o. IfSome o (λ after. (after ≡ next_word next word.now)
        × (map string_bytes words.new.items ≡ map string_bytes words.old.items ++ words_for next word.now))) }
{
    match next {
        Next::AnyWord => push_any(alloc, words, word),
        Next::Value => {
            push_word(alloc, words, word)?;
            Ok(Some(Next::AnyWord))
        }
        Next::Operands => {
            push_word(alloc, words, word)?;
            Ok(Some(Next::Operands))
        }
    }
}

/// The words of a command line, of which the first is the program's name, with `-C` before each number that is an option of its own.
/// Returns none if a word would not be UTF-8, which can't be.
pub fn with_numbers(alloc: Global, words: &[String]) -> Result<Option<Vec<String>>, AllocError>
    ensures { IfOk result (λ o. IfSome o (λ v. map string_bytes v.items ≡ with_numbers Value (map string_bytes words.now))) }
{
    let mut all = Vec::new(alloc);
    let mut next = Next::Value;
    for word in words {
        match push_next(alloc, &mut all, next, word.as_str())? {
            Some(after) => next = after,
            None => return Ok(None),
        }
    }
    Ok(Some(all))
}
