//! Options as rows of tables, and how they are added to a command.
ghost use Rattle.std.specs.Prelude.{◌≡◌, ◌∷◌, ◌++◌, ℕ, List, [], None, Option, Some, OnOk, IfOk, if◌then◌else◌, flat_map, map};
ghost use Rattle.grep_options.specs.CommandLine.{AddsOptions, option, option_row};
ghost use Rattle.grep_options.specs.Rows.{action_of, letter_or, long_or, missing_or, related, row_of};

use clap::builder::{ValueParser, ValueRange};
use clap::{Arg, ArgAction, value_parser};
use std::alloc::{AllocError, Global};
use std::slice;

/// What a use of an option does, and which values it takes.
#[derive(Clone, Copy)]
pub enum Kind {
    Flag,
    /// A flag with a letter and no long name.
    Letter,
    /// A flag that help leaves out. The script that runs the program unproved gives it: such a run has no terminal, so the script has to
    /// know whether one was wanted.
    Hidden,
    Help,
    Version,
    /// An option that may be given several times, whose values may look like options.
    List,
    /// What belongs to no option.
    Operands,
    /// A value that may look like an option.
    Text,
    /// Another value.
    Word,
    /// When parts are marked: the value may be left out.
    Color,
    Number,
    /// A number that may be negative.
    Integer,
}

/// The subject under which help lists an option. No contract says which.
#[derive(Clone, Copy)]
pub enum Subject {
    None,
    Patterns,
    Selection,
    Files,
    Ignoring,
    Folders,
    Binary,
    Output,
    Context,
    Format,
    Other,
}

/// An option.
pub struct Row<'a> {
    /// The name under which the matches hold what was given, and, but for two kinds, the long name.
    pub id: &'a str,
    /// Zero for an option without a letter.
    pub letter: char,
    /// One more letter, which help leaves out; zero for none.
    pub other_letter: char,
    pub kind: Kind,
    /// What help calls the value; empty if it is a flag.
    pub value: &'a str,
    /// The values that it takes; empty if these aren't listed.
    pub words: &'a [&'a str],
    /// More long names, which help leaves out.
    pub aliases: &'a [&'a str],
    /// The options that a use of it turns off.
    pub over: &'a [&'a str],
    /// The options with which a use of it is an error.
    pub without: &'a [&'a str],
    pub subject: Subject,
    pub help: &'a str,
}

const NO_LETTER: char = '\0';

/// A flag without a name, for tables to complete.
pub const FLAG: Row = Row {
    id: "",
    letter: NO_LETTER,
    other_letter: NO_LETTER,
    kind: Kind::Flag,
    value: "",
    words: &[],
    aliases: &[],
    over: &[],
    without: &[],
    subject: Subject::None,
    help: "",
};

/// What a use of an option does.
fn action_of(kind: Kind) -> ArgAction
    ensures { result ≡ action_of kind }
{
    match kind {
        Kind::Flag => ArgAction::SetTrue,
        Kind::Letter => ArgAction::SetTrue,
        Kind::Hidden => ArgAction::SetTrue,
        Kind::Help => ArgAction::Help,
        Kind::Version => ArgAction::Version,
        Kind::List => ArgAction::Append,
        Kind::Operands => ArgAction::Append,
        Kind::Text => ArgAction::Set,
        Kind::Word => ArgAction::Set,
        Kind::Color => ArgAction::Set,
        Kind::Number => ArgAction::Set,
        Kind::Integer => ArgAction::Set,
    }
}

/// The heading of a subject, or no text if there is none.
fn heading_of(subject: Subject) -> &'static str {
    match subject {
        Subject::None => "",
        Subject::Patterns => "Patterns",
        Subject::Selection => "What is selected",
        Subject::Files => "Which files are searched",
        Subject::Ignoring => "Ignore files",
        Subject::Folders => "Folders and devices",
        Subject::Binary => "Files that are not text",
        Subject::Output => "What is printed",
        Subject::Context => "Context",
        Subject::Format => "How lines are printed",
        Subject::Other => "Other options",
    }
}

/// Whether an option of this kind has a long name.
fn has_long(kind: Kind) -> bool
    ensures { (old : Option (List ℕ)) (name : List ℕ) → long_or old kind name ≡ (if result then Some name else old) }
{
    match kind {
        Kind::Letter => false,
        Kind::Operands => false,
        _ => true,
    }
}

fn is_hidden(kind: Kind) -> bool {
    matches!(kind, Kind::Hidden)
}

fn is_integer(kind: Kind) -> bool {
    matches!(kind, Kind::Integer)
}

fn is_color(kind: Kind) -> bool {
    matches!(kind, Kind::Color)
}

/// Whether values may look like options.
fn takes_hyphens(kind: Kind) -> bool {
    matches!(kind, Kind::List | Kind::Text)
}

/// The values that a use without one has.
fn missing_of(kind: Kind) -> &'static [&'static str]
    ensures { map (λ s. s.now) result.now ≡ missing_or [] kind }
{
    match kind {
        Kind::Color => &["auto"],
        _ => &[],
    }
}

/// How many values a use of an option takes. But for operands and colors it is what the parser takes for such an action.
fn values_of(kind: Kind) -> ValueRange {
    match kind {
        Kind::Operands => ValueRange::new(0..),
        Kind::Color => ValueRange::new(0..=1),
        Kind::List | Kind::Text | Kind::Word | Kind::Number | Kind::Integer => ValueRange::SINGLE,
        Kind::Flag | Kind::Letter | Kind::Hidden | Kind::Help | Kind::Version => ValueRange::EMPTY,
    }
}

/// What a value has to be. If the row doesn't say so, it is what the parser takes for such an action.
fn parser_of<'a>(kind: Kind, words: &'a [&'a str]) -> ValueParser<'a> {
    if !words.is_empty() {
        return ValueParser::Names(words);
    }
    match kind {
        Kind::Number => value_parser!(u64),
        Kind::Integer => value_parser!(i64),
        Kind::Flag | Kind::Letter | Kind::Hidden => ValueParser::bool(),
        _ => ValueParser::string(),
    }
}

/// What help calls the values: one name, or none.
fn value_names<'a>(name: &'a &'a str) -> &'a [&'a str] {
    if name.is_empty() {
        return &[];
    }
    slice::from_ref(name)
}

/// The option without a name, under no heading.
fn unnamed<'a>(alloc: Global, row: &'a Row<'a>) -> Arg<'a>
    ensures { option_row result
        ≡ record (option row.now.id.now [] (action_of row.now.kind)) { long = None; missing = missing_or [] row.now.kind } }
{
    let kind = row.kind;
    Arg::new(alloc, row.id)
        .action(action_of(kind))
        .help(row.help)
        .hide(is_hidden(kind))
        .allow_hyphen_values(takes_hyphens(kind))
        .allow_negative_numbers(is_integer(kind))
        .require_equals(is_color(kind))
        .default_missing_values(missing_of(kind))
        .num_args(values_of(kind))
        .value_parser(parser_of(kind, row.words))
        .value_names(value_names(&row.value))
}

/// The option with its long name, if it has one.
fn with_long<'a>(arg: Arg<'a>, kind: Kind, id: &'a str) -> Arg<'a>
    ensures { option_row result ≡ record (option_row arg.entry) { long = long_or (option_row arg.entry).long kind id.entry.now } }
{
    if has_long(kind) {
        return arg.long(id);
    }
    arg
}

/// The option under the heading of its subject, if it has one.
fn with_heading<'a>(arg: Arg<'a>, subject: Subject) -> Arg<'a>
    ensures { option_row result ≡ option_row arg.entry }
{
    let heading = heading_of(subject);
    if heading.is_empty() {
        return arg;
    }
    arg.help_heading(heading)
}

/// The option with a letter, if it is one.
fn with_letter<'a>(arg: Arg<'a>, letter: char) -> Arg<'a>
    ensures { option_row result ≡ record (option_row arg.entry) { letter = letter_or (option_row arg.entry).letter letter } }
{
    if letter == NO_LETTER {
        return arg;
    }
    arg.short(letter)
}

/// The option with one more letter, if it is one.
fn with_other_letter<'a>(arg: Arg<'a>, letter: char) -> Result<Arg<'a>, AllocError>
    ensures { IfOk result (λ a. option_row a
        ≡ record (option_row arg.entry) { other_letters = (option_row arg.entry).other_letters ++ letter_or [] letter }) }
{
    if letter == NO_LETTER {
        return Ok(arg);
    }
    arg.short_alias(letter)
}

/// The option with its other names and what it does to other options.
fn with_others<'a>(arg: Arg<'a>, row: &Row<'a>) -> Result<Arg<'a>, AllocError>
    ensures { IfOk result (λ a. option_row a
        ≡ related (option_row arg.entry) row.now.aliases.now row.now.over.now row.now.without.now) }
{
    let arg = match arg.aliases(row.aliases) {
        Ok(arg) => arg,
        Err(_) => return Err(AllocError),
    };
    let arg = match arg.overrides_with_all(row.over) {
        Ok(arg) => arg,
        Err(_) => return Err(AllocError),
    };
    arg.conflicts_with_all(row.without)
}

/// The option of a row.
fn option_of<'a>(alloc: Global, row: &'a Row<'a>) -> Result<Arg<'a>, AllocError>
    ensures { IfOk result (λ a. option_row a ≡ row_of row.now) }
{
    let arg = unnamed(alloc, row);
    let arg = with_long(arg, row.kind, row.id);
    let arg = with_heading(arg, row.subject);
    let arg = with_letter(arg, row.letter);
    let arg = with_other_letter(arg, row.other_letter)?;
    with_others(arg, row)
}

/// Appends an item. Only this function drops one for which there is no room.
fn append<T: Drop>(items: &mut Vec<T>, item: T) -> Result<(), AllocError>
    ensures { OnOk result (items.new.items ≡ items.old.items ++ item ∷ []) }
{
    items.push(item)?;
    Ok(())
}

/// Appends the option of a row.
fn push_row<'a>(alloc: Global, args: &mut Vec<Arg<'a>>, row: &'a Row<'a>) -> Result<(), AllocError>
    ensures { OnOk result (AddsOptions args.old.items args.new.items (row_of row.now ∷ [])) }
{
    let arg = option_of(alloc, row)?;
    append(args, arg)?;
    Ok(())
}

/// Appends the options of these rows.
fn push_rows<'a>(
    alloc: Global,
    args: &mut Vec<Arg<'a>>,
    rows: &'a [Row<'a>],
) -> Result<(), AllocError>
    ensures { OnOk result (AddsOptions args.old.items args.new.items (map row_of rows.now)) }
{
    for row in rows {
        push_row(alloc, args, row)?;
    }
    Ok(())
}

/// Appends the options of these tables.
pub fn push_tables<'a>(
    alloc: Global,
    args: &mut Vec<Arg<'a>>,
    tables: &[&'a [Row<'a>]],
) -> Result<(), AllocError>
    ensures { OnOk result (AddsOptions args.old.items args.new.items (flat_map (λ t. map row_of t.now) tables.now)) }
{
    for rows in tables {
        push_rows(alloc, args, rows)?;
    }
    Ok(())
}
