//! Reads globs, character by character.
ghost use Rattle.std.specs.Prelude.{◌≡◌, ◌+◌, ◌≤◌, ◌++◌, ◌∷◌, [], OnOk, IfOk, List, true, length, map};
ghost use Rattle.globs.specs.Matching.{Set, class_of, item_of, is_slash, section_of, sections_of};
ghost use Rattle.globs.specs.Reading.{add, add_all, add_grouping, add_in_set, add_other, add_plain, add_raw, add_star, all_ranges, add_unescaped, any_of, are_folders, are_two, class_by, begin_group, begin_set};
ghost use Rattle.globs.specs.Reading.{check_set, close_group, end_all, end_alternative, end_escape, end_folders, end_group, end_open_group, end_open_set, end_section, end_set, end_stars, ends_here};
ghost use Rattle.globs.specs.Reading.{first_fault, has_reversed, more_stars, no_reading, plain_item, read, reading_of, set_of, stars_item, with_alternative, with_fault, with_item, with_section};

use crate::item::{Class, Item, is_slash};
use crate::sets::{SetReader, folds_case, has_reversed, is_fnmatch, is_gitignore, is_globset};
use std::alloc::{AllocError, Global};
use std::mem;

/// How a glob is written.
#[derive(Clone, Copy, PartialEq, Eq)]
pub enum Syntax {
    /// As GNU grep's `--include` takes it: stars match slashes.
    Fnmatch,
    /// As the crate `globset` has it: stars don't match slashes, `**` stands for folders, and braces have alternatives.
    Globset,
    /// That of `globset`, where letters of ASCII match in either case.
    Folded,
    /// As git has it in ignore files: neither stars nor sets match slashes, and `**` stands for folders.
    Gitignore,
}

/// Why a glob is rejected.
#[derive(Clone, Copy, PartialEq, Eq)]
pub enum FaultKind {
    UnclosedSet,
    ReversedRange,
    DanglingEscape,
    NestedGroup,
    UnopenedGroup,
    UnclosedGroup,
}

/// A fault, and the number of the character at which it is, counted from 0.
#[derive(Clone, Copy, PartialEq, Eq)]
pub struct Fault {
    pub kind: FaultKind,
    pub at: usize,
}

/// What was read of a glob. `specs/Reading.antt` says what each part is.
#[derive(Drop)]
pub struct Reader {
    pub sections: Vec<Vec<Vec<Item>>>,
    alternatives: Vec<Vec<Item>>,
    items: Vec<Item>,
    in_group: bool,
    stars: usize,
    bounded: bool,
    at_start: bool,
    escaped: bool,
    in_set: bool,
    set: SetReader,
    has_sets: bool,
    opened: usize,
    pub fault: Option<Fault>,
}

fn push_item(items: &mut Vec<Item>, item: Item) -> Result<(), AllocError>
    ensures { OnOk result (map item_of items.new.items ≡ map item_of items.old.items ++ item_of item ∷ []) }
{
    items.push(item)?;
    Ok(())
}

fn push_alternative(section: &mut Vec<Vec<Item>>, items: Vec<Item>) -> Result<(), AllocError>
    ensures { OnOk result (section_of section.new.items ≡ section_of section.old.items ++ map item_of items.items ∷ []) }
{
    section.push(items)?;
    Ok(())
}

fn push_section(
    sections: &mut Vec<Vec<Vec<Item>>>,
    section: Vec<Vec<Item>>,
) -> Result<(), AllocError>
    ensures { OnOk result (sections_of sections.new.items ≡ sections_of sections.old.items ++ section_of section.items ∷ []) }
{
    sections.push(section)?;
    Ok(())
}

/// Any character, but a slash only in GNU grep's syntax.
fn any_of(alloc: Global, syntax: Syntax) -> Class
    ensures { class_of result ≡ any_of syntax }
{
    Class {
        negated: true,
        slash: is_fnmatch(syntax),
        folds: false,
        ranges: Vec::new(alloc),
    }
}

/// The item of a character that means itself.
fn plain_item(alloc: Global, syntax: Syntax, c: char) -> Result<Item, AllocError>
    ensures { IfOk result (λ item. item_of item ≡ plain_item syntax c) }
{
    if !folds_case(syntax) {
        return Ok(Item::One(c));
    }
    let mut ranges = Vec::new(alloc);
    ranges.push((c, c))?;
    Ok(Item::Set(Class {
        negated: false,
        slash: true,
        folds: true,
        ranges,
    }))
}

/// Whether these are two stars, or more in git's syntax.
fn are_two(syntax: Syntax, stars: usize) -> bool
    ensures { result ≡ are_two syntax stars }
{
    stars == 2 || is_gitignore(syntax) && stars == 3
}

impl Reader {
    fn new(alloc: Global) -> Reader
        ensures { reading_of result ≡ no_reading }
    {
        Reader {
            sections: Vec::new(alloc),
            alternatives: Vec::new(alloc),
            items: Vec::new(alloc),
            in_group: false,
            stars: 0,
            bounded: false,
            at_start: true,
            escaped: false,
            in_set: false,
            set: SetReader::new(alloc),
            has_sets: true,
            opened: 0,
            fault: None,
        }
    }

    /// Records a fault, if it is the first one.
    fn fail(&mut self, kind: FaultKind, at: usize)
        ensures { reading_of self.new ≡ with_fault kind at (reading_of self.old) }
    {
        if self.fault.is_none() {
            self.fault = Some(Fault { kind, at });
        }
    }

    /// Adds an item.
    fn push(&mut self, item: Item) -> Result<(), AllocError>
        ensures { OnOk result (reading_of self.new ≡ with_item (item_of item) (reading_of self.old)) }
    {
        self.at_start = false;
        push_item(&mut self.items, item)
    }

    fn are_folders(&self, syntax: Syntax) -> bool
        ensures { result ≡ are_folders syntax (reading_of self.now) }
    {
        !is_fnmatch(syntax) && self.bounded && are_two(syntax, self.stars)
    }

    fn stars_item(&self, syntax: Syntax, at_end: bool) -> Item
        ensures { item_of result ≡ stars_item syntax (reading_of self.now) at_end }
    {
        if is_fnmatch(syntax) || at_end && self.are_folders(syntax) {
            return Item::Anything;
        }
        Item::Star
    }

    /// Adds the item of the stars that were read, if there are any.
    fn end_stars(&mut self, syntax: Syntax, at_end: bool) -> Result<(), AllocError>
        ensures { OnOk result (reading_of self.new ≡ end_stars syntax at_end (reading_of self.old)) }
    {
        if self.stars == 0 {
            return Ok(());
        }
        let item = self.stars_item(syntax, at_end);
        self.stars = 0;
        self.push(item)
    }

    fn add_star(&mut self)
        ensures { reading_of self.new ≡ add_star (reading_of self.old) }
    {
        if self.stars == 0 {
            self.stars = 1;
            self.bounded = self.at_start;
        } else {
            self.stars = if self.stars < 2 { self.stars + 1 } else { 3 };
        }
    }

    /// Adds the item of two stars and a slash.
    fn end_folders(&mut self) -> Result<(), AllocError>
        ensures { OnOk result (reading_of self.new ≡ end_folders (reading_of self.old)) }
    {
        self.at_start = true;
        self.stars = 0;
        push_item(&mut self.items, Item::Folders)
    }

    fn begin_set(&mut self, alloc: Global, at: usize)
        ensures { reading_of self.new ≡ begin_set at (reading_of self.old) }
    {
        self.in_set = true;
        self.set = SetReader::new(alloc);
        self.opened = at;
    }

    /// Adds a character that means itself.
    fn add_plain(&mut self, alloc: Global, syntax: Syntax, c: char) -> Result<(), AllocError>
        ensures { OnOk result (reading_of self.new ≡ add_plain syntax c (reading_of self.old)) }
    {
        self.at_start = is_slash(c);
        let item = plain_item(alloc, syntax, c)?;
        push_item(&mut self.items, item)
    }

    /// Adds the set that was read.
    fn push_set(&mut self, alloc: Global, syntax: Syntax) -> Result<bool, AllocError>
        ensures pushed { OnOk result (reading_of self.new ≡ with_item (Set (class_by syntax (set_of self.old.set))) (reading_of self.old)) }
        ensures reversed { IfOk result (λ is. is ≡ has_reversed (all_ranges (set_of self.old.set))) }
    {
        let class = self.set.class(alloc, syntax)?;
        let is_reversed = has_reversed(&class.ranges);
        self.push(Item::Set(class))?;
        Ok(is_reversed)
    }

    fn end_set(&mut self, alloc: Global, syntax: Syntax, at: usize) -> Result<(), AllocError>
        ensures { OnOk result (reading_of self.new ≡ end_set syntax at (reading_of self.old)) }
    {
        let is_reversed = self.push_set(alloc, syntax)?;
        if is_globset(syntax) && is_reversed {
            self.fail(FaultKind::ReversedRange, at);
        }
        self.in_set = false;
        self.set = SetReader::new(alloc);
        Ok(())
    }

    /// Reads a character in a set.
    fn add_in_set(
        &mut self,
        alloc: Global,
        syntax: Syntax,
        at: usize,
        c: char,
    ) -> Result<(), AllocError>
        ensures { OnOk result (reading_of self.new ≡ add_in_set syntax (reading_of self.old) at c) }
    {
        if self.set.closes(c) {
            self.set.end(alloc)?;
            return self.end_set(alloc, syntax, at);
        }
        self.set.add(alloc, syntax, c)
    }

    fn end_alternative(&mut self, alloc: Global) -> Result<(), AllocError>
        ensures { OnOk result (reading_of self.new ≡ end_alternative (reading_of self.old)) }
    {
        self.at_start = true;
        if self.items.is_empty() {
            return Ok(());
        }
        let items = mem::replace(&mut self.items, Vec::new(alloc));
        push_alternative(&mut self.alternatives, items)
    }

    /// Makes the items up to here a section.
    fn end_section(&mut self, alloc: Global) -> Result<(), AllocError>
        ensures { OnOk result (reading_of self.new ≡ end_section (reading_of self.old)) }
    {
        let items = mem::replace(&mut self.items, Vec::new(alloc));
        let mut section = Vec::new(alloc);
        push_alternative(&mut section, items)?;
        push_section(&mut self.sections, section)
    }

    fn begin_group(&mut self, alloc: Global, at: usize) -> Result<(), AllocError>
        ensures { OnOk result (reading_of self.new ≡ begin_group at (reading_of self.old)) }
    {
        if self.in_group {
            self.fail(FaultKind::NestedGroup, at);
            return Ok(());
        }
        self.in_group = true;
        self.opened = at;
        self.at_start = true;
        self.end_section(alloc)
    }

    fn close_group(&mut self, alloc: Global) -> Result<(), AllocError>
        ensures { OnOk result (reading_of self.new ≡ close_group (reading_of self.old)) }
    {
        self.in_group = false;
        self.at_start = false;
        if self.alternatives.is_empty() {
            return Ok(());
        }
        let section = mem::replace(&mut self.alternatives, Vec::new(alloc));
        push_section(&mut self.sections, section)
    }

    fn end_group(&mut self, alloc: Global, at: usize) -> Result<(), AllocError>
        ensures { OnOk result (reading_of self.new ≡ end_group at (reading_of self.old)) }
    {
        if !self.in_group {
            self.fail(FaultKind::UnopenedGroup, at);
            return Ok(());
        }
        self.end_alternative(alloc)?;
        self.close_group(alloc)
    }

    /// Reads a character of groups, or one that means itself.
    fn add_grouping(
        &mut self,
        alloc: Global,
        syntax: Syntax,
        at: usize,
        c: char,
    ) -> Result<(), AllocError>
        ensures { OnOk result (reading_of self.new ≡ add_grouping syntax at c (reading_of self.old)) }
    {
        if is_globset(syntax) && c == '{' {
            return self.begin_group(alloc, at);
        }
        if is_globset(syntax) && c == '}' {
            return self.end_group(alloc, at);
        }
        if self.in_group && c == ',' {
            return self.end_alternative(alloc);
        }
        self.add_plain(alloc, syntax, c)
    }

    /// Reads a character that is no star, after the stars before it.
    fn add_other(
        &mut self,
        alloc: Global,
        syntax: Syntax,
        at: usize,
        c: char,
    ) -> Result<(), AllocError>
        ensures { OnOk result (reading_of self.new ≡ add_other syntax at c (reading_of self.old)) }
    {
        if c == '?' {
            return self.push(Item::Set(any_of(alloc, syntax)));
        }
        if self.has_sets && c == '[' {
            self.begin_set(alloc, at);
            return Ok(());
        }
        if c == '\\' {
            self.escaped = true;
            self.opened = at;
            return Ok(());
        }
        self.add_grouping(alloc, syntax, at, c)
    }

    fn ends_here(&self, c: char) -> bool
        ensures { result ≡ ends_here (reading_of self.now) c }
    {
        self.in_group && (c == ',' || c == '}')
    }

    fn add_unescaped(
        &mut self,
        alloc: Global,
        syntax: Syntax,
        at: usize,
        c: char,
    ) -> Result<(), AllocError>
        ensures { OnOk result (reading_of self.new ≡ add_unescaped syntax at c (reading_of self.old)) }
    {
        if c == '*' {
            self.add_star();
            return Ok(());
        }
        if self.are_folders(syntax) && is_slash(c) {
            return self.end_folders();
        }
        let at_end = self.ends_here(c);
        self.end_stars(syntax, at_end)?;
        self.add_other(alloc, syntax, at, c)
    }

    /// Reads a character, the one with this number.
    fn add(&mut self, alloc: Global, syntax: Syntax, at: usize, c: char) -> Result<(), AllocError>
        ensures { OnOk result (reading_of self.new ≡ add syntax at (reading_of self.old) c) }
    {
        if self.in_set {
            return self.add_in_set(alloc, syntax, at, c);
        }
        if self.escaped {
            self.escaped = false;
            return self.add_plain(alloc, syntax, c);
        }
        self.add_unescaped(alloc, syntax, at, c)
    }

    /// Reads characters, of which the first has the number 0.
    fn add_all(&mut self, alloc: Global, syntax: Syntax, chars: &[char]) -> Result<(), AllocError>
        ensures { OnOk result (reading_of self.new ≡ add_all syntax 0 (reading_of self.old) chars.now) }
    {
        for (at, c) in chars.iter().enumerate() {
            self.add(alloc, syntax, at, *c)?;
        }
        Ok(())
    }

    /// Reads the characters after a bracket that begins no set.
    fn add_raw(&mut self, alloc: Global, syntax: Syntax) -> Result<(), AllocError>
        ensures { OnOk result (reading_of self.new ≡ add_raw syntax (reading_of self.old)) }
    {
        self.set.end(alloc)?;
        let set = mem::replace(&mut self.set, SetReader::new(alloc));
        self.in_set = false;
        self.has_sets = false;
        self.add_plain(alloc, syntax, '[')?;
        self.add_all(alloc, syntax, &set.raw)
    }

    fn end_open_set(&mut self, alloc: Global, syntax: Syntax) -> Result<(), AllocError>
        ensures { OnOk result (reading_of self.new ≡ end_open_set syntax (reading_of self.old)) }
    {
        if !self.in_set {
            return Ok(());
        }
        if !is_fnmatch(syntax) {
            self.fail(FaultKind::UnclosedSet, self.opened);
            return Ok(());
        }
        self.add_raw(alloc, syntax)
    }

    fn end_escape(&mut self, alloc: Global, syntax: Syntax) -> Result<(), AllocError>
        ensures { OnOk result (reading_of self.new ≡ end_escape syntax (reading_of self.old)) }
    {
        if !self.escaped {
            return Ok(());
        }
        if !is_fnmatch(syntax) {
            self.fail(FaultKind::DanglingEscape, self.opened);
            return Ok(());
        }
        self.escaped = false;
        self.add_plain(alloc, syntax, '\\')
    }

    fn end_open_group(&mut self)
        ensures { reading_of self.new ≡ end_open_group (reading_of self.old) }
    {
        if self.in_group {
            self.fail(FaultKind::UnclosedGroup, self.opened);
        }
    }

    fn end(&mut self, alloc: Global, syntax: Syntax) -> Result<(), AllocError>
        ensures { OnOk result (reading_of self.new ≡ end_all syntax (reading_of self.old)) }
    {
        self.end_open_set(alloc, syntax)?;
        self.end_escape(alloc, syntax)?;
        self.end_stars(syntax, true)?;
        self.end_open_group();
        self.end_section(alloc)
    }
}

/// Reads a whole glob.
pub fn read(alloc: Global, syntax: Syntax, glob: &[char]) -> Result<Reader, AllocError>
    ensures { IfOk result (λ r. reading_of r ≡ read syntax glob.now) }
{
    let mut reader = Reader::new(alloc);
    reader.add_all(alloc, syntax, glob)?;
    reader.end(alloc, syntax)?;
    Ok(reader)
}
