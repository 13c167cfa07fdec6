//! Reads sets of characters in brackets.
ghost use Rattle.std.specs.Prelude.{◌≡◌, ◌++◌, ◌∷◌, [], OnOk, IfOk};
ghost use Rattle.globs.specs.Matching.{class_of};
ghost use Rattle.globs.specs.Reading.{add_member, add_members, add_outside, add_to_name, add_to_set, all_ranges, begin_name, begins_name, begins_range, class_by, closes, end_name, ends_name, escapes, folds_case, is_fnmatch, is_gitignore};
ghost use Rattle.globs.specs.Reading.{give_up, go_on, goes_on, has_reversed, is_colon, names_none, is_globset, is_of_name, name_text, negates, no_set, range_to, set_of, with_dash, with_single, without_name};

use crate::class_names::named_ranges;
use crate::item::Class;
use crate::reading::Syntax;
use std::alloc::{AllocError, Global};

/// What was read of a set. `specs/Reading.antt` says what each part is.
#[derive(Drop)]
pub struct SetReader {
    pub negated: bool,
    pub ranges: Vec<(char, char)>,
    pub low: Option<char>,
    pub dash: bool,
    pub fresh: bool,
    pub escaped: bool,
    pub raw: Vec<char>,
    phase: usize,
    name: Vec<char>,
    unknown: bool,
}

pub fn is_globset(syntax: Syntax) -> bool
    ensures { result ≡ is_globset syntax }
{
    match syntax {
        Syntax::Fnmatch | Syntax::Gitignore => false,
        Syntax::Globset | Syntax::Folded => true,
    }
}

pub fn is_fnmatch(syntax: Syntax) -> bool
    ensures { result ≡ is_fnmatch syntax }
{
    match syntax {
        Syntax::Fnmatch => true,
        Syntax::Globset | Syntax::Folded | Syntax::Gitignore => false,
    }
}

pub fn is_gitignore(syntax: Syntax) -> bool
    ensures { result ≡ is_gitignore syntax }
{
    match syntax {
        Syntax::Gitignore => true,
        Syntax::Fnmatch | Syntax::Globset | Syntax::Folded => false,
    }
}

/// Whether letters of ASCII match in either case.
pub fn folds_case(syntax: Syntax) -> bool
    ensures { result ≡ folds_case syntax }
{
    match syntax {
        Syntax::Folded => true,
        Syntax::Fnmatch | Syntax::Globset | Syntax::Gitignore => false,
    }
}

fn escapes(syntax: Syntax, c: char) -> bool
    ensures { result ≡ escapes syntax c }
{
    !is_globset(syntax) && c == '\\'
}

/// Appends a range of one character, if there is one.
fn push_single(ranges: &mut Vec<(char, char)>, low: Option<char>) -> Result<(), AllocError>
    ensures { OnOk result (ranges.new.items ≡ with_single ranges.old.items low) }
{
    match low {
        Some(c) => {
            ranges.push((c, c))?;
            Ok(())
        }
        None => Ok(()),
    }
}

fn push_dash(ranges: &mut Vec<(char, char)>, dash: bool) -> Result<(), AllocError>
    ensures { OnOk result (ranges.new.items ≡ with_dash dash ranges.old.items) }
{
    if dash {
        ranges.push(('-', '-'))?;
    }
    Ok(())
}

fn push_range(ranges: &mut Vec<(char, char)>, low: Option<char>, c: char) -> Result<(), AllocError>
    ensures { OnOk result (ranges.new.items ≡ range_to ranges.old.items low c) }
{
    match low {
        Some(low) => {
            ranges.push((low, c))?;
            Ok(())
        }
        None => Ok(()),
    }
}

fn copy(alloc: Global, ranges: &[(char, char)]) -> Result<Vec<(char, char)>, AllocError>
    ensures { IfOk result (λ v. v.items ≡ ranges.now) }
{
    let mut all = Vec::new(alloc);
    for range in ranges {
        all.push(*range)?;
    }
    Ok(all)
}

fn push_ranges(ranges: &mut Vec<(char, char)>, more: &[(char, char)]) -> Result<(), AllocError>
    ensures { OnOk result (ranges.new.items ≡ ranges.old.items ++ more.now) }
{
    for range in more {
        ranges.push(*range)?;
    }
    Ok(())
}

pub fn push_all(chars: &mut Vec<char>, more: &[char]) -> Result<(), AllocError>
    ensures { OnOk result (chars.new.items ≡ chars.old.items ++ more.now) }
{
    for c in more {
        chars.push(*c)?;
    }
    Ok(())
}

fn is_colon(c: char) -> bool
    ensures { result ≡ is_colon c }
{
    c == ':'
}

/// Whether this letter may be in the name of a class.
fn is_of_name(c: char) -> bool
    ensures { result ≡ is_of_name c }
{
    'a' <= c && c <= 'y'
}

/// What was read of the name of a class.
fn name_text(alloc: Global, phase: usize, name: &[char]) -> Result<Vec<char>, AllocError>
    ensures { IfOk result (λ v. v.items ≡ name_text phase name.now) }
{
    let mut text = Vec::new(alloc);
    text.push('[')?;
    if phase == 1 {
        return Ok(text);
    }
    text.push(':')?;
    push_all(&mut text, name)?;
    if phase == 3 {
        text.push(':')?;
    }
    Ok(text)
}

impl SetReader {
    pub fn new(alloc: Global) -> SetReader
        ensures { set_of result ≡ no_set }
    {
        SetReader {
            negated: false,
            ranges: Vec::new(alloc),
            low: None,
            dash: false,
            fresh: true,
            escaped: false,
            raw: Vec::new(alloc),
            phase: 0,
            name: Vec::new(alloc),
            unknown: false,
        }
    }

    fn negates(&self, c: char) -> bool
        ensures { result ≡ negates (set_of self.now) c }
    {
        self.fresh && !self.negated && (c == '!' || c == '^')
    }

    fn begins_range(&self, c: char) -> bool
        ensures { result ≡ begins_range (set_of self.now) c }
    {
        self.low.is_some() && !self.dash && c == '-'
    }

    /// Whether this bracket ends the set.
    pub fn closes(&self, c: char) -> bool
        ensures { result ≡ closes (set_of self.now) c }
    {
        !self.fresh && !self.escaped && self.phase != 3 && c == ']'
    }

    /// Reads a character that is a member, or an end of a range.
    fn add_member(&mut self, c: char) -> Result<(), AllocError>
        ensures { OnOk result (set_of self.new ≡ add_member (set_of self.old) c) }
    {
        self.raw.push(c)?;
        self.fresh = false;
        self.escaped = false;
        if self.dash {
            self.dash = false;
            push_range(&mut self.ranges, self.low, c)?;
            self.low = None;
            return Ok(());
        }
        push_single(&mut self.ranges, self.low)?;
        self.low = Some(c);
        Ok(())
    }

    fn begins_name(&self, syntax: Syntax, c: char) -> bool
        ensures { result ≡ begins_name syntax (set_of self.now) c }
    {
        !is_globset(syntax) && !self.dash && c == '['
    }

    /// Reads a character outside of the names of classes.
    fn add_outside(&mut self, syntax: Syntax, c: char) -> Result<(), AllocError>
        ensures { OnOk result (set_of self.new ≡ add_outside syntax (set_of self.old) c) }
    {
        if self.escaped {
            return self.add_member(c);
        }
        if escapes(syntax, c) {
            self.escaped = true;
            self.fresh = false;
            self.raw.push(c)?;
            return Ok(());
        }
        if self.negates(c) {
            self.negated = true;
            self.raw.push(c)?;
            return Ok(());
        }
        if self.begins_range(c) {
            self.dash = true;
            self.raw.push(c)?;
            return Ok(());
        }
        if self.begins_name(syntax, c) {
            self.phase = 1;
            self.fresh = false;
            return Ok(());
        }
        self.add_member(c)
    }

    fn add_members(&mut self, chars: &[char]) -> Result<(), AllocError>
        ensures { OnOk result (set_of self.new ≡ add_members (set_of self.old) chars.now) }
    {
        for c in chars {
            self.add_member(*c)?;
        }
        Ok(())
    }

    /// Makes the characters of what turned out not to be the name of a class members.
    fn give_up(&mut self, alloc: Global) -> Result<(), AllocError>
        ensures { OnOk result (set_of self.new ≡ give_up (set_of self.old)) }
    {
        let text = name_text(alloc, self.phase, &self.name)?;
        self.add_members(&text)?;
        self.phase = 0;
        self.name = Vec::new(alloc);
        Ok(())
    }

    /// Ends what may be the name of a class at the end of the set.
    pub fn end(&mut self, alloc: Global) -> Result<(), AllocError>
        ensures { OnOk result (set_of self.new ≡ without_name (set_of self.old)) }
    {
        if self.phase == 0 {
            return Ok(());
        }
        self.give_up(alloc)
    }

    fn goes_on(&self, c: char) -> bool
        ensures { result ≡ goes_on (set_of self.now) c }
    {
        self.phase == 1 && is_colon(c) || self.phase == 2 && (is_colon(c) || is_of_name(c))
    }

    fn go_on(&mut self, c: char) -> Result<(), AllocError>
        ensures { OnOk result (set_of self.new ≡ go_on (set_of self.old) c) }
    {
        if self.phase == 1 {
            self.phase = 2;
            return Ok(());
        }
        if is_colon(c) {
            self.phase = 3;
            return Ok(());
        }
        self.name.push(c)?;
        Ok(())
    }

    fn ends_name(&self, c: char) -> bool
        ensures { result ≡ ends_name (set_of self.now) c }
    {
        self.phase == 3 && c == ']'
    }

    /// Makes the characters of the class that was named members.
    fn end_name(&mut self, alloc: Global) -> Result<(), AllocError>
        ensures { OnOk result (set_of self.new ≡ end_name (set_of self.old)) }
    {
        let text = name_text(alloc, 3, &self.name)?;
        push_all(&mut self.raw, &text)?;
        self.raw.push(']')?;
        let ranges = named_ranges(&self.name);
        push_single(&mut self.ranges, self.low)?;
        push_ranges(&mut self.ranges, ranges)?;
        self.low = None;
        self.phase = 0;
        self.unknown = self.unknown || ranges.is_empty();
        self.name = Vec::new(alloc);
        Ok(())
    }

    fn add_to_name(&mut self, alloc: Global, syntax: Syntax, c: char) -> Result<(), AllocError>
        ensures { OnOk result (set_of self.new ≡ add_to_name syntax (set_of self.old) c) }
    {
        if self.ends_name(c) {
            return self.end_name(alloc);
        }
        if self.goes_on(c) {
            return self.go_on(c);
        }
        self.give_up(alloc)?;
        self.add_outside(syntax, c)
    }

    /// Reads a character that doesn't end the set.
    pub fn add(&mut self, alloc: Global, syntax: Syntax, c: char) -> Result<(), AllocError>
        ensures { OnOk result (set_of self.new ≡ add_to_set syntax (set_of self.old) c) }
    {
        if self.phase == 0 {
            return self.add_outside(syntax, c);
        }
        self.add_to_name(alloc, syntax, c)
    }

    fn all_ranges(&self, alloc: Global) -> Result<Vec<(char, char)>, AllocError>
        ensures { IfOk result (λ v. v.items ≡ all_ranges (set_of self.now)) }
    {
        if self.unknown {
            return Ok(Vec::new(alloc));
        }
        let mut ranges = copy(alloc, &self.ranges)?;
        push_single(&mut ranges, self.low)?;
        push_dash(&mut ranges, self.dash)?;
        Ok(ranges)
    }

    /// The set that was read.
    pub fn class(&self, alloc: Global, syntax: Syntax) -> Result<Class, AllocError>
        ensures class { IfOk result (λ class. class_of class ≡ class_by syntax (set_of self.now)) }
        ensures ranges { IfOk result (λ class. class.ranges.items ≡ all_ranges (set_of self.now)) }
    {
        let ranges = self.all_ranges(alloc)?;
        Ok(Class {
            negated: self.negated && !self.unknown,
            slash: !is_gitignore(syntax),
            folds: folds_case(syntax),
            ranges,
        })
    }
}

/// Whether a range ends before it begins.
pub fn has_reversed(ranges: &[(char, char)]) -> bool
    ensures { result ≡ has_reversed ranges.now }
{
    ranges.iter().any(|range| range.1 < range.0)
}
