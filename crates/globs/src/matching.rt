//! Tables of what the rest of a glob matches: a value for each end of a name, the shortest end first.
ghost use Rattle.std.specs.Prelude.{◌≡◌, ◌+◌, ◌||◌, ◌∷◌, [], ℕ, Bool, true, false, List, IfOk, length, map};
ghost use Rattle.globs.specs.Matching.{at_ends, either_then, Fails, folders, is_end, item_of, item_then, items_then, many, matches, matches_part, may_take, one, section_of, sections_of, takes};

use crate::item::{Item, is_slash};
use std::alloc::{AllocError, Global};

/// The table of an item that takes one character, before what the given table is of.
fn one_table(
    alloc: Global,
    item: &Item,
    name: &[char],
    after: &[bool],
) -> Result<Vec<bool>, AllocError>
    requires { length after.now ≡ length name.now + 1 }
    ensures len { IfOk result (λ v. length v.items ≡ length name.now + 1) }
    ensures table { IfOk result (λ v. (rest : List ℕ → Bool) → after.now ≡ at_ends rest name.now
        → v.items ≡ at_ends (one (takes (item_of item.now)) rest) name.now) }
{
    let mut table = Vec::new(alloc);
    table.push(false)?;
    for i in (0..name.len()).rev() {
        let is = item.takes(name[i]) & after[name.len() - 1 - i];
        table.push(is)?;
    }
    Ok(table)
}

/// The table of an item that takes any number of characters.
fn many_table(
    alloc: Global,
    item: &Item,
    name: &[char],
    after: &[bool],
) -> Result<Vec<bool>, AllocError>
    requires { length after.now ≡ length name.now + 1 }
    ensures len { IfOk result (λ v. length v.items ≡ length name.now + 1) }
    ensures table { IfOk result (λ v. (rest : List ℕ → Bool) → after.now ≡ at_ends rest name.now
        → v.items ≡ at_ends (many (takes (item_of item.now)) rest) name.now) }
{
    let mut table = Vec::new(alloc);
    let mut is = after[0];
    table.push(is)?;
    for i in (0..name.len()).rev() {
        is = after[name.len() - i] | (item.takes(name[i]) & is);
        table.push(is)?;
    }
    Ok(table)
}

/// The table of folders.
fn folders_table(alloc: Global, name: &[char], after: &[bool]) -> Result<Vec<bool>, AllocError>
    requires { length after.now ≡ length name.now + 1 }
    ensures len { IfOk result (λ v. length v.items ≡ length name.now + 1) }
    ensures table { IfOk result (λ v. (rest : List ℕ → Bool) → after.now ≡ at_ends rest name.now
        → v.items ≡ at_ends (folders rest) name.now) }
{
    let mut table = Vec::new(alloc);
    let mut is_after = false;
    table.push(after[0])?;
    for i in (0..name.len()).rev() {
        is_after = (is_slash(name[i]) & after[name.len() - 1 - i]) | is_after;
        let is = after[name.len() - i] | is_after;
        table.push(is)?;
    }
    Ok(table)
}

/// The table of an item, before what the given table is of.
fn item_table(
    alloc: Global,
    item: &Item,
    name: &[char],
    after: &[bool],
) -> Result<Vec<bool>, AllocError>
    requires { length after.now ≡ length name.now + 1 }
    ensures len { IfOk result (λ v. length v.items ≡ length name.now + 1) }
    ensures table { IfOk result (λ v. (rest : List ℕ → Bool) → after.now ≡ at_ends rest name.now
        → v.items ≡ at_ends (item_then (item_of item.now) rest) name.now) }
{
    match item {
        Item::One(_) => one_table(alloc, item, name, after),
        Item::Set(_) => one_table(alloc, item, name, after),
        Item::Star => many_table(alloc, item, name, after),
        Item::Anything => many_table(alloc, item, name, after),
        Item::Folders => folders_table(alloc, name, after),
    }
}

/// A table of one value for the empty end, and false for all others.
fn flat_table(alloc: Global, name: &[char], first: bool) -> Result<Vec<bool>, AllocError>
    ensures len { IfOk result (λ v. length v.items ≡ length name.now + 1) }
    ensures table { IfOk result (λ v. (rest : List ℕ → Bool) → rest [] ≡ first → ((c : ℕ) (cs : List ℕ) → rest (c ∷ cs) ≡ false)
        → v.items ≡ at_ends rest name.now) }
{
    let mut table = Vec::new(alloc);
    table.push(first)?;
    for i in (0..name.len()).rev() {
        let _ = i;
        table.push(false)?;
    }
    Ok(table)
}

/// The table of what matches if either of two does.
fn joined(
    alloc: Global,
    name: &[char],
    one: &[bool],
    other: &[bool],
) -> Result<Vec<bool>, AllocError>
    requires one_len { length one.now ≡ length name.now + 1 }
    requires other_len { length other.now ≡ length name.now + 1 }
    ensures len { IfOk result (λ v. length v.items ≡ length name.now + 1) }
    ensures table { IfOk result (λ v. (f g : List ℕ → Bool) → one.now ≡ at_ends f name.now → other.now ≡ at_ends g name.now
        → v.items ≡ at_ends (λ n. f n || g n) name.now) }
{
    let mut table = Vec::new(alloc);
    table.push(one[0] | other[0])?;
    for i in (0..name.len()).rev() {
        let is = one[name.len() - i] | other[name.len() - i];
        table.push(is)?;
    }
    Ok(table)
}

fn copy(alloc: Global, values: &[bool]) -> Result<Vec<bool>, AllocError>
    ensures { IfOk result (λ v. v.items ≡ values.now) }
{
    let mut all = Vec::new(alloc);
    for value in values {
        all.push(*value)?;
    }
    Ok(all)
}

/// The table of items that match one after the other.
fn items_table(
    alloc: Global,
    items: &[Item],
    name: &[char],
    after: &[bool],
) -> Result<Vec<bool>, AllocError>
    requires { length after.now ≡ length name.now + 1 }
    ensures len { IfOk result (λ v. length v.items ≡ length name.now + 1) }
    ensures table { IfOk result (λ v. (rest : List ℕ → Bool) → after.now ≡ at_ends rest name.now
        → v.items ≡ at_ends (items_then (map item_of items.now) rest) name.now) }
{
    let mut table = copy(alloc, after)?;
    for i in (0..items.len()).rev() {
        table = item_table(alloc, &items[i], name, &table)?;
    }
    Ok(table)
}

/// The table of alternatives.
fn either_table(
    alloc: Global,
    section: &[Vec<Item>],
    name: &[char],
    after: &[bool],
) -> Result<Vec<bool>, AllocError>
    requires { length after.now ≡ length name.now + 1 }
    ensures len { IfOk result (λ v. length v.items ≡ length name.now + 1) }
    ensures table { IfOk result (λ v. (rest : List ℕ → Bool) → after.now ≡ at_ends rest name.now
        → v.items ≡ at_ends (either_then (section_of section.now) rest) name.now) }
{
    let mut table = flat_table(alloc, name, false)?;
    for i in (0..section.len()).rev() {
        let one = items_table(alloc, &section[i], name, after)?;
        table = joined(alloc, name, &one, &table)?;
    }
    Ok(table)
}

/// The table of alternatives, of which there is mostly one.
fn section_table(
    alloc: Global,
    section: &[Vec<Item>],
    name: &[char],
    after: &[bool],
) -> Result<Vec<bool>, AllocError>
    requires { length after.now ≡ length name.now + 1 }
    ensures len { IfOk result (λ v. length v.items ≡ length name.now + 1) }
    ensures table { IfOk result (λ v. (rest : List ℕ → Bool) → after.now ≡ at_ends rest name.now
        → v.items ≡ at_ends (either_then (section_of section.now) rest) name.now) }
{
    if section.len() == 1 {
        let table = items_table(alloc, &section[0], name, after)?;
        return Ok(table);
    }
    let table = either_table(alloc, section, name, after)?;
    Ok(table)
}

/// The table of all sections.
pub fn glob_table(
    alloc: Global,
    sections: &[Vec<Vec<Item>>],
    name: &[char],
) -> Result<Vec<bool>, AllocError>
    ensures len { IfOk result (λ v. length v.items ≡ length name.now + 1) }
    ensures table { IfOk result (λ v. v.items ≡ at_ends (matches (sections_of sections.now)) name.now) }
{
    let mut table = flat_table(alloc, name, true)?;
    for i in (0..sections.len()).rev() {
        table = section_table(alloc, &sections[i], name, &table)?;
    }
    Ok(table)
}

/// Whether an item may match something that ends in this character.
fn may_take(item: &Item, c: char) -> bool
    ensures { result ≡ may_take (item_of item.now) c }
{
    match item {
        Item::One(x) => c == *x,
        Item::Set(class) => class.has(c),
        Item::Star => true,
        Item::Anything => true,
        Item::Folders => true,
    }
}

/// Whether items may match a name that ends in this character.
fn may_end(items: &[Item], c: char) -> bool
    ensures { result ≡ false → Fails c (items_then (map item_of items.now) is_end) }
{
    if items.len() == 0 {
        return true;
    }
    let last = items.len() - 1;
    may_take(&items[last], c)
}

/// Whether alternatives may match a name that ends in this character, if there is one alone.
fn may_end_section(section: &[Vec<Item>], c: char) -> bool
    ensures { result ≡ false → Fails c (either_then (section_of section.now) is_end) }
{
    if section.len() == 1 {
        return may_end(&section[0], c);
    }
    true
}

/// Whether sections may match a name that ends in this character, if there is one alone.
fn may_match_end(sections: &[Vec<Vec<Item>>], c: char) -> bool
    ensures { result ≡ false → Fails c (matches (sections_of sections.now)) }
{
    if sections.len() == 1 {
        return may_end_section(&sections[0], c);
    }
    true
}

/// Whether the sections may match a name or what is after one of its slashes. Most names are left out by their last character.
pub fn may_match(sections: &[Vec<Vec<Item>>], name: &[char]) -> bool
    ensures all { result ≡ false → matches (sections_of sections.now) name.now ≡ false }
    ensures part { result ≡ false → matches_part (sections_of sections.now) name.now ≡ false }
{
    if name.len() == 0 {
        return true;
    }
    let last = name.len() - 1;
    may_match_end(sections, name[last])
}

/// Whether the sections match all of a name.
pub fn matches(
    alloc: Global,
    sections: &[Vec<Vec<Item>>],
    name: &[char],
) -> Result<bool, AllocError>
    ensures { IfOk result (λ is. is ≡ matches (sections_of sections.now) name.now) }
{
    let table = glob_table(alloc, sections, name)?;
    Ok(table[name.len()])
}

/// Whether the sections match all of a name, or all that is after one of its slashes.
pub fn matches_part(
    alloc: Global,
    sections: &[Vec<Vec<Item>>],
    name: &[char],
) -> Result<bool, AllocError>
    ensures { IfOk result (λ is. is ≡ matches_part (sections_of sections.now) name.now) }
{
    let table = glob_table(alloc, sections, name)?;
    let table = folders_table(alloc, name, &table)?;
    Ok(table[name.len()])
}
