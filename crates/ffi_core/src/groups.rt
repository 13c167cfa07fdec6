//! The groups of a compiled regex.
ghost use Rattle.std.specs.Prelude.{◌≡◌, ℕ, List, IfErr, IfOk, length, map, option_map, true};
ghost use Rattle.meta_regex.specs.Regexes.{overlaid};
ghost use Rattle.captures.specs.Groups.{AreGroupsOf, IsPrepared};
ghost use Rattle.ffi_core.specs.Compiled.{IsNewError};
ghost use Rattle.ffi_core.specs.Groups.{bytes_of_name};
ghost use Rattle.ffi_core.specs.Options.{asks_groups, options_of};

use crate::failure::NewError;
use crate::options::Options;
use crate::words::write_into;
use captures::Groups;
use std::alloc::{AllocError, Global};

/// The groups of patterns that were parsed before. So only memory can run out.
fn groups_of(alloc: Global, texts: &[&str], options: &Options) -> Result<Groups, NewError>
    ensures made { IfOk result (AreGroupsOf (options_of options.now) (map (λ t. t.now) texts.now)) }
    ensures refused { (ts : List (List ℕ)) → IfErr result (IsNewError options.now ts) }
{
    match Groups::new(alloc, texts, &options.options()) {
        Ok(groups) => Ok(groups),
        Err(_) => Err(NewError::NoMemory),
    }
}

/// Makes what finds the groups of all patterns, if the options ask for it.
fn prepare(alloc: Global, groups: &mut Groups, options: &Options) -> Result<(), NewError>
    ensures own { (texts : List (List ℕ)) → AreGroupsOf (options_of options.now) texts groups.old →
        AreGroupsOf (options_of options.now) texts groups.new }
    ensures prepared { asks_groups options.now ≡ true → IfOk result (λ _. (n : ℕ) → IsPrepared groups.new n) }
    ensures refused { (texts : List (List ℕ)) → AreGroupsOf (options_of options.now) texts groups.old → (ts : List (List ℕ)) →
        IfErr result (IsNewError options.now ts) }
{
    if !options.asks_groups() {
        return Ok(());
    }
    match groups.prepare(alloc) {
        Ok(()) => Ok(()),
        Err(group_finder::NewError::TooLarge(limit)) => Err(NewError::GroupsTooLarge(limit)),
        Err(_) => Err(NewError::NoMemory),
    }
}

/// The groups of patterns that were parsed before. What finds them is made at once if the options ask for it, and else by the first search
/// that needs it.
pub(crate) fn prepared_groups(
    alloc: Global,
    texts: &[&str],
    options: &Options,
) -> Result<Groups, NewError>
    ensures made { IfOk result (AreGroupsOf (options_of options.now) (map (λ t. t.now) texts.now)) }
    ensures prepared { asks_groups options.now ≡ true → IfOk result (λ groups. (n : ℕ) → IsPrepared groups n) }
    ensures refused { (ts : List (List ℕ)) → IfErr result (IsNewError options.now ts) }
{
    let mut groups = match groups_of(alloc, texts, options) {
        Ok(groups) => groups,
        Err(e) => return Err(e),
    };
    match prepare(alloc, &mut groups, options) {
        Ok(()) => Ok(groups),
        Err(e) => Err(e),
    }
}

/// A copy of groups, with finders of its own. Those that the options ask for could be made before under the same limit, so only
/// memory can run out.
pub(crate) fn copied_groups(
    alloc: Global,
    groups: &Groups,
    options: &Options,
) -> Result<Groups, AllocError>
    ensures own { (texts : List (List ℕ)) → AreGroupsOf (options_of options.now) texts groups.now →
        IfOk result (AreGroupsOf (options_of options.now) texts) }
    ensures prepared { asks_groups options.now ≡ true → IfOk result (λ copy. (n : ℕ) → IsPrepared copy n) }
{
    let mut copy = groups.try_clone(alloc)?;
    match prepare(alloc, &mut copy, options) {
        Ok(()) => Ok(copy),
        Err(_) => Err(AllocError),
    }
}

/// Writes the first bytes of a name into the room, as many as fit. Returns how many bytes the name has, or 0 if there is none.
pub(crate) fn write_name(name: Option<&str>, room: &mut [u8]) -> usize
    ensures counted { result ≡ length (bytes_of_name (option_map (λ t. t.now) name.entry)) }
    ensures written { room.new ≡ overlaid (bytes_of_name (option_map (λ t. t.now) name.entry)) room.old }
{
    let Some(name) = name else {
        return 0;
    };
    write_into(name.as_bytes(), room);
    name.len()
}
