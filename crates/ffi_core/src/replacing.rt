//! Replacing matches into a caller's buffer.
ghost use Rattle.std.specs.Prelude.{◌≡◌, [], ℕ, List, IfErr, IfOk, false, true};
ghost use Rattle.meta_regex.specs.declared.options.Options.{Options as EngineOptions};
ghost use Rattle.captures.specs.Groups.{AreGroupsOf};
ghost use Rattle.captures.specs.Replacing.{IsReplaced, IsReplacementFor, Said, as_literal, by_template};
ghost use Rattle.ffi_core.specs.Compiled.{config_by};
ghost use Rattle.ffi_core.specs.Groups.{IsGroupSearchError};
ghost use Rattle.ffi_core.specs.Replacing.{IsReplacedInto, said_by};

use crate::compiled::Compiled;
use crate::words::write_into;
use captures::{CapturesError, Groups, Replacement};
use std::alloc::{AllocError, Global};

/// A replacement for the patterns of these groups: bytes that are written as they are, or a template.
pub(crate) fn replacement_of(
    alloc: Global,
    groups: &Groups,
    replacement: &[u8],
    is_literal: bool,
) -> Result<Replacement, AllocError>
    ensures literal { is_literal ≡ true → IfOk result (λ r. (o : EngineOptions) (texts : List (List ℕ)) → AreGroupsOf o texts groups.now →
        IsReplacementFor o.syntax texts (as_literal replacement.now) r) }
    ensures template { is_literal ≡ false → IfOk result (λ r. (o : EngineOptions) (texts : List (List ℕ)) → AreGroupsOf o texts groups.now →
        IsReplacementFor o.syntax texts (by_template o.syntax replacement.now) r) }
{
    if is_literal {
        groups.literal(alloc, replacement)
    } else {
        groups.template(alloc, replacement)
    }
}

/// What comes of replacing matches.
#[derive(Drop)]
struct Replaced {
    bytes: Vec<u8>,
    count: usize,
}

/// The haystack with its first matches replaced, by what goes with the regex.
fn replace_matches(
    compiled: &mut Compiled,
    alloc: Global,
    haystack: &[u8],
    replacement: &Replacement,
    limit: usize,
) -> Result<Replaced, CapturesError>
    ensures same { compiled.new ≡ compiled.old }
    ensures replaced { (said : Said) → IsReplacementFor (config_by compiled.old) compiled.old.texts said replacement.now →
        IfOk result (λ r. IsReplaced (config_by compiled.old) compiled.old.texts haystack.now said limit [] r.bytes.items r.count) }
    ensures refused { IfErr result (IsGroupSearchError compiled.old haystack.now) }
{
    let mut bytes = Vec::new(alloc);
    let count = match compiled.append_replaced(alloc, haystack, replacement, limit, &mut bytes) {
        Ok(count) => count,
        Err(error) => return Err(error),
    };
    Ok(Replaced { bytes, count })
}

impl Compiled {
    /// Replaces the first matches of a haystack, from left to right: as many as `limit` at most, or all if that is 0. The matches are those of
    /// [`captures_all`](Compiled::captures_all). In a template, `$1`, `$name` and `${name}` stand for groups of the match and `$$` for a dollar
    /// sign. What names no group of the match's pattern writes nothing. A literal replacement writes its bytes as they are.
    ///
    /// Writes the first bytes of the outcome into `output`, as many as fit, and returns how many bytes it has and how many matches were replaced. If
    /// the call fails, `output` is unchanged.
    pub fn replace_all(
        &mut self,
        alloc: Global,
        haystack: &[u8],
        replacement: &[u8],
        is_literal: bool,
        limit: usize,
        output: &mut [u8],
    ) -> Result<(usize, usize), CapturesError>
        ensures same { self.new ≡ self.old }
        ensures replaced { IfOk result (λ r. IsReplacedInto (config_by self.old) self.old.texts haystack.now
            (said_by (config_by self.old) is_literal replacement.now) limit output.old output.new r.0 r.1) }
        ensures kept { IfErr result (λ _. output.new ≡ output.old) }
        ensures refused { IfErr result (IsGroupSearchError self.old haystack.now) }
    {
        let replacement = match self.replacement(alloc, replacement, is_literal) {
            Ok(replacement) => replacement,
            Err(_) => return Err(CapturesError::NoMemory),
        };
        match replace_matches(self, alloc, haystack, &replacement, limit) {
            Ok(replaced) => {
                write_into(&replaced.bytes, output);
                Ok((replaced.bytes.len(), replaced.count))
            }
            Err(error) => Err(error),
        }
    }
}
