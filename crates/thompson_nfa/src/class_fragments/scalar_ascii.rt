//! Fragments of classes of scalars that are spelled by one byte each.

ghost use Rattle.std.specs.Prelude.{◌≡◌, ◌+◌, ◌*◌, true, length, IfOk, IfErr};
ghost use Rattle.hir_core.specs.Facts.{count, is_ascending};
ghost use Rattle.hir_core.specs.Tree.{char_class};
ghost use Rattle.thompson_nfa.specs.AsciiClasses.{is_ascii};
ghost use Rattle.thompson_nfa.specs.Compiled.{Makes, TakesBytes, Does};
ghost use Rattle.thompson_nfa.specs.Refusals.{Quits, ExceedsLimit};

use crate::class_fragments::class::byte_class;
use crate::compiling::Fragment;
use nfa_core::{BuildError, Builder};
use std::alloc::{AllocError, Global};

/// Whether one byte spells each scalar of the ranges.
pub(crate) fn is_ascii(ranges: &[(char, char)]) -> bool
    ensures { result ≡ is_ascii ranges.now }
{
    ranges.iter().all(|range| range.1 < '\u{80}')
}

/// The bytes that spell the scalars of the ranges.
fn bytes_of(alloc: Global, ranges: &[(char, char)]) -> Result<Vec<(u8, u8)>, AllocError>
    requires ascending { is_ascending ranges.now ≡ true }
    requires ascii { is_ascii ranges.now ≡ true }
    ensures { IfOk result (λ v. v.items ≡ ranges.now) }
{
    let mut all = Vec::new(alloc);
    for range in ranges {
        all.push((range.0 as u8, range.1 as u8))?;
    }
    Ok(all)
}

/// One state that reads the byte of a scalar of the ranges, before one that stands for what follows. It is
/// the same when the automaton reads in reverse.
pub(crate) fn compile_ascii(
    builder: &mut Builder,
    alloc: Global,
    ranges: &[(char, char)],
) -> Result<Fragment, BuildError>
    requires ascending { is_ascending ranges.now ≡ true }
    requires ascii { is_ascii ranges.now ≡ true }
    ensures made { IfOk result (λ f. Makes builder.old builder.new f.start f.end (count (char_class ranges.now))) }
    ensures does { IfOk result (λ f. Does builder.old builder.new f.start f.end (char_class ranges.now)) }
    ensures weighs { IfOk result (λ f. TakesBytes builder.old builder.new f.end
        (48 + 8 * length ranges.now) (48 + 8 * length ranges.now)) }
    ensures passed { IfErr result (λ e. ExceedsLimit builder.old (48 + 8 * length ranges.now) e) }
    ensures groups { IfOk result (λ _. builder.new.groups ≡ builder.old.groups) }
    ensures refused { IfErr result (λ e. Quits builder.old builder.new (count (char_class ranges.now)) e) }
{
    let bytes = bytes_of(alloc, ranges)?;
    let class = byte_class(builder, alloc, &bytes)?;
    Ok(class)
}
