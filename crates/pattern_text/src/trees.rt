ghost use Rattle.std.specs.Prelude.{◌≡◌, map, max, option_map, slice_index_or, string_bytes, None, IfOk};
ghost use Rattle.pattern_text.specs.Translated.{translated};

use crate::classes::{byte_ranges, scalar_ranges};
use crate::look::look_of;
use hir_core::Hir;
use regex_hir::Hir as Pattern;
use std::alloc::{AllocError, Global};

/// The tree of a parsed pattern, part by part. A group has the name at its index, if there is one. The call
/// fails only if it is out of memory.
/// [`trees_mean_what_patterns_do`](crate::laws::trees_mean_what_patterns_do) says what the tree means.
#[cycle(tree_of)]
pub fn tree_of(
    alloc: Global,
    pattern: &Pattern,
    names: &[Option<String>],
) -> Result<Hir, AllocError>
    ensures { IfOk result (λ x. x ≡ translated (map (option_map string_bytes) names.now) pattern.now) }
{
    match pattern {
        Pattern::Empty => Ok(Hir::empty()),
        Pattern::Literal(bytes) => Ok(Hir::literal(bytes.to_vec(alloc)?)),
        Pattern::Bytes(class) => Ok(Hir::bytes(byte_ranges(alloc, &class.ranges)?)),
        Pattern::Chars(class) => Ok(Hir::chars(scalar_ranges(alloc, &class.ranges)?)),
        Pattern::Look(look) => Ok(Hir::look(look_of(*look))),
        Pattern::Repetition {
            min,
            max,
            greedy,
            sub,
        } => {
            let body = tree_of(alloc, sub, names)?;
            let x = Hir::repetition(alloc, *min, at_least(*min, *max), *greedy, body)?;
            Ok(x)
        }
        Pattern::Capture { index, sub } => {
            let body = tree_of(alloc, sub, names)?;
            let name = name_at(alloc, names, *index)?;
            let x = Hir::capture(alloc, *index, name, body)?;
            Ok(x)
        }
        Pattern::Concat(subs) => Ok(Hir::concat(trees_of(alloc, subs, names)?)),
        Pattern::Alternation(subs) => Ok(Hir::alternation(trees_of(alloc, subs, names)?)),
    }
}

#[cycle(tree_of)]
fn trees_of(
    alloc: Global,
    patterns: &[Pattern],
    names: &[Option<String>],
) -> Result<Vec<Hir>, AllocError>
    ensures { IfOk result (λ xs. xs.items ≡ map (translated (map (option_map string_bytes) names.now)) patterns.now) }
{
    let mut trees = Vec::new(alloc);
    for pattern in patterns {
        trees.push(tree_of(alloc, pattern, names)?)?;
    }
    Ok(trees)
}

/// The upper bound, raised to `min` if it is less: the minimum number of rounds is always made.
fn at_least(min: u32, most: Option<u32>) -> Option<u32>
    ensures { result ≡ option_map (λ n. max n min) most }
{
    match most {
        Some(most) => Some(most.max(min)),
        None => None,
    }
}

/// A copy of the name at this index, if there is one.
fn name_at(
    alloc: Global,
    names: &[Option<String>],
    index: u32,
) -> Result<Option<String>, AllocError>
    ensures { IfOk result (λ name. option_map string_bytes name ≡ slice_index_or (map (option_map string_bytes) names.now) index None) }
{
    match names.get(index as usize) {
        Some(Some(name)) => Ok(Some(String::from_str(alloc, name)?)),
        _ => Ok(None),
    }
}
