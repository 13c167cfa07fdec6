ghost use Rattle.std.specs.Prelude.{◌≡◌, ◌∷◌, [], ◌++◌, IfOk, OnOk, IsTrue};
ghost use Rattle.std.specs.Char.{IsScalar};
ghost use Rattle.regex_class.specs.Ranges.{IsCanonical};
ghost use Rattle.hir_core.specs.Facts.{is_ascending};
ghost use Rattle.pattern_text.specs.Cut.{cut_to_bytes, without_surrogates};

use std::alloc::{AllocError, Global};

/// The ranges of a class of bytes, without the numbers above FF.
pub(crate) fn byte_ranges(alloc: Global, ranges: &[(u32, u32)]) -> Result<Vec<(u8, u8)>, AllocError>
    requires { IsCanonical ranges.now }
    ensures same { IfOk result (λ out. out.items ≡ cut_to_bytes ranges.now) }
    ensures ascend { IfOk result (λ out. IsTrue (is_ascending out.items)) }
{
    let mut out = Vec::new(alloc);
    for range in ranges {
        let (start, end) = *range;
        let end = end.min(0xFF);
        if start <= end {
            out.push((start as u8, end as u8))?;
        }
    }
    Ok(out)
}

/// The ranges of a class of characters, without the surrogates that it may have.
pub(crate) fn scalar_ranges(
    alloc: Global,
    ranges: &[(u32, u32)],
) -> Result<Vec<(char, char)>, AllocError>
    requires { IsCanonical ranges.now }
    ensures same { IfOk result (λ out. out.items ≡ without_surrogates ranges.now) }
    ensures ascend { IfOk result (λ out. IsTrue (is_ascending out.items)) }
{
    let mut out = Vec::new(alloc);
    for range in ranges {
        let (start, end) = *range;
        if start < 0xD800 {
            push(&mut out, start, end.min(0xD7FF))?;
        }
        if end > 0xDFFF {
            push(&mut out, start.max(0xE000), end)?;
        }
    }
    Ok(out)
}

fn push(out: &mut Vec<(char, char)>, start: u32, end: u32) -> Result<(), AllocError>
    requires start { IsScalar start }
    requires end { IsScalar end }
    ensures { OnOk result (out.new.items ≡ out.old.items ++ (start, end) ∷ []) }
{
    match (char::from_u32(start), char::from_u32(end)) {
        (Some(start), Some(end)) => {
            out.push((start, end))?;
            Ok(())
        }
        _ => unreachable!(),
    }
}
