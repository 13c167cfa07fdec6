//! The patterns that a regex keeps.
ghost use Rattle.std.specs.Prelude.{◌≡◌, ◌++◌, ◌∷◌, [], map, IfOk, OnOk, string_bytes};

use std::alloc::{AllocError, Global};

fn push_owned(texts: &mut Vec<String>, text: String) -> Result<(), AllocError>
    ensures { OnOk result (texts.new.items ≡ texts.old.items ++ text ∷ []) }
{
    texts.push(text)?;
    Ok(())
}

/// Copies patterns.
pub(crate) fn owned(alloc: Global, texts: &[&str]) -> Result<Vec<String>, AllocError>
    ensures { IfOk result (λ ts. map string_bytes ts.items ≡ map (λ t. t.now) texts.now) }
{
    let mut copies = Vec::new(alloc);
    for text in texts {
        push_owned(&mut copies, String::from_str(alloc, text)?)?;
    }
    Ok(copies)
}

fn push_borrowed<'t>(texts: &mut Vec<&'t str>, text: &'t str) -> Result<(), AllocError>
    ensures { OnOk result (map (λ t. t.now) texts.new.items ≡ map (λ t. t.now) texts.old.items ++ text.now ∷ []) }
{
    texts.push(text)?;
    Ok(())
}

/// Borrows owned patterns as string slices.
pub(crate) fn borrowed<'t>(alloc: Global, texts: &'t [String]) -> Result<Vec<&'t str>, AllocError>
    ensures { IfOk result (λ ts. map (λ t. t.now) ts.items ≡ map string_bytes texts.now) }
{
    let mut read = Vec::new(alloc);
    for text in texts {
        push_borrowed(&mut read, text.as_str())?;
    }
    Ok(read)
}
