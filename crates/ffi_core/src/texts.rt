//! Patterns that are stored one after the other.
ghost use Rattle.std.specs.Prelude.{◌≡◌, ◌<◌, ◌++◌, ◌∷◌, [], ℕ, Some, false, map, length, IfOk, IfErr, OnOk};
ghost use Rattle.meta_regex.specs.Regexes.{IsNoText};
ghost use Rattle.ffi_core.specs.Compiled.{IsCallError, IsSplitError, are_arguments, do_lengths_fit};
ghost use Rattle.ffi_core.specs.declared.failure.NewError.TheVariants.{BadArgument, NoMemory, NotUtf8};
ghost use Rattle.ffi_core.specs.Texts.{cut};

use crate::failure::NewError;
use crate::options::Options;
use std::alloc::Global;

fn push<'t>(texts: &mut Vec<&'t str>, text: &'t str) -> Result<(), NewError>
    ensures more { OnOk result (map (λ t. t.now) texts.new.items ≡ map (λ t. t.now) texts.old.items ++ text.now ∷ []) }
    ensures refused { IfErr result (λ e. e ≡ NoMemory) }
{
    match texts.push(text) {
        Ok(()) => Ok(()),
        Err(_) => Err(NewError::NoMemory),
    }
}

/// The bytes as a string, for the pattern with this number.
fn text_of(bytes: &[u8], number: usize) -> Result<&str, NewError>
    ensures same { IfOk result (λ t. t.now ≡ bytes.now) }
    ensures refused { IfErr result (λ e. (at : ℕ) × (e ≡ NotUtf8 number at) × IsNoText (Some bytes.now) at) }
{
    match str::from_utf8(bytes) {
        Ok(text) => Ok(text),
        Err(e) => Err(NewError::NotUtf8 {
            pattern: number,
            at: e.valid_up_to(),
        }),
    }
}

/// Whether there is a length, and the lengths sum to the number of bytes.
fn lengths_fit(bytes: &[u8], lengths: &[usize]) -> bool
    ensures { result ≡ do_lengths_fit lengths.now bytes.now }
{
    if lengths.is_empty() {
        return false;
    }
    let mut left = bytes.len();
    for length in lengths {
        if *length > left {
            return false;
        }
        left -= *length;
    }
    left == 0
}

/// Whether a call for a regex accepts these arguments: each flag is known, there is a length, and the lengths sum to the number of bytes.
pub fn accepts(bytes: &[u8], lengths: &[usize], options: &Options) -> bool
    ensures value { result ≡ are_arguments options.now lengths.now bytes.now }
    ensures refused { result ≡ false → IsCallError options.now lengths.now bytes.now BadArgument }
{
    if !options.is_known() {
        return false;
    }
    lengths_fit(bytes, lengths)
}

/// Splits bytes into patterns of these lengths, which are stored one after the other.
///
/// It returns an error if there is no length, if the lengths don't sum to the number of bytes, if a pattern isn't UTF-8, or if memory runs
/// out.
pub fn patterns_of<'t>(
    alloc: Global,
    bytes: &'t [u8],
    lengths: &[usize],
) -> Result<Vec<&'t str>, NewError>
    ensures texts { IfOk result (λ ts. map (λ t. t.now) ts.items ≡ cut lengths.now bytes.now) }
    ensures refused { IfErr result (IsSplitError lengths.now bytes.now) }
{
    if lengths.is_empty() {
        return Err(NewError::BadArgument);
    }
    let mut texts = Vec::new(alloc);
    let mut rest = bytes;
    for (number, length) in lengths.iter().enumerate() {
        let Some((part, behind)) = rest.split_at_checked(*length) else {
            return Err(NewError::BadArgument);
        };
        let text = match text_of(part, number) {
            Ok(text) => text,
            Err(e) => return Err(e),
        };
        push(&mut texts, text)?;
        rest = behind;
    }
    if !rest.is_empty() {
        return Err(NewError::BadArgument);
    }
    Ok(texts)
}
