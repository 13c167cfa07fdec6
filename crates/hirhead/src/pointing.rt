ghost use Rattle.std.specs.Prelude.{◌≡◌, IfOk, IsCharBoundary, chars, length, replicate, string_bytes};
ghost use Rattle.hirhead.specs.Pointed.{IsLastLine, IsFirstLine, IsShown};

use std::alloc::{AllocError, Global};

fn last_line(text: &str) -> &str
    ensures { IsLastLine text.now result.now }
{
    match text.rsplit_once('\n') {
        Some((_, line)) => line,
        None => text,
    }
}

fn first_line(text: &str) -> &str
    ensures { IsFirstLine text.now result.now }
{
    match text.split_once('\n') {
        Some((line, _)) => line,
        None => text,
    }
}

/// As many spaces as the text has characters.
fn spaces_for(alloc: Global, text: &str) -> Result<String, AllocError>
    ensures { IfOk result (λ spaces. string_bytes spaces ≡ replicate (length (chars text.now)) 32) }
{
    let mut spaces = String::new(alloc);
    for _c in text.chars() {
        spaces.push(' ')?;
    }
    Ok(spaces)
}

/// The line of the text that has the offset `at`, and a caret below that offset. A character has to begin there, or the text has
/// to end there.
pub fn pointed(alloc: Global, text: &str, at: usize) -> Result<String, AllocError>
    requires { IsCharBoundary text.now at }
    ensures { IfOk result (λ shown. IsShown text.now at (string_bytes shown)) }
{
    let (above, below) = text.split_at(at);
    let before = last_line(above);
    let behind = first_line(below);
    let spaces = spaces_for(alloc, before)?;
    let shown = format!(in alloc; "    {before}{behind}\n    {spaces}^\n")?;
    Ok(shown)
}
