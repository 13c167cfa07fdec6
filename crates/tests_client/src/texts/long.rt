// A pattern of ten million bytes, for which an unproved run takes longer than a test may.
use hir_core::{Hir, HirKind};
use pattern_text::{Config, parse};
use std::alloc::{AllocError, Global};

/// The string, so many times.
fn many(alloc: Global, one: &str, count: u32) -> Result<String, AllocError> {
    let mut text = String::from_str(alloc, one)?;
    for _ in 1..count {
        text.push_str(one)?;
    }
    Ok(text)
}

fn bytes(tree: &Hir) -> usize {
    match tree.kind() {
        HirKind::Literal(bytes) => bytes.len(),
        _ => 0,
    }
}

/// Whether the pattern of so many times `abcdefgh` has a literal of eight times as many bytes.
fn keeps_bytes(alloc: Global, count: u32) -> Result<bool, AllocError> {
    let text = many(alloc, "abcdefgh", count)?;
    match parse(alloc, &text, &Config::new()) {
        Ok(tree) => Ok(bytes(&tree) == text.len()),
        Err(_) => Ok(false),
    }
}

#[test]
fn ten_million_bytes(rt: HostRuntime) {
    assert!(rt; matches!(keeps_bytes(rt.alloc(), 1250000), Ok(true)));
}
