//! The literals that each span of a tree contains.
ghost use Rattle.std.specs.Prelude.{◌≡◌, ◌∷◌, [], Bool, Some, IfOk, drop};
ghost use Rattle.hir_core.specs.Tree.{Tree, empty, nothing, look, literal, byte_class, char_class, repetition, cat, alt, never, concat, alternation};
ghost use Rattle.look_core.specs.declared.look.Look.{Look};
ghost use Rattle.literal_search.specs.Required.{IsRequired};

use crate::budget::Budget;
use crate::classes::{byte_count, byte_literals, char_count, char_literals};
use crate::literals::Literals;
use crate::sets::{copied, join, rarer, union};
use hir_core::{Hir, HirKind};
use std::alloc::{AllocError, Global};

/// A class with more members is not listed.
const MAX_MEMBERS: usize = 16;

/// An alternation with more parts is not examined, and of a concatenation so many parts are.
const MAX_PARTS: usize = 256;

/// What is known of each span of a tree. A literal without bytes stands everywhere, so a list with one says nothing.
#[derive(Debug, Drop)]
pub struct Required {
    /// Each span begins with one of these.
    pub begins: Literals,
    /// Whether each span is one of them.
    pub exact: bool,
    /// Each span contains one of these.
    pub inside: Literals,
}

/// A list of one literal.
fn single(alloc: Global, bytes: Vec<u8>) -> Result<Literals, AllocError>
    ensures { IfOk result (λ r. r ≡ bytes.items ∷ []) }
{
    let mut literals = Literals::new(alloc);
    literals.push(bytes)?;
    Ok(literals)
}

/// What is known of any tree.
fn unknown(alloc: Global) -> Result<Required, AllocError>
    ensures { IfOk result (λ r. (x : Tree) → IsRequired r x) }
{
    Ok(Required {
        begins: single(alloc, Vec::new(alloc))?,
        exact: false,
        inside: single(alloc, Vec::new(alloc))?,
    })
}

/// What is known of a tree whose spans are empty.
fn of_empty(alloc: Global) -> Result<Required, AllocError>
    ensures empty { IfOk result (λ r. IsRequired r empty) }
    ensures nothing { IfOk result (λ r. IsRequired r nothing) }
    ensures look { IfOk result (λ r. (l : Look) → IsRequired r (look l)) }
{
    Ok(Required {
        begins: single(alloc, Vec::new(alloc))?,
        exact: true,
        inside: single(alloc, Vec::new(alloc))?,
    })
}

/// What is known of a tree without spans.
fn of_never(alloc: Global) -> Required
    ensures { IsRequired result never }
{
    Required {
        begins: Literals::new(alloc),
        exact: true,
        inside: Literals::new(alloc),
    }
}

/// What is known of a literal.
fn of_literal(alloc: Global, bytes: &[u8]) -> Result<Required, AllocError>
    ensures { IfOk result (λ r. IsRequired r (literal bytes.now)) }
{
    Ok(Required {
        begins: single(alloc, bytes.to_vec(alloc)?)?,
        exact: true,
        inside: single(alloc, bytes.to_vec(alloc)?)?,
    })
}

/// What is known of a class of bytes.
fn of_bytes(alloc: Global, ranges: &[(u8, u8)]) -> Result<Required, AllocError>
    ensures { IfOk result (λ r. IsRequired r (byte_class ranges.now)) }
{
    if byte_count(ranges) > MAX_MEMBERS {
        let all = unknown(alloc)?;
        return Ok(all);
    }
    let begins = byte_literals(alloc, ranges)?;
    let inside = byte_literals(alloc, ranges)?;
    Ok(Required {
        begins,
        exact: true,
        inside,
    })
}

/// What is known of a class of scalars.
fn of_chars(alloc: Global, ranges: &[(char, char)]) -> Result<Required, AllocError>
    ensures { IfOk result (λ r. IsRequired r (char_class ranges.now)) }
{
    if char_count(ranges) > MAX_MEMBERS {
        let all = unknown(alloc)?;
        return Ok(all);
    }
    let begins = char_literals(alloc, ranges)?;
    let inside = char_literals(alloc, ranges)?;
    Ok(Required {
        begins,
        exact: true,
        inside,
    })
}

/// What is known of one round of a body at most.
fn once(alloc: Global, min: u32, body: Required) -> Result<Required, AllocError>
    ensures { IfOk result (λ r. (greedy : Bool) (x : Tree) → IsRequired body x → IsRequired r (repetition min (Some 1) greedy x)) }
{
    if min > 0 {
        return Ok(body);
    }
    let none = of_empty(alloc)?;
    let all = either(alloc, body, none)?;
    Ok(all)
}

/// What is known of so many rounds of a body.
fn repeated(
    alloc: Global,
    min: u32,
    max: Option<u32>,
    body: Required,
) -> Result<Required, AllocError>
    ensures { IfOk result (λ r. (greedy : Bool) (x : Tree) → IsRequired body x → IsRequired r (repetition min max greedy x)) }
{
    match max {
        Some(1) => once(alloc, min, body),
        _ => {
            if min == 0 {
                let all = unknown(alloc)?;
                return Ok(all);
            }
            Ok(Required {
                begins: body.begins,
                exact: false,
                inside: body.inside,
            })
        }
    }
}

/// What is known of one tree followed by another one.
fn followed(alloc: Global, first: Required, second: Required) -> Result<Required, AllocError>
    ensures { IfOk result (λ r. (x y : Tree) → IsRequired first x → IsRequired second y → IsRequired r (cat x y)) }
{
    if !first.exact {
        return Ok(Required {
            begins: first.begins,
            exact: false,
            inside: rarer(first.inside, second.inside),
        });
    }
    let both = join(alloc, &first.begins, &second.begins, second.exact)?;
    let whole = copied(alloc, &both.literals)?;
    Ok(Required {
        begins: both.literals,
        exact: both.exact,
        inside: rarer(rarer(first.inside, second.inside), whole),
    })
}

/// What is known of one tree or another one.
fn either(alloc: Global, first: Required, second: Required) -> Result<Required, AllocError>
    ensures { IfOk result (λ r. (x y : Tree) → IsRequired first x → IsRequired second y → IsRequired r (alt x y)) }
{
    let exact = first.exact && second.exact;
    let begins = union(alloc, first.begins, &second.begins, exact)?;
    let inside = union(alloc, first.inside, &second.inside, false)?;
    Ok(Required {
        begins: begins.literals,
        exact: begins.exact,
        inside: inside.literals,
    })
}

/// What is known of the parts of a concatenation from this one on, none of which is examined.
fn of_rest(alloc: Global, xs: &[Hir], from: usize) -> Result<Required, AllocError>
    ensures { IfOk result (λ r. IsRequired r (concat (drop from xs.now))) }
{
    if from < xs.len() {
        let all = unknown(alloc)?;
        return Ok(all);
    }
    let all = of_empty(alloc)?;
    Ok(all)
}

/// Literals of which each span of the tree contains one, and literals of which each begins with one. The only error is a failed
/// allocation.
pub fn required_literals(alloc: Global, x: &Hir) -> Result<Required, AllocError>
    ensures { IfOk result (λ r. IsRequired r x.now) }
{
    let mut budget = Budget::new();
    let all = literals_of(alloc, &mut budget, x)?;
    Ok(all)
}

/// Literals of which each span of one of the trees contains one, and literals of which each begins with one.
pub(crate) fn literals_of_all(alloc: Global, xs: &[Hir]) -> Result<Required, AllocError>
    ensures { IfOk result (λ r. IsRequired r (alternation xs.now)) }
{
    let mut budget = Budget::new();
    let all = of_alternation(alloc, &mut budget, xs)?;
    Ok(all)
}

/// What is known of a tree.
#[cycle(literals_of)]
fn literals_of(alloc: Global, budget: &mut Budget, x: &Hir) -> Result<Required, AllocError>
    ensures { IfOk result (λ r. IsRequired r x.now) }
{
    if budget.is_spent() {
        let unlisted = unknown(alloc)?;
        return Ok(unlisted);
    }
    match x.kind() {
        HirKind::Empty | HirKind::Look(_) => of_empty(alloc),
        HirKind::Literal(bytes) => of_literal(alloc, bytes),
        HirKind::Bytes(ranges) => of_bytes(alloc, ranges),
        HirKind::Chars(ranges) => of_chars(alloc, ranges),
        HirKind::Repetition { min, max, sub, .. } => {
            let body = literals_of(alloc, budget, sub)?;
            repeated(alloc, *min, *max, body)
        }
        HirKind::Capture { sub, .. } => literals_of(alloc, budget, sub),
        HirKind::Concat(subs) => of_concat(alloc, budget, subs),
        HirKind::Alternation(subs) => of_alternation(alloc, budget, subs),
    }
}

/// What is known of a concatenation. Literals are listed of its first parts alone.
#[cycle(literals_of)]
fn of_concat(alloc: Global, budget: &mut Budget, xs: &[Hir]) -> Result<Required, AllocError>
    ensures { IfOk result (λ r. IsRequired r (concat xs.now)) }
{
    let mut n = xs.len().min(MAX_PARTS);
    let mut all = of_rest(alloc, xs, n)?;
    while n > 0 {
        n -= 1;
        let part = literals_of(alloc, budget, &xs[n])?;
        all = followed(alloc, part, all)?;
        budget.spend(&all.begins);
    }
    Ok(all)
}

/// What is known of an alternation.
#[cycle(literals_of)]
fn of_alternation(alloc: Global, budget: &mut Budget, xs: &[Hir]) -> Result<Required, AllocError>
    ensures { IfOk result (λ r. IsRequired r (alternation xs.now)) }
{
    if xs.len() > MAX_PARTS {
        let all = unknown(alloc)?;
        return Ok(all);
    }
    let mut all = of_never(alloc);
    let mut n = xs.len();
    while n > 0 {
        n -= 1;
        let part = literals_of(alloc, budget, &xs[n])?;
        all = either(alloc, part, all)?;
        budget.spend(&all.begins);
        budget.spend(&all.inside);
    }
    Ok(all)
}
