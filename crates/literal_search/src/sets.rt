//! Lists of literals made from other lists. The lists are kept short: at most some 64 literals.
ghost use Rattle.std.specs.Prelude.{◌≡◌, ◌≤◌, ◌⊎◌, ◌++◌, ◌∷◌, [], true, IfOk, OnOk};
ghost use Rattle.literal_search.specs.Literals.{Crosses, ListsPrefix, ListsPrefixes, KeepsAll};
ghost use Rattle.literal_search.specs.Required.{IsJoined, IsUnion};

use crate::literals::Literals;
use regex_literal::expected_count;
use std::alloc::{AllocError, Global};

/// The greatest number of literals in a list.
const MAX_LITERALS: usize = 64;

/// Literals of a list that has become too long are cut to this length, and below.
const MAX_CUT: usize = 4;

/// A list whose literals have more bytes than this is cut.
const MAX_BYTES: usize = 1024;

/// The cost of a candidate that comes to nothing, in nanoseconds.
const CANDIDATE_NANOS: u64 = 20;

/// What each literal adds to the cost of a million bytes, in nanoseconds.
const LITERAL_NANOS: u64 = 1_000;

/// Lists joined, one after the other.
#[derive(Debug, Drop)]
pub(crate) struct Joined {
    pub literals: Literals,
    /// Whether nothing was cut.
    pub exact: bool,
}

/// A copy of the bytes.
fn copy_of(alloc: Global, bytes: &[u8]) -> Result<Vec<u8>, AllocError>
    ensures { IfOk result (λ copy. copy.items ≡ bytes.now) }
{
    let copy = bytes.to_vec(alloc)?;
    Ok(copy)
}

/// Whether a literal of the list is a prefix of the bytes.
fn has_prefix(literals: &Literals, bytes: &[u8]) -> bool
    ensures { result ≡ true → ListsPrefix literals.now bytes.now }
{
    let mut n = literals.len();
    while n > 0 {
        n -= 1;
        if bytes.starts_with(literals.get(n)) {
            return true;
        }
    }
    false
}

/// Adds the bytes, unless a literal of the list is a prefix of them.
fn add_prefix(alloc: Global, literals: &mut Literals, bytes: &[u8]) -> Result<(), AllocError>
    ensures keeps { OnOk result (KeepsAll literals.old literals.new) }
    ensures added { OnOk result (ListsPrefix literals.new bytes.now) }
{
    if has_prefix(literals, bytes) {
        return Ok(());
    }
    literals.push(copy_of(alloc, bytes)?)?;
    Ok(())
}

/// The literals cut to this length, without those of which another one is a prefix.
fn cut(alloc: Global, from: &Literals, len: usize) -> Result<Literals, AllocError>
    ensures { IfOk result (λ r. ListsPrefixes from.now r) }
{
    let mut short = Literals::new(alloc);
    let mut n = from.len();
    while n > 0 {
        n -= 1;
        let bytes = from.get(n);
        let end = bytes.len().min(len);
        add_prefix(alloc, &mut short, &bytes[..end])?;
    }
    Ok(short)
}

/// The literals cut so that there are at most so many, or one.
fn cut_to_fit(alloc: Global, from: &Literals, most: usize) -> Result<Literals, AllocError>
    ensures { IfOk result (λ r. ListsPrefixes from.now r) }
{
    let mut len = MAX_CUT;
    let mut short = cut(alloc, from, len)?;
    while len > 0 && short.len() > most {
        len -= 1;
        short = cut(alloc, from, len)?;
    }
    Ok(short)
}

/// Appends the literals of the second list.
fn append(alloc: Global, literals: &mut Literals, more: &Literals) -> Result<(), AllocError>
    ensures keeps { OnOk result (KeepsAll literals.old literals.new) }
    ensures added { OnOk result (KeepsAll more.now literals.new) }
{
    let mut n = more.len();
    while n > 0 {
        n -= 1;
        literals.push(copy_of(alloc, more.get(n))?)?;
    }
    Ok(())
}

/// A list with the same literals.
pub(crate) fn copied(alloc: Global, literals: &Literals) -> Result<Literals, AllocError>
    ensures { IfOk result (λ r. KeepsAll literals.now r) }
{
    let mut copy = Literals::new(alloc);
    append(alloc, &mut copy, literals)?;
    Ok(copy)
}

/// The bytes of both, one after the other.
fn concatenated(alloc: Global, first: &[u8], second: &[u8]) -> Result<Vec<u8>, AllocError>
    ensures { IfOk result (λ r. r.items ≡ first.now ++ second.now) }
{
    let mut bytes = first.to_vec(alloc)?;
    bytes.extend_from_slice(second)?;
    Ok(bytes)
}

/// Appends the bytes followed by each of the literals.
fn append_crossed(
    alloc: Global,
    literals: &mut Literals,
    front: &[u8],
    second: &Literals,
) -> Result<(), AllocError>
    ensures keeps { OnOk result (KeepsAll literals.old literals.new) }
    ensures added { OnOk result (Crosses (front.now ∷ []) second.now literals.new) }
{
    let mut n = second.len();
    while n > 0 {
        n -= 1;
        literals.push(concatenated(alloc, front, second.get(n))?)?;
    }
    Ok(())
}

/// Each literal of the first list followed by each of the second.
fn crossed(alloc: Global, first: &Literals, second: &Literals) -> Result<Literals, AllocError>
    ensures { IfOk result (λ r. Crosses first.now second.now r) }
{
    let mut literals = Literals::new(alloc);
    let mut n = first.len();
    while n > 0 {
        n -= 1;
        append_crossed(alloc, &mut literals, first.get(n), second)?;
    }
    Ok(literals)
}

/// How many bytes the literals have.
fn total_len(literals: &Literals) -> usize {
    let mut total = 0usize;
    for n in 0..literals.len() {
        total = total.saturating_add(literals.get(n).len());
    }
    total
}

/// The literals of spans that are one of the first list, followed by those that begin with one of the second. `exact` says whether these
/// are exactly the literals of the second list.
pub(crate) fn join(
    alloc: Global,
    first: &Literals,
    second: &Literals,
    exact: bool,
) -> Result<Joined, AllocError>
    ensures { IfOk result (λ r. IsJoined first.now second.now exact r) }
{
    let most = MAX_LITERALS / first.len().max(1);
    if second.len() <= most && total_len(second) <= MAX_BYTES {
        let literals = crossed(alloc, first, second)?;
        return Ok(Joined { literals, exact });
    }
    let short = cut_to_fit(alloc, second, most)?;
    let literals = crossed(alloc, first, &short)?;
    Ok(Joined {
        literals,
        exact: false,
    })
}

/// The literals of both lists, cut if they are too many. `exact` says whether both lists are exact.
pub(crate) fn union(
    alloc: Global,
    first: Literals,
    second: &Literals,
    exact: bool,
) -> Result<Joined, AllocError>
    ensures { IfOk result (λ r. IsUnion first second.now exact r) }
{
    let mut all = first;
    append(alloc, &mut all, second)?;
    if all.len() <= MAX_LITERALS {
        return Ok(Joined {
            literals: all,
            exact,
        });
    }
    let literals = cut_to_fit(alloc, &all, MAX_LITERALS)?;
    Ok(Joined {
        literals,
        exact: false,
    })
}

/// How much more a candidate costs if its literal is short: the search for the whole list then examines fewer bytes.
fn shortness(len: usize) -> u64
    ensures { result ≤ 8 }
{
    match len {
        0 | 1 => 8,
        2 => 2,
        _ => 1,
    }
}

/// About how many nanoseconds a search for the literals takes for a million bytes of typical text.
pub(crate) fn cost(literals: &Literals) -> u64 {
    let mut total: u64 = 0;
    for n in 0..literals.len() {
        let bytes = literals.get(n);
        if bytes.is_empty() {
            return u64::MAX;
        }
        let candidates = expected_count(bytes) >> 12;
        let each = CANDIDATE_NANOS * shortness(bytes.len());
        total = total
            .saturating_add(LITERAL_NANOS)
            .saturating_add(candidates.saturating_mul(each));
    }
    total
}

/// How many bytes both begin with alike.
fn shared_len(first: &[u8], second: &[u8]) -> usize {
    let most = first.len().min(second.len());
    for k in 0..most {
        if first[k] != second[k] {
            return k;
        }
    }
    most
}

/// How many bytes all literals begin with alike.
fn len_of_shared_prefix(literals: &Literals) -> usize {
    if literals.len() == 0 {
        return 0;
    }
    let mut len = literals.get(0).len();
    for n in 0..literals.len() {
        len = len.min(shared_len(literals.get(0), literals.get(n)));
    }
    len
}

/// The list, or the prefix that all its literals share, if that is less costly to search for.
#[tactic(auto, using(crate::proofs::ListLemmas::prefixes_of_itself))]
pub(crate) fn or_shared_prefix(alloc: Global, literals: Literals) -> Result<Literals, AllocError>
    ensures { IfOk result (λ r. ListsPrefixes literals r) }
{
    if literals.len() < 2 {
        return Ok(literals);
    }
    let len = len_of_shared_prefix(&literals);
    let prefix = cut(alloc, &literals, len)?;
    Ok(rarer(literals, prefix))
}

/// The list that is less costly to search for.
pub(crate) fn rarer(first: Literals, second: Literals) -> Literals
    ensures { (result ≡ first) ⊎ (result ≡ second) }
{
    if cost(&second) < cost(&first) {
        second
    } else {
        first
    }
}
