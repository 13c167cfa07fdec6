//! Copies of regexes with other options, such as another capacity of caches.
ghost use Rattle.std.specs.Prelude.{◌≡◌, IfOk, IfSome, Some};
ghost use Rattle.lazy_dfa.specs.Dfas.{IsDfa};
ghost use Rattle.growing_regex.specs.Growing.{IsBuiltWith, IsResized};

use lazy_dfa::dfa::Config;
use regex_pair::regex::{Builder, Regex};
use std::alloc::{AllocError, Global};
use std::sync::Arc;

/// What makes a regex of two automata with these options.
#[tactic(auto, using(crate::proofs::ResizeLemmas::set_once))]
fn builder_with(options: Config) -> Builder
    ensures { result ≡ options }
{
    let mut builder = Regex::builder();
    builder.dfa(options);
    builder
}

/// The options of the regex, with caches of this capacity in bytes.
fn options_of(re: &Regex, capacity: usize) -> Config
    ensures { result ≡ record (re.now.forward.options) { cache_capacity = Some capacity } }
{
    re.forward().get_config().cache_capacity(capacity)
}

/// States the invariant of both automata.
fn are_made(re: &Regex)
    ensures forward { IsDfa re.now.forward }
    ensures reverse { IsDfa re.now.reverse }
{
    re.forward().is_made();
    re.reverse().is_made();
}

/// The regex of the same trees whose automata have these options, if there is one and memory suffices. They are copied, so nothing is compiled.
pub fn with_options(alloc: Global, re: &Regex, options: Config) -> Option<Regex>
    ensures { IfSome result (IsBuiltWith options re.now) }
{
    let Ok(forward) = re.forward().get_nfa().try_clone(alloc) else {
        return None;
    };
    let Ok(reverse) = re.reverse().get_nfa().try_clone(alloc) else {
        return None;
    };
    let builder = builder_with(options);
    let regex = match builder.build_from_nfas(forward, reverse) {
        Ok(regex) => regex,
        Err(_) => return None,
    };
    are_made(&regex);
    Some(regex)
}

/// A value that may be shared, if memory suffices.
pub fn shared<T: Drop>(alloc: Global, value: T) -> Result<Arc<T>, AllocError>
    ensures { IfOk result (λ shared. shared.value ≡ value) }
{
    match Arc::new(alloc, value) {
        Ok(shared) => Ok(shared),
        Err(_) => Err(AllocError),
    }
}

/// The regex of the same trees with caches of this capacity in bytes, if memory suffices. It may be shared.
pub(crate) fn resized(alloc: Global, re: &Regex, capacity: usize) -> Option<Arc<Regex>>
    ensures { IfSome result (λ larger. IsResized capacity re.now larger.value) }
{
    let Some(regex) = with_options(alloc, re, options_of(re, capacity)) else {
        return None;
    };
    match shared(alloc, regex) {
        Ok(regex) => Some(regex),
        Err(_) => None,
    }
}
