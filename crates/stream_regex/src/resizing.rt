//! Copies of automata with caches of another capacity.
ghost use Rattle.std.specs.Prelude.{◌≡◌, IfSome, Some};
ghost use Rattle.lazy_dfa.specs.Building.{dfa_of};
ghost use Rattle.streams.specs.Capacities.{without_capacity};

use lazy_dfa::dfa::{Builder, Config, DFA};
use std::alloc::Global;

/// What makes an automaton with these options.
#[tactic(auto, using(growing_regex::proofs::ForCallers::set_once))]
fn builder_with(options: Config) -> Builder
    ensures { result ≡ options }
{
    let mut builder = DFA::builder();
    builder.configure(options);
    builder
}

/// The automaton with a cache of this capacity in bytes, if memory suffices. Its NFA is copied, so nothing is compiled.
pub(crate) fn resized(alloc: Global, dfa: &DFA, capacity: usize) -> Option<DFA>
    requires { dfa.now ≡ dfa_of dfa.now.nfa dfa.now.options }
    ensures alike { IfSome result (λ e. without_capacity dfa.now ≡ without_capacity e) }
    ensures capacity { IfSome result (λ e. e.options.cache_capacity ≡ Some capacity) }
{
    let Ok(nfa) = dfa.get_nfa().try_clone(alloc) else {
        return None;
    };
    let builder = builder_with(dfa.get_config().cache_capacity(capacity));
    match builder.build_from_nfa(nfa) {
        Ok(copy) => Some(copy),
        Err(_) => None,
    }
}
