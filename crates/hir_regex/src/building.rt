//! Regexes of trees.
ghost use Rattle.std.specs.Prelude.{◌≡◌, IfOk, IfErr, false};
ghost use Rattle.thompson_nfa.specs.Compilations.{IsCompiled};
ghost use Rattle.hir_regex.specs.Built.{IsBuilt, FailsBuild, HasRoom, FindsFirst, compile_options, quit_bytes_for, are_unsupported};
ghost use Rattle.hir_regex.specs.Regexes.{IsRegexOf};

use crate::settings::Settings;
use hir_core::Hir;
use lazy_dfa::{BuildError, dfa};
use look_core::LookMatcher;
use nfa_core::NFA;
use regex_pair::regex::{Builder, Regex};
use std::alloc::Global;
use thompson_nfa::{Compiler, Config, WhichCaptures};

/// The options of one of both compiles.
fn compile_config(settings: &Settings, reverse: bool) -> Config
    ensures { result ≡ compile_options reverse settings.now }
{
    let mut looks = LookMatcher::default();
    looks.set_line_terminator(settings.line_terminator);
    Config::new()
        .utf8(settings.utf8)
        .reverse(reverse)
        .nfa_size_limit(settings.size_limit)
        .shrink(settings.shrink)
        .which_captures(WhichCaptures::None)
        .look_matcher(looks)
}

/// Compiles one of both automata. An error for a failed allocation is reported as that, and any other error as it is.
fn compile(
    alloc: Global,
    exprs: &[Hir],
    settings: &Settings,
    reverse: bool,
) -> Result<NFA, BuildError>
    ensures compiled { IfOk result (λ n. IsCompiled (compile_options reverse settings.now) exprs.now n) }
    ensures refused { IfErr result (λ e. FailsBuild exprs.now settings.now e) }
{
    let mut compiler = Compiler::new(alloc);
    compiler.configure(compile_config(settings, reverse));
    let built = compiler.build_many_from_hir(exprs);
    drop(compiler);
    match built {
        Ok(nfa) => Ok(nfa),
        Err(err) => Err(BuildError::from(err)),
    }
}

/// What makes a regex of two automata, with these options of both.
#[tactic(auto, using(crate::proofs::BuiltLemmas::set_once))]
fn builder_with(options: dfa::Config) -> Builder
    ensures { result ≡ options }
{
    let mut builder = Regex::builder();
    builder.dfa(options);
    builder
}

/// Both automata of the trees, as one regex.
fn build_pair(alloc: Global, exprs: &[Hir], settings: &Settings) -> Result<Regex, BuildError>
    ensures built { IfOk result (λ p. IsBuilt exprs.now settings.now p) }
    ensures refused { IfErr result (λ e. FailsBuild exprs.now settings.now e) }
{
    let forward = match compile(alloc, exprs, settings, false) {
        Ok(nfa) => nfa,
        Err(e) => return Err(e),
    };
    let reverse = match compile(alloc, exprs, settings, true) {
        Ok(nfa) => nfa,
        Err(e) => return Err(e),
    };
    let builder = builder_with(settings.dfa);
    let regex = match builder.build_from_nfas(forward, reverse) {
        Ok(regex) => regex,
        Err(e) => return Err(e),
    };
    regex.forward().is_made();
    regex.reverse().is_made();
    Ok(regex)
}

/// The regex that searches for these trees, each as a pattern of its own, numbered from 0. A tree's captures are left out.
///
/// If its kind is leftmost-first, a search that returns `Ok` gives the match that the trees define, whatever the settings and the
/// cache ([`headline`](crate::headline)).
///
/// The call returns the first of these errors that applies:
/// - A compile fails: there are more patterns or states than can be numbered, or more bytes of states than `size_limit`.
/// - A tree looks for words by characters, `unicode_word_boundary` is off, and bytes above 7F aren't all quit bytes.
/// - The capacity is below the least one of an automaton and isn't to be raised.
/// - An allocation fails.
pub fn build(alloc: Global, exprs: &[Hir], settings: &Settings) -> Result<Regex, BuildError>
    ensures built { IfOk result (λ p. IsBuilt exprs.now settings.now p) }
    ensures regex { IfOk result (λ p. FindsFirst settings.now → IsRegexOf exprs.now settings.now.utf8 settings.now.line_terminator p) }
    ensures quits { IfOk result (λ p. p.forward.quits ≡ quit_bytes_for exprs.now settings.now.dfa) }
    ensures supported { IfOk result (λ _. are_unsupported exprs.now settings.now.dfa ≡ false) }
    ensures roomy { IfOk result (λ p. HasRoom p.forward.nfa settings.now.dfa × HasRoom p.reverse.nfa settings.now.dfa) }
    ensures refused { IfErr result (λ e. FailsBuild exprs.now settings.now e) }
{
    match build_pair(alloc, exprs, settings) {
        Ok(regex) => Ok(regex),
        Err(e) => Err(e),
    }
}
