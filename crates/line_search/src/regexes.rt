//! Regexes of one tree for any bytes.
ghost use Rattle.std.specs.Prelude.{◌≡◌, ◌∷◌, [], IfErr, IfOk};
ghost use Rattle.hir_regex.specs.Built.{IsBuilt, FailsBuild};
ghost use Rattle.line_search.specs.Searchers.{line_settings};

use growing_regex::{GrowingRegex, LARGEST, shared};
use hir_core::Hir;
use hir_regex::{Settings, build, program_settings};
use lazy_dfa::BuildError;
use regex_pair::regex::Regex;
use std::alloc::Global;
use std::slice;
use std::sync::Arc;

/// The greatest size of each NFA in bytes, as they are counted: 60 MiB. With it no pattern below 4 KB takes more than 300 MB.
const SIZE_LIMIT: usize = 60 << 20;

/// Settings that search any bytes, as the program of the notation does, with this limit on the size of patterns.
fn settings() -> Settings
    ensures { result ≡ line_settings }
{
    let settings = program_settings(Settings {
        utf8: false,
        ..Settings::new()
    });
    Settings {
        size_limit: Some(SIZE_LIMIT),
        ..settings
    }
}

/// The regex of this tree, with caches of the default capacity.
pub(crate) fn regex_of(alloc: Global, tree: &Hir) -> Result<Arc<Regex>, BuildError>
    ensures built { IfOk result (λ re. IsBuilt (tree.now ∷ []) line_settings re.value) }
    ensures refused { IfErr result (λ e. FailsBuild (tree.now ∷ []) line_settings e) }
{
    let regex = match build(alloc, slice::from_ref(tree), &settings()) {
        Ok(regex) => regex,
        Err(e) => return Err(e),
    };
    match shared(alloc, regex) {
        Ok(regex) => Ok(regex),
        Err(_) => Err(BuildError::NoMemory),
    }
}

/// A search of lines for this tree, whose caches are enlarged if that pays.
pub(crate) fn search_of(alloc: Global, tree: &Hir) -> Result<GrowingRegex, BuildError>
    ensures built { IfOk result (λ g. IsBuilt (tree.now ∷ []) line_settings g.pair) }
    ensures refused { IfErr result (λ e. FailsBuild (tree.now ∷ []) line_settings e) }
{
    let regex = match regex_of(alloc, tree) {
        Ok(regex) => regex,
        Err(e) => return Err(e),
    };
    match GrowingRegex::new(alloc, regex, LARGEST) {
        Ok(search) => Ok(search),
        Err(_) => Err(BuildError::NoMemory),
    }
}
