ghost use Rattle.std.specs.Prelude.{◌≡◌, ◌≤◌, List, true};
ghost use Rattle.hir_core.specs.Tree.{Tree};
ghost use Rattle.lazy_dfa.specs.Accounting.{effective_capacity};
ghost use Rattle.lazy_dfa.specs.Building.{measures_with};
ghost use Rattle.lazy_dfa.specs.ConfigValue.{capacity_of, skips_check};
ghost use Rattle.regex_pair.specs.Pairs.{AreCachesOf};
ghost use Rattle.hir_regex.specs.declared.settings.Settings.{Settings as SettingsValue};
ghost use Rattle.hir_regex.specs.Built.{IsBuilt, FindsFirst};

use hir_regex::Settings;
use hir_regex::headline::caches_stay_within_their_capacity;
use regex_pair::regex::{Cache, Regex};

/// Settings with so many bytes for each of both caches, or the least that it needs where that is more.
pub fn settings_with_room(bytes: usize) -> Settings
    ensures first { FindsFirst result }
    ensures capacity { capacity_of result.dfa ≡ bytes }
    ensures raised { skips_check result.dfa ≡ true }
{
    let settings = Settings::new();
    Settings {
        dfa: settings
            .dfa
            .cache_capacity(bytes)
            .skip_cache_capacity_check(true),
        ..settings
    }
}

/// The bytes that the cache of ends takes, as they are counted: never more than the capacity that counts.
pub fn bytes_of_ends(re: &Regex, cache: &Cache) -> usize
    requires own { AreCachesOf re.now cache.now }
    ensures within { (xs : List Tree) (s : SettingsValue) → IsBuilt xs s re.now →
        result ≤ effective_capacity (measures_with re.now.forward.nfa s.dfa) (skips_check s.dfa) (capacity_of s.dfa) }
{
    caches_stay_within_their_capacity();
    let _ = re.forward();
    cache.forward().memory_usage()
}

/// How often both caches were cleared since they were made or reset.
pub fn clears(cache: &Cache) -> usize {
    let ends = cache.forward().clear_count();
    let starts = cache.reverse().clear_count();
    ends.saturating_add(starts)
}

/// Whether caches are too small for what they are used for: they were cleared more than once for each so many bytes that were searched.
pub fn is_too_small(cache: &Cache, searched: usize, bytes: usize) -> bool {
    clears(cache).saturating_mul(bytes) > searched
}
