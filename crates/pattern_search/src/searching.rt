//! Searches of whole haystacks.
ghost use Rattle.std.specs.Prelude.{◌≡◌, ◌≤◌, length};
ghost use Rattle.pattern_search.specs.Searches.{whole_search};

use search_types::Input;

/// A search of the haystack from an offset on. A match may start at any offset from there, and look-around assertions see what precedes it.
pub fn search_from(haystack: &[u8], from: usize) -> Input<'_>
    requires { from ≤ length haystack.now }
    ensures { result ≡ whole_search haystack.now from }
{
    Input::new(haystack).range(from..haystack.len())
}
