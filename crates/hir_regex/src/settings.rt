ghost use Rattle.std.specs.Prelude.{◌≡◌};
ghost use Rattle.hir_regex.specs.Built.{default_settings, program_settings};

use lazy_dfa::dfa::Config;
use look_core::LineTerm;
use search_types::MatchKind;

/// How a regex is made of trees, and how its caches behave.
#[derive(Clone, Copy)]
pub struct Settings {
    /// Whether matches start and end only at offsets that split no character. If so, the haystacks that are searched have to be
    /// UTF-8, and the trees as well.
    pub utf8: bool,
    /// What ends a line, for the looks [`StartLF`](look_core::Look::StartLF) and [`EndLF`](look_core::Look::EndLF).
    pub line_terminator: LineTerm,
    /// Whether the automaton that finds starts shares states of classes of scalars, which takes longer to compile.
    pub shrink: bool,
    /// How many bytes, as they are counted, each of both NFAs may take; `None` means any number.
    pub size_limit: Option<usize>,
    /// The options of both lazy automata. A regex finds what trees define if its kind is
    /// [`LeftmostFirst`](MatchKind::LeftmostFirst), as it is if none is set.
    pub dfa: Config,
}

impl Settings {
    /// UTF-8 mode, lines that end at `\n`, no shrinking, no limit, and no option of automata set.
    pub fn new() -> Settings
        ensures { result ≡ default_settings }
    {
        Settings {
            utf8: true,
            line_terminator: LineTerm::one(b'\n'),
            shrink: false,
            size_limit: None,
            dfa: Config::new(),
        }
    }
}

impl Default for Settings {
    ghost use Rattle.std.specs.Prelude.{◌≡◌};
    ghost use Rattle.hir_regex.specs.Built.{default_settings};

    ghost is_default = { λ s. s ≡ default_settings };

    fn default() -> Settings {
        Settings::new()
    }
}

/// The greatest size of each NFA that the program makes, in bytes as they are counted.
const SIZE_LIMIT: usize = 1 << 26;

/// What the program sets in addition to the lines of a query. No NFA takes more than 2^26 bytes, as they are counted. The match
/// is the leftmost-first one. A capacity that is too small is raised. Words by characters are supported as far as a search comes
/// without bytes above 7F. There is no limit on clears.
///
/// A regex of a query's patterns that is built with these settings is the one over which `run` of `hirscan` searches.
pub fn program_settings(said: Settings) -> Settings
    ensures { result ≡ program_settings said }
{
    Settings {
        size_limit: Some(SIZE_LIMIT),
        dfa: said
            .dfa
            .match_kind(MatchKind::LeftmostFirst)
            .unicode_word_boundary(true)
            .skip_cache_capacity_check(true)
            .minimum_cache_clear_count(None),
        ..said
    }
}
