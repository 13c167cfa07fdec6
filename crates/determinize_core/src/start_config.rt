ghost use Rattle.std.specs.Prelude.{◌≡◌, None};
ghost use Rattle.search_core.specs.Text.{byte_at, byte_before};
ghost use Rattle.search_types.specs.declared.anchored.Anchored.TheVariants.{No};

use search_types::{Anchored, Input};
use std::marker::Model;

/// What a search gets as its start, as `regex_automata::util::start::Config`: the byte before the offset where it starts, if there is one,
/// and the mode.
#[derive(Clone, Copy, Debug)]
pub struct Config {
    look_behind: Option<u8>,
    anchored: Anchored,
}

impl Model for Config {
    ghost use Rattle.determinize_core.specs.Starts.{StartValue};

    ghost Value = { StartValue };

    ghost view = { λ c. record { look_behind = c.look_behind; anchored = c.anchored } };

    ghost inverse = { λ v. record { look_behind = v.look_behind; anchored = v.anchored } };
}

impl Config {
    /// A search that isn't anchored and starts at the haystack's edge, as `Config::new`.
    pub fn new() -> Config
        ensures { result ≡ record { look_behind = None; anchored = No } }
    {
        Config {
            look_behind: None,
            anchored: Anchored::No,
        }
    }

    /// The start of a forward search, as `Config::from_input_forward`. The byte is the one before the span, whether or not a search may see
    /// it. There is none if the span starts at 0.
    pub fn from_input_forward(input: &Input<'_>) -> Config
        ensures { result ≡ record { look_behind = byte_before input.now.haystack input.now.start; anchored = input.now.anchored } }
    {
        Config {
            look_behind: byte_in_front(input.haystack(), input.start()),
            anchored: input.get_anchored(),
        }
    }

    /// The start of a search in reverse, as `Config::from_input_reverse`. The byte is the one after the span. There is none if the span
    /// ends with the haystack.
    pub fn from_input_reverse(input: &Input<'_>) -> Config
        ensures { result ≡ record { look_behind = byte_at input.now.haystack input.now.end; anchored = input.now.anchored } }
    {
        Config {
            look_behind: input.haystack().get(input.end()).copied(),
            anchored: input.get_anchored(),
        }
    }

    /// This start with the given byte before it, or at the haystack's edge if that is `None`, as `Config::look_behind`.
    pub fn look_behind(self, byte: Option<u8>) -> Config
        ensures { result ≡ record self { look_behind = byte } }
    {
        Config {
            look_behind: byte,
            ..self
        }
    }

    /// This start in the given mode, as `Config::anchored`.
    pub fn anchored(self, mode: Anchored) -> Config
        ensures { result ≡ record self { anchored = mode } }
    {
        Config {
            anchored: mode,
            ..self
        }
    }

    /// The byte before the offset, as `Config::get_look_behind`; `None` at the haystack's edge.
    pub fn get_look_behind(self) -> Option<u8>
        ensures { result ≡ self.look_behind }
    {
        self.look_behind
    }

    /// The mode, as `Config::get_anchored`.
    pub fn get_anchored(self) -> Anchored
        ensures { result ≡ self.anchored }
    {
        self.anchored
    }
}

impl Default for Config {
    /// A search that isn't anchored and starts at the haystack's edge, as [`Config::new`].
    fn default() -> Config
        ensures { result ≡ record { look_behind = None; anchored = No } }
    {
        Config::new()
    }
}

/// The byte before an offset; `None` at offset 0, and above the offset after the last byte.
fn byte_in_front(haystack: &[u8], at: usize) -> Option<u8>
    ensures { result ≡ byte_before haystack.now at }
{
    if at == 0 {
        return None;
    }
    haystack.get(at - 1).copied()
}
