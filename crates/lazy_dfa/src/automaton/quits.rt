//! Quit bytes: the bytes at which searches give up.
ghost use Rattle.std.specs.Prelude.{◌≡◌};
ghost use Rattle.lazy_dfa.specs.ConfigValue.{word_boundary_of, by_hand};
ghost use Rattle.lazy_dfa.specs.Quits.{with_high_bytes, has_high_bytes, has_unicode_word, quit_bytes, is_unsupported};

use crate::automaton::config::Config;
use nfa_core::NFA;
use search_core::ByteSet;

/// The set with all bytes above 0x7F added.
fn with_high_bytes(set: &ByteSet) -> ByteSet
    ensures { result ≡ with_high_bytes set.now }
{
    let mut quits = ByteSet::empty();
    for byte in 0..256usize {
        if set.contains(byte as u8) || byte >= 0x80 {
            quits.add(byte as u8);
        }
    }
    quits
}

/// Whether all bytes above 0x7F are in the set.
fn has_high_bytes(set: &ByteSet) -> bool
    ensures { result ≡ has_high_bytes set.now }
{
    for byte in 0x80..256usize {
        if !set.contains(byte as u8) {
            return false;
        }
    }
    true
}

/// Whether a state of the automaton is a Unicode word boundary.
fn has_unicode_word(nfa: &NFA) -> bool
    ensures { result ≡ has_unicode_word nfa.now.automaton }
{
    nfa.look_set_any().contains_word_unicode()
}

/// The bytes at which searches over the automaton give up.
pub(crate) fn quit_bytes(nfa: &NFA, config: &Config) -> ByteSet
    ensures { result ≡ quit_bytes nfa.now.automaton (word_boundary_of config.now) (by_hand config.now) }
{
    let by_hand = config.quits();
    if has_unicode_word(nfa) && config.get_unicode_word_boundary() {
        return with_high_bytes(&by_hand);
    }
    by_hand
}

/// Whether the automaton can't be searched with these options.
pub(crate) fn is_unsupported(nfa: &NFA, config: &Config) -> bool
    ensures { result ≡ is_unsupported nfa.now.automaton (word_boundary_of config.now) (by_hand config.now) }
{
    has_unicode_word(nfa) && !config.get_unicode_word_boundary() && !has_high_bytes(&config.quits())
}
