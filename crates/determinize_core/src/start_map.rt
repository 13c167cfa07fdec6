ghost use Rattle.std.specs.Prelude.{◌≡◌, Some, length};
ghost use Rattle.look_core.specs.Terminators.{Terminator};
ghost use Rattle.determinize_core.specs.Starts.{start_by, start_of, start_by_table, IsStartTable};

use crate::start::Start;
use look_core::{LineTerm, LookMatcher, WordClass};
use search_core::utf8::is_word_byte;
use std::marker::Model;

/// The start of each byte, as `regex_automata::util::start::StartByteMap`. A contract sees it as the list
/// of the starts.
#[derive(Clone, Copy, Debug)]
pub struct StartByteMap {
    map: [Start; 256],
}

impl Model for StartByteMap {
    ghost use Rattle.std.specs.Prelude.{List};
    ghost use Rattle.determinize_core.specs.declared.start.Start.{Start as TheStart};

    ghost Value = { List TheStart };

    ghost view = { λ m. m.map };

    ghost inverse = { λ v. record { map = v } };
}

impl StartByteMap {
    /// The start of each byte if lines end as the matcher says, as `StartByteMap::new`.
    pub fn new<W: WordClass>(matcher: &LookMatcher<W>) -> StartByteMap
        ensures len { length result ≡ 256 }
        ensures table { IsStartTable matcher.now.terminator result }
    {
        let terminator = matcher.get_line_terminator();
        let mut map = [Start::NonWordByte; 256];
        for byte in 0..256 {
            map[byte] = start_of_byte(terminator, byte as u8);
        }
        StartByteMap { map }
    }

    /// The start if this byte comes before the offset, as `StartByteMap::get`.
    #[inline]
    pub fn get(&self, byte: u8) -> Start
        ensures value { result ≡ start_by_table self.now byte }
        ensures start { (t : Terminator) → IsStartTable t self.now → result ≡ start_of t (Some byte) }
    {
        self.map[usize::from(byte)]
    }
}

/// The start if this byte comes before the offset, and lines end at the terminator.
pub(crate) fn start_of_byte(terminator: LineTerm, byte: u8) -> Start
    ensures { result ≡ start_of terminator (Some byte) }
{
    if byte == b'\n' {
        Start::LineLF
    } else if byte == b'\r' {
        Start::LineCR
    } else {
        start_by(terminator.contains(byte), is_word_byte(byte))
    }
}

/// The start of another byte, which ends lines or not and is a word byte or not.
fn start_by(ends_line: bool, is_word: bool) -> Start
    ensures { result ≡ start_by ends_line is_word }
{
    match (ends_line, is_word) {
        (true, true) => Start::CustomWordLineTerminator,
        (true, false) => Start::CustomLineTerminator,
        (false, true) => Start::WordByte,
        (false, false) => Start::NonWordByte,
    }
}
