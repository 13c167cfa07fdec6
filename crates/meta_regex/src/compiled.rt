//! A regex of several patterns.
ghost use Rattle.std.specs.Prelude.{◌≡◌, IfErr, IfOk, IfSome, length, map, string_bytes};
ghost use Rattle.search_types.specs.declared.match_kind.MatchKind.TheVariants.{LeftmostFirst};
ghost use Rattle.pattern_search.specs.Texts.{AllMean};
ghost use Rattle.meta_regex.specs.Regexes.{AreReportedOf, IsMadeOf, IsNewError, config_by};
ghost use Rattle.meta_regex.specs.Starts.{AreStartsOf};
ghost use Rattle.meta_regex.specs.Ways.{HasWay};

use crate::building::build_pair;
use crate::errors::NewError;
use crate::literal_starts::LiteralStarts;
use crate::options::Options;
use crate::short_loops::all_have_short_loops;
use crate::texts::owned;
use crate::ways::Way;
use crate::wordless::if_they_look_for_words;
use growing_regex::shared;
use hir_core::Hir;
use std::alloc::{AllocError, Global};
use std::marker::Model;
use std::sync::Arc;

/// How many skipped bytes make up for a search that begins at a literal.
const CANDIDATE: usize = 128;

/// How many skipped bytes make up for a search that begins at the start of a literal's line.
const CANDIDATE_LINE: usize = 256;

/// How many skipped bytes make up for a literal at which a match is tried without automata.
const CANDIDATE_PARTS: usize = 24;

/// A regex made from patterns. Nothing in it changes, so several callers may search by it, each with a [`Cache`](crate::Cache) of its own.
///
/// Automata search the haystacks. In some haystacks they give up at a byte, for example if `\b` is tried next to a byte that isn't ASCII.
/// Such haystacks are searched by programs of the toolchain for the same patterns, which a cache makes when the first one comes.
#[derive(Drop)]
pub struct Regex {
    pair: Arc<regex_pair::regex::Regex>,
    texts: Vec<String>,
    /// The trees of the patterns, if automata can give up on these.
    trees: Option<Vec<Hir>>,
    options: Options,
    loops: bool,
    /// What literals say of where matches start.
    starts: LiteralStarts,
    /// Whether a try to match at one offset is expected to read few bytes.
    short: bool,
    /// How matches are found.
    way: Way,
}

impl Model for Regex {
    ghost use Rattle.std.specs.Prelude.{IfSome, map, string_bytes};
    ghost use Rattle.search_types.specs.declared.match_kind.MatchKind.TheVariants.{LeftmostFirst};
    ghost use Rattle.pattern_search.specs.Texts.{AllMean};
    ghost use Rattle.meta_regex.specs.Options.{config_of};
    ghost use Rattle.meta_regex.specs.Regexes.{RegexValue, AreReportedOf};
    ghost use Rattle.meta_regex.specs.Starts.{AreStartsOf};
    ghost use Rattle.meta_regex.specs.Ways.{HasWay};

    ghost Value = { RegexValue };

    ghost view = { λ r. record { options = r.options; texts = map string_bytes r.texts.items; loops = r.loops } };

    ghost invariant = { λ r. AreReportedOf (config_of r.options) (map string_bytes r.texts.items) LeftmostFirst r.loops r.pair.value
        × AreStartsOf (config_of r.options) (map string_bytes r.texts.items) r.starts
        × HasWay (config_of r.options) (map string_bytes r.texts.items) r.loops r.starts r.way
        × IfSome r.trees (λ xs. AllMean (config_of r.options) (map string_bytes r.texts.items) xs.items) };
}

impl Regex {
    /// Makes a regex from patterns. Of matches that start at the same offset, the one of the earlier pattern is preferred.
    pub fn new(alloc: Global, texts: &[&str], options: &Options) -> Result<Regex, NewError>
        ensures made { IfOk result (IsMadeOf options.now (map (λ t. t.now) texts.now)) }
        ensures refused { IfErr result (IsNewError options.now (map (λ t. t.now) texts.now)) }
    {
        let built = match build_pair(alloc, texts, options) {
            Ok(built) => built,
            Err(e) => return Err(e),
        };
        let copies = match owned(alloc, texts) {
            Ok(copies) => copies,
            Err(_) => return Err(NewError::NoMemory),
        };
        let pair = match shared(alloc, built.pair) {
            Ok(pair) => pair,
            Err(_) => return Err(NewError::NoMemory),
        };
        let short = all_have_short_loops(&built.trees);
        let starts = LiteralStarts::of(alloc, &built.trees, short);
        let way = Way::of(alloc, &built.trees, &starts, short);
        Ok(Regex {
            pair,
            texts: copies,
            trees: if_they_look_for_words(built.trees),
            options: *options,
            loops: built.loops,
            starts,
            short,
            way,
        })
    }

    /// The number of its patterns.
    pub fn pattern_count(&self) -> usize
        ensures { result ≡ length self.now.texts }
    {
        self.texts.as_slice().len()
    }

    /// Its patterns.
    pub(crate) fn texts(&self) -> &[String]
        ensures { map string_bytes result.now ≡ self.now.texts }
    {
        &self.texts
    }

    /// The trees of its patterns, if automata can give up on these.
    pub(crate) fn trees(&self) -> Option<&[Hir]>
        ensures { IfSome result (λ xs. AllMean (config_by self.now) self.now.texts xs.now) }
    {
        match &self.trees {
            Some(trees) => Some(trees.as_slice()),
            None => None,
        }
    }

    /// The options with which it was made.
    pub fn options(&self) -> Options
        ensures { result ≡ self.now.options }
    {
        self.options
    }

    /// Whether the body of every unbounded repetition in its patterns consumes at least one byte.
    pub fn loops_consume(&self) -> bool
        ensures { result ≡ self.now.loops }
    {
        self.loops
    }

    /// The automata that search together, to be shared.
    pub(crate) fn pair(&self) -> Result<Arc<regex_pair::regex::Regex>, AllocError>
        ensures { IfOk result (λ pair. AreReportedOf (config_by self.now) self.now.texts LeftmostFirst self.now.loops pair.value) }
    {
        let pair = Arc::try_clone(&self.pair)?;
        Ok(pair)
    }

    /// What literals say of where matches start.
    pub(crate) fn starts(&self) -> &LiteralStarts
        ensures { AreStartsOf (config_by self.now) self.now.texts result.now }
    {
        &self.starts
    }

    /// How matches are found, and what literals say of where they start.
    pub(crate) fn way(&self) -> (&Way, &LiteralStarts)
        ensures { HasWay (config_by self.now) self.now.texts self.now.loops result.1.now result.0.now }
    {
        (&self.way, &self.starts)
    }

    /// Whether each search needs automata.
    #[inline(always)]
    pub(crate) fn needs_automata(&self) -> bool {
        match self.way {
            Way::Automata => true,
            Way::Run(_) | Way::Sequence(_) => false,
        }
    }

    /// Whether anything is known of where matches start.
    pub(crate) fn knows_starts(&self) -> bool {
        match self.starts {
            LiteralStarts::Unknown => false,
            LiteralStarts::Begins(_) | LiteralStarts::InLine(_) | LiteralStarts::FirstByte(_) =>
                true,
        }
    }

    /// Whether matches are known to begin with one of some literals.
    pub(crate) fn begins_with_literal(&self) -> bool {
        match self.starts {
            LiteralStarts::Begins(_) => true,
            LiteralStarts::FirstByte(_) | LiteralStarts::InLine(_) | LiteralStarts::Unknown =>
                false,
        }
    }

    /// Whether the only pattern is literals and rounds of classes, one after the other.
    pub(crate) fn is_sequence(&self) -> bool {
        match self.way {
            Way::Sequence(_) => true,
            Way::Automata | Way::Run(_) => false,
        }
    }

    /// How many skipped bytes make up for the search that begins at a literal. Where it begins at the start of a line, it costs more, and
    /// where it needs no automata, less.
    pub(crate) fn candidate_price(&self) -> usize {
        if !self.needs_automata() {
            return CANDIDATE_PARTS;
        }
        match self.starts {
            LiteralStarts::InLine(_) => CANDIDATE_LINE,
            LiteralStarts::Begins(_) | LiteralStarts::FirstByte(_) | LiteralStarts::Unknown =>
                CANDIDATE,
        }
    }

    /// Whether offsets at which a match may start are tried one by one: matches begin with literals or common bytes, and a try is expected to
    /// read few bytes.
    pub(crate) fn tries_starts(&self) -> bool {
        if !self.short {
            return false;
        }
        match self.starts {
            LiteralStarts::Begins(_) | LiteralStarts::FirstByte(_) => true,
            LiteralStarts::InLine(_) | LiteralStarts::Unknown => false,
        }
    }
}
