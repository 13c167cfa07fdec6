ghost use Rattle.std.specs.Prelude.{◌≡◌, ◌++◌, ◌∷◌, [], codes, IfErr, IfOk, OnOk, map, string_bytes};
ghost use Rattle.hirhead.specs.Queries.{IsQueryOf, IsQueryRejected};
ghost use Rattle.hirhead.specs.HasLines.{AllFit, AreUnfit};
ghost use Rattle.hirhead.specs.PatternOptions.{config_of};
ghost use Rattle.hirhead.specs.Lines.{query_text, lines_text, line_text, setting_lines};

use crate::laws::{queries_are_read, queries_match_as_their_patterns};
use crate::lines::{Unfit, UnfitTree, report_patterns, report_word, report_words};
use crate::pattern_options::PatternOptions;
use hir_core::Hir;
use pattern_search::parse_all;
use pattern_text::ParseError;
use std::alloc::{AllocError, Global};

/// Why patterns have no query.
#[derive(Clone, Copy, Debug, PartialEq, Eq)]
pub struct QueryError {
    /// The number of the text, counted from 0.
    pub number: usize,
    /// What is wrong with it.
    pub cause: Cause,
}

/// What is wrong with a text.
#[derive(Clone, Copy, Debug, PartialEq, Eq)]
pub enum Cause {
    /// It is no pattern, at the offsets that the error has, or memory ran out.
    Text(ParseError),
    /// Its tree has no lines, or memory ran out.
    Lines(Unfit),
}

impl From<AllocError> for UnfitTree {
    ghost use Rattle.std.specs.Prelude.{◌≡◌};
    ghost use Rattle.hirhead.specs.declared.lines.Unfit.TheVariants.{NoMemory};

    ghost from_gives = { λ _ e. e.unfit ≡ NoMemory };

    fn from(_e: AllocError) -> UnfitTree {
        UnfitTree {
            number: 0,
            unfit: Unfit::NoMemory,
        }
    }
}

fn report_settings(text: &mut String, utf8: bool) -> Result<(), AllocError>
    ensures { OnOk result (string_bytes text.new ≡ string_bytes text.old ++ lines_text (setting_lines utf8)) }
{
    if !utf8 {
        report_words(text, "utf8", "off")?;
    }
    Ok(())
}

fn report_find(text: &mut String) -> Result<(), AllocError>
    ensures { OnOk result (string_bytes text.new ≡ string_bytes text.old ++ line_text (codes "find" ∷ [])) }
{
    report_word(text, "find")?;
    Ok(())
}

/// The query of these trees, one pattern for each and in their order, with UTF-8 mode on or off.
pub fn write_query(alloc: Global, trees: &[Hir], utf8: bool) -> Result<String, UnfitTree>
    ensures head { IfOk result (λ text. string_bytes text ≡ query_text utf8 trees.now) }
    ensures fits { IfOk result (λ _. AllFit 250 trees.now) }
    ensures refused { IfErr result (λ e. AreUnfit 250 trees.now e.number e.unfit) }
{
    let mut text = String::new(alloc);
    report_settings(&mut text, utf8)?;
    report_patterns(alloc, &mut text, trees)?;
    report_find(&mut text)?;
    Ok(text)
}

/// The query of patterns in the syntax of the crate `regex`, one pattern for each and in their order. The call returns an error
/// if a text is no pattern, or if the tree of one has no lines in the notation. The error has the number of the text.
pub fn query_for(alloc: Global, texts: &[&str], how: &PatternOptions) -> Result<String, QueryError>
    ensures head { IfOk result (λ text. IsQueryOf (config_of how.now) (map (λ t. t.now) texts.now) (string_bytes text)) }
    ensures refused { IfErr result (λ e. IsQueryRejected (config_of how.now) (map (λ t. t.now) texts.now) e.number e.cause) }
{
    queries_are_read();
    queries_match_as_their_patterns();
    let config = how.config();
    let trees = match parse_all(alloc, texts, &config) {
        Ok(trees) => trees,
        Err(error) => {
            return Err(QueryError {
                number: error.number,
                cause: Cause::Text(error.error),
            });
        }
    };
    match write_query(alloc, &trees, how.utf8) {
        Ok(text) => Ok(text),
        Err(error) => Err(QueryError {
            number: error.number,
            cause: Cause::Lines(error.unfit),
        }),
    }
}
