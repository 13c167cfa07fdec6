//! The states of a string that is read byte by byte.
ghost use Rattle.std.specs.Prelude.{◌≡◌, ◌<◌, ◌*◌, length, MatchResult, IfOk, IfErr};
ghost use Rattle.nfa_core.specs.BuilderStates.{range_draft};
ghost use Rattle.thompson_nfa.specs.Added.{AddsDraft};
ghost use Rattle.thompson_nfa.specs.LiteralTexts.{AddsText};
ghost use Rattle.thompson_nfa.specs.Refusals.{Stays, Quits, ExceedsLimit};

use nfa_core::{BuildError, Builder, Transition};
use search_core::StateID;

/// Adds a state that reads the byte and leads on to the state `next`.
#[tactic(auto, using(crate::proofs::Steps::StepLemmas::added_of, crate::proofs::Steps::StepLemmas::add_refused))]
fn add_byte(builder: &mut Builder, byte: u8, next: StateID) -> Result<StateID, BuildError>
    ensures { MatchResult result (λ id. AddsDraft builder.old builder.new id (range_draft byte byte next) builder.old.groups)
        (λ e. Stays builder.old builder.new 1 24 e) }
{
    builder.add_range(Transition {
        start: byte,
        end: byte,
        next,
    })
}

/// Adds a state for each byte of the text. Each of them leads to the next, and the last one to the state
/// `next`.
pub(crate) fn add_text(
    builder: &mut Builder,
    text: &[u8],
    next: StateID,
) -> Result<StateID, BuildError>
    requires { next < length builder.old.drafts }
    ensures added { IfOk result (λ id. AddsText builder.old builder.new next text.now id) }
    ensures refused { IfErr result (λ e. Quits builder.old builder.new (length text.now) e) }
    ensures passed { IfErr result (λ e. ExceedsLimit builder.old (24 * length text.now) e) }
{
    let mut id = next;
    for i in (0..text.len()).rev() {
        id = add_byte(builder, text[i], id)?;
    }
    Ok(id)
}
