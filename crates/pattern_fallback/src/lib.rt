//! Searches for several parsed patterns by the toolchain's own engines, which never give up. They answer if automata can't.
//!
//! [`parse_all`] parses patterns, and [`Alternatives`] compiles them into one program. A searcher of the program finds whether there is a
//! match ([`has_one`]), the match from an offset on ([`find_from`]), and all of them ([`all_matches`]). [`number_at`] returns which of the
//! patterns a match is of. What is found is what the toolchain's matcher finds for any pattern with the same captures, so the contracts
//! of searches don't speak of patterns as text.
#![tactic(auto)]

mod numbers;
mod parsing;
mod programs;
mod searching;

pub use numbers::number_at;
pub use parsing::{Alternatives, parse_all};
pub use programs::{ProgramError, SIZE_LIMIT};
pub use searching::{all_matches, ends_at, find_from, has_one};
