//! What is printed for a text in memory.
//!
//! A text is split at any byte: at line feeds, or at zero bytes. `specs/LineSpans.antt` defines its lines, and [`line_at`] returns the one
//! at an offset. [`report_records`] prints what is asked for of a text whose lines end with a given byte (`specs/Records.antt`).
//!
//! [`report_events`] prints JSON events (`specs/Events.antt`), and [`report_text_events`] those of a text whose matches may span lines
//! (`specs/TextEvents.antt`).
//!
//! [`report_text`] searches a text as a whole, so that matches may span lines. `specs/TextReports.antt` defines what is printed, and
//! `specs/Touching.antt` which lines a match touches.
#![tactic(auto)]

mod event_lines;
mod event_loop;
mod event_reports;
mod events;
mod lines;
mod records;
mod replaced_lines;
mod replaced_offsets;
mod replacing;
mod reporting;
mod selecting;
mod text_lines;
mod touched;
mod touching;
mod turns;

pub use event_reports::{report_events, report_text_events};
pub use lines::{LineSpan, line_at};
pub use records::report_records;
pub use replacing::report_text;
pub use text_lines::{SeenLine, TextPosition, first_position, next_line, position_after};
pub use touching::{
    begins_between, counts_at, first_touching, from_index, has_one, part_at, push_parts, touches_at,
};
