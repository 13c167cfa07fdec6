//! Searching lines: which lines of an input patterns select, and what is printed for them.
//!
//! [`OutputOptions`] says what is asked for. `specs/Report.antt` defines what is printed, over the lines that `Lines.antt` defines. `Selecting.antt`
//! defines which of them are selected, and `Printing.antt` how they are printed. `Patterns.antt` defines which lines patterns match, and
//! `Bounded.antt` what whole lines and whole words are. [`laws`] has laws about these definitions.
//!
//! A [`Searcher`] reports whether a line has a match.
#![tactic(auto)]

mod blocks;
mod colors;
mod context_printer;
mod heading;
mod items;
mod line;
mod line_buffer;
mod long_lines;
mod looking;
mod output_options;
mod passing;
mod previews;
mod printing;
mod progress;
mod reading;
mod reporter;
mod role;
mod separator_state;
mod texts;

pub use blocks::report_one;
pub use colors::Colors;
pub use context_printer::{ContextPrinter, Waiting, first_of};
pub use heading::{Headed, heading_of, report_headed};
pub use line::Line;
pub use looking::{needs_spans, searched};
pub use output_options::{Context, GroupSeparator, OutputOptions, Print};
pub use progress::{Progress, Task};
pub use reading::{count_of, flush, is_task_over, report_input, write_end, write_out};
pub use reporter::{
    Reporter, counted_as, counts_matches, is_selected, may_select, prints_lines, report_end,
    report_flagged,
};
pub use role::Role;
pub use separator_state::SeparatorState;
