//! A client of patterns as text. It makes trees of several patterns and a regex of these, and lists the matches in a haystack. By
//! public contracts and public laws alone, the list is proved to have the spans that the toolchain's matcher finds for the patterns,
//! as they are read from the text. It is run on rows, whose spans were found by hand.
mod client;
mod long;
mod rows;
