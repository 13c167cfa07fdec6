//! What the crates of a search share at the lowest level: the indices that name states and patterns, UTF-8,
//! byte classes and sets of bytes.
//!
//! The definitions are in `specs/`; their laws are public functions without code in [`index_laws`],
//! [`utf8_laws`] and [`class_laws`].
//! ```rust
//! pub fn second_pattern() -> Result<PatternID, PatternIDError> {
//!     PatternID::new(1)
//! }
//! ```
#![tactic(auto)]

mod byte_set;
mod byte_set_iter;
mod class_iter;
pub mod class_laws;
mod class_set;
mod classes;
pub mod index_laws;
mod non_max;
mod pattern_id;
mod small_index;
mod state_id;
mod unit;
pub mod utf8;
pub mod utf8_laws;

pub use byte_set::ByteSet;
pub use byte_set_iter::{ByteSetIter, ByteSetRangeIter};
pub use class_iter::{ByteClassElements, ByteClassIter, ByteClassRepresentatives};
pub use class_set::ByteClassSet;
pub use classes::ByteClasses;
pub use non_max::NonMaxUsize;
pub use pattern_id::{PatternID, PatternIDError};
pub use small_index::{SmallIndex, SmallIndexError};
pub use state_id::{StateID, StateIDError};
pub use unit::Unit;
