//! Laws of the constants of indices. A clause can't name a constant whose type has a model, so the functions
//! return those.
//! ```rust
//! pub fn last_pattern() -> PatternID
//!     ensures { result ≡ greatest_index }
//! {
//!     pattern_id_constants().1
//! }
//! ```
ghost use Rattle.std.specs.Prelude.{◌≡◌, ◌+◌};
ghost use Rattle.search_core.specs.Index.{greatest_index};

use crate::pattern_id::PatternID;
use crate::small_index::SmallIndex;
use crate::state_id::StateID;

/// The least and the greatest index. The limit is one more than the greatest, and an index takes four bytes.
pub fn small_index_constants() -> (SmallIndex, SmallIndex)
    ensures ends { result ≡ (0, greatest_index) }
    ensures limit { SmallIndex.LIMIT ≡ greatest_index + 1 }
    ensures size { SmallIndex.SIZE ≡ 4 }
{
    (SmallIndex::ZERO, SmallIndex::MAX)
}

/// The least and the greatest number of a pattern. The limit is one more than the greatest, and a number
/// takes four bytes.
pub fn pattern_id_constants() -> (PatternID, PatternID)
    ensures ends { result ≡ (0, greatest_index) }
    ensures limit { PatternID.LIMIT ≡ greatest_index + 1 }
    ensures size { PatternID.SIZE ≡ 4 }
{
    (PatternID::ZERO, PatternID::MAX)
}

/// The least and the greatest number of a state. The limit is one more than the greatest, and a number takes
/// four bytes.
pub fn state_id_constants() -> (StateID, StateID)
    ensures ends { result ≡ (0, greatest_index) }
    ensures limit { StateID.LIMIT ≡ greatest_index + 1 }
    ensures size { StateID.SIZE ≡ 4 }
{
    (StateID::ZERO, StateID::MAX)
}
