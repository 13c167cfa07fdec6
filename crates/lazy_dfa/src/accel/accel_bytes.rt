//! The bytes that leave a state.
ghost use Rattle.std.specs.Prelude.{◌≡◌, ◌<◌, ℕ, IfSome};
ghost use Rattle.search_core.specs.ByteSets.{has};
ghost use Rattle.lazy_dfa.specs.AccelBytes.{leaves};

use crate::accel::byte_tests::{ByteRange, ByteTest, Either};
use crate::accel::half_tables::HalfTables;
use crate::accel::row_tables::RowTables;
use search_core::ByteSet;

/// The bytes that leave a state, in a form by which many bytes are tested at once.
#[derive(Clone, Copy)]
pub(crate) enum Leaving {
    /// No byte leaves.
    Never,
    /// These bytes leave.
    One(u8),
    Two(u8, u8),
    Three(u8, u8, u8),
    /// The bytes of one range leave.
    Range(ByteRange),
    /// The bytes of two ranges leave.
    Ranges(ByteRange, ByteRange),
    /// The bytes that pass these two tables leave.
    Halves(HalfTables),
    /// The bytes that pass these three tables leave.
    Rows(RowTables),
}

impl Leaving {
    /// The bytes of a set, in the form that is tested fastest.
    pub(crate) fn new(set: &ByteSet) -> Option<Leaving>
        ensures { IfSome result (λ t. (byte : ℕ) → byte < 256 → leaves t byte ≡ has set.now byte) }
    {
        if let Some(few) = few_bytes(set) {
            return few.checked(set);
        }
        if let Some(ranges) = few_ranges(set) {
            return ranges.checked(set);
        }
        if let Some(tables) = HalfTables::new(set) {
            return Leaving::Halves(tables).checked(set);
        }
        Leaving::Rows(RowTables::new(set)).checked(set)
    }

    /// Whether at most three bytes leave.
    pub(crate) fn are_few(&self) -> bool {
        matches!(
            self,
            Leaving::One(_) | Leaving::Two(_, _) | Leaving::Three(_, _, _)
        )
    }

    /// Whether a byte leaves.
    pub(crate) fn leaves(&self, byte: u8) -> bool
        ensures { result ≡ leaves self.now byte }
    {
        match self {
            Leaving::Never => false,
            Leaving::One(a) => byte == *a,
            Leaving::Two(a, b) => byte == *a || byte == *b,
            Leaving::Three(a, b, c) => byte == *a || byte == *b || byte == *c,
            Leaving::Range(a) => a.passes(byte),
            Leaving::Ranges(a, b) => Either(*a, *b).passes(byte),
            Leaving::Halves(tables) => tables.passes(byte),
            Leaving::Rows(tables) => tables.passes(byte),
        }
    }

    /// Returns the form if exactly the bytes of the set leave by it.
    fn checked(self, set: &ByteSet) -> Option<Leaving>
        ensures { IfSome result (λ t. (byte : ℕ) → byte < 256 → leaves t byte ≡ has set.now byte) }
    {
        for byte in 0..256usize {
            let byte = byte as u8;
            if self.leaves(byte) != set.contains(byte) {
                return None;
            }
        }
        Some(self)
    }
}

/// The bytes of a set of at most three.
fn few_bytes(set: &ByteSet) -> Option<Leaving> {
    let mut bytes = set.iter();
    let Some(a) = bytes.next() else {
        return Some(Leaving::Never);
    };
    let Some(b) = bytes.next() else {
        return Some(Leaving::One(a));
    };
    let Some(c) = bytes.next() else {
        return Some(Leaving::Two(a, b));
    };
    if bytes.next().is_some() {
        return None;
    }
    Some(Leaving::Three(a, b, c))
}

/// The ranges of a set of one or two.
fn few_ranges(set: &ByteSet) -> Option<Leaving> {
    let mut ranges = set.iter_ranges();
    let first = ByteRange::new(ranges.next()?);
    let Some(second) = ranges.next() else {
        return Some(Leaving::Range(first));
    };
    if ranges.next().is_some() {
        return None;
    }
    Some(Leaving::Ranges(first, ByteRange::new(second)))
}
