//! A test of bytes for any set, by three tables.
//!
//! A row is the bytes that have one low half, as bits of their high halves. One table has the rows of bytes below 128, and another one
//! those of the others. The third table has the bit of each high half.
ghost use Rattle.std.specs.Prelude.{◌≡◌};
ghost use Rattle.lazy_dfa.specs.ByteTests.{in_rows};

use crate::accel::byte_tests::ByteTest;
use crate::accel::half_tables::{by_high_half, by_low_half};
use search_core::ByteSet;
use std::simd::prelude::*;

/// The bit of each high half in its row.
const BITS: [u8; 16] = [1, 2, 4, 8, 16, 32, 64, 128, 1, 2, 4, 8, 16, 32, 64, 128];

/// A byte passes if the row of its low half has the bit of its high half.
#[derive(Clone, Copy)]
pub(crate) struct RowTables {
    below: [u8; 16],
    above: [u8; 16],
}

impl RowTables {
    /// Returns the tables of a set.
    pub(crate) fn new(set: &ByteSet) -> RowTables {
        let mut tables = RowTables {
            below: [0; 16],
            above: [0; 16],
        };
        for byte in set.iter() {
            tables.add(byte);
        }
        tables
    }

    /// Adds a byte.
    fn add(&mut self, byte: u8) {
        let low = usize::from(byte % 16);
        let bit = BITS[usize::from(byte / 16)];
        if byte < 128 {
            self.below[low] |= bit;
        } else {
            self.above[low] |= bit;
        }
    }
}

impl ByteTest for RowTables {
    ghost passes = { λ s x. in_rows s.below s.above x };

    #[inline(always)]
    fn passes(&self, byte: u8) -> bool {
        let low = usize::from(byte % 16);
        let row = if byte < 128 {
            self.below[low]
        } else {
            self.above[low]
        };
        row & BITS[usize::from(byte / 16)] != 0
    }

    #[inline(always)]
    fn lanes(&self, bytes: u8x32) -> u8x32 {
        let rows = bytes.simd_lt(u8x32::splat(128)).select(
            by_low_half(&self.below, bytes),
            by_low_half(&self.above, bytes),
        );
        let marks = rows & by_high_half(&BITS, bytes);
        marks
            .simd_ne(u8x32::splat(0))
            .select(u8x32::splat(255), u8x32::splat(0))
    }
}
