//! A test of bytes by two tables: one for the low half of a byte, and one for its high half.
ghost use Rattle.std.specs.Prelude.{◌≡◌, ◌<◌, ◌%◌, ◌/◌, IfSome, map, slice_index};
ghost use Rattle.lazy_dfa.specs.ByteTests.{in_halves, IsTwice};

use crate::accel::byte_tests::ByteTest;
use search_core::ByteSet;
use std::simd::prelude::*;

/// The number of marks: a byte has a bit for each.
const MARKS: usize = 8;

/// A byte passes if the marks of its low half and of its high half have one in common.
#[derive(Clone, Copy)]
pub(crate) struct HalfTables {
    low: [u8; 16],
    high: [u8; 16],
}

impl HalfTables {
    /// Returns the tables of a set. A row is the set of low halves that go with one high half, and each kind of row has a mark.
    /// So there are tables if the rows are of at most eight kinds.
    pub(crate) fn new(set: &ByteSet) -> Option<HalfTables> {
        let mut rows = [0u16; MARKS];
        let mut tables = HalfTables {
            low: [0; 16],
            high: [0; 16],
        };
        for high in 0..16usize {
            let row = row_of(set, high);
            if row != 0 {
                let mark = mark_of(&rows, row)?;
                rows[mark] = row;
                tables.high[high] = 1 << mark;
                tables.mark_low(row, 1 << mark);
            }
        }
        Some(tables)
    }

    /// Adds these marks to the low halves of a row.
    fn mark_low(&mut self, row: u16, marks: u8) {
        for low in 0..16usize {
            if row & (1 << low) != 0 {
                self.low[low] |= marks;
            }
        }
    }
}

/// The low halves of the bytes that have this high half, as bits.
fn row_of(set: &ByteSet, high: usize) -> u16
    requires { high < 16 }
{
    let mut row = 0u16;
    for low in 0..16usize {
        if set.contains((high * 16 + low) as u8) {
            row |= 1 << low;
        }
    }
    row
}

/// The mark of a row: the one that it has, or otherwise the first that no row has.
fn mark_of(rows: &[u16; MARKS], row: u16) -> Option<usize>
    ensures { IfSome result (λ mark. mark < 8) }
{
    for mark in 0..MARKS {
        if rows[mark] == row || rows[mark] == 0 {
            return Some(mark);
        }
    }
    None
}

impl ByteTest for HalfTables {
    ghost passes = { λ s x. in_halves s.low s.high x };

    #[inline(always)]
    fn passes(&self, byte: u8) -> bool {
        self.low[usize::from(byte % 16)] & self.high[usize::from(byte / 16)] != 0
    }

    #[inline(always)]
    fn lanes(&self, bytes: u8x32) -> u8x32 {
        let marks = by_low_half(&self.low, bytes) & by_high_half(&self.high, bytes);
        marks
            .simd_ne(u8x32::splat(0))
            .select(u8x32::splat(255), u8x32::splat(0))
    }
}

/// The entries of a table for the low half of each byte.
#[inline(always)]
pub(crate) fn by_low_half(table: &[u8; 16], bytes: u8x32) -> u8x32
    ensures { result ≡ map (λ x. slice_index table.now (x % 16)) bytes }
{
    twice(table).swizzle_dyn_within::<16>(bytes & u8x32::splat(15))
}

/// The entries of a table for the high half of each byte.
#[inline(always)]
pub(crate) fn by_high_half(table: &[u8; 16], bytes: u8x32) -> u8x32
    ensures { result ≡ map (λ x. slice_index table.now (x / 16)) bytes }
{
    twice(table).swizzle_dyn_within::<16>(bytes >> u8x32::splat(4))
}

/// The table, followed by a copy of it.
#[inline(always)]
fn twice(table: &[u8; 16]) -> u8x32
    ensures { IsTwice table.now result }
{
    u8x16::from_slice(table).swizzle([
        0, 1, 2, 3, 4, 5, 6, 7, 8, 9, 10, 11, 12, 13, 14, 15, 0, 1, 2, 3, 4, 5, 6, 7, 8, 9, 10, 11,
        12, 13, 14, 15,
    ])
}
