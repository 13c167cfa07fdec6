ghost use Rattle.std.specs.Prelude.{◌≡◌, ℕ, ◌<◌, ◌≤◌, ◌↔◌, IsTrue, true, false, not, length, replicate, slice_set, IfOk, MatchResult};
ghost use Rattle.search_core.specs.Index.{greatest_index};
ghost use Rattle.search_core.specs.ByteSets.{has};
ghost use Rattle.search_types.specs.PatternSets.{member_count, members_of, Inserts, RejectsInsert};

use crate::pattern_set_iter::PatternSetIter;
use search_core::PatternID;
use std::alloc::{AllocError, Global};
use std::error::Error;
use std::fmt;
use std::marker::Model;

/// A set of patterns whose numbers are below a capacity. A contract sees it as a list with a test for
/// each pattern, as long as the capacity. As `regex_automata::PatternSet`.
#[derive(Debug, Drop)]
pub struct PatternSet {
    which: Vec<bool>,
    // How many patterns are in the set.
    len: usize,
}

impl Model for PatternSet {
    ghost use Rattle.std.specs.Prelude.{◌≡◌, ◌≤◌, ◌+◌, List, Bool, length};
    ghost use Rattle.search_core.specs.Index.{greatest_index};
    ghost use Rattle.search_types.specs.PatternSets.{member_count};

    ghost Value = { List Bool };

    ghost view = { λ s. s.which.items };

    ghost invariant = { λ s. (s.len ≡ member_count s.which.items) × (length s.which.items ≤ greatest_index + 1) };
}

impl PatternSet {
    /// An empty set with room for the patterns below a capacity.
    pub fn new(alloc: Global, capacity: usize) -> Result<PatternSet, AllocError>
        requires { capacity ≤ PatternID.LIMIT }
        ensures { IfOk result (λ set. set ≡ replicate capacity false) }
    {
        Ok(PatternSet {
            which: vec![in alloc; false; capacity]?,
            len: 0,
        })
    }

    /// Removes all patterns from the set.
    pub fn clear(&mut self)
        ensures { self.new ≡ replicate (length self.old) false }
    {
        self.len = 0;
        self.which.fill(false);
    }

    /// Whether a pattern is in the set; one at the capacity or above never is.
    pub fn contains(&self, pid: PatternID) -> bool
        ensures { result ≡ has self.now pid }
    {
        match self.which.get(pid.as_usize()) {
            Some(is_member) => *is_member,
            None => false,
        }
    }

    /// Inserts a pattern into the set, and returns whether it was absent. Precondition: the pattern is below
    /// the capacity.
    pub fn insert(&mut self, pid: PatternID) -> bool
        requires { pid < length self.old }
        ensures { Inserts self.old pid result self.new }
    {
        let index = pid.as_usize();
        if self.which[index] {
            return false;
        }
        self.which[index] = true;
        self.len += 1;
        true
    }

    /// Inserts a pattern into the set, and returns whether it was absent. A pattern at the capacity or above
    /// is an error.
    pub fn try_insert(&mut self, pid: PatternID) -> Result<bool, PatternSetInsertError>
        ensures { MatchResult result (λ added. Inserts self.old pid added self.new) (λ error. RejectsInsert self.old pid error self.new) }
    {
        if pid.as_usize() >= self.capacity() {
            return Err(PatternSetInsertError {
                attempted: pid,
                capacity: self.capacity(),
            });
        }
        Ok(self.insert(pid))
    }

    /// Whether no pattern is in the set.
    pub fn is_empty(&self) -> bool
        ensures { IsTrue result ↔ ((p : ℕ) → p < length self.now → has self.now p ≡ false) }
    {
        self.len() == 0
    }

    /// Whether each pattern below the capacity is in the set.
    pub fn is_full(&self) -> bool
        ensures { IsTrue result ↔ ((p : ℕ) → p < length self.now → has self.now p ≡ true) }
    {
        self.len() == self.capacity()
    }

    /// How many patterns are in the set.
    pub fn len(&self) -> usize
        ensures value { result ≡ member_count self.now }
        ensures in_range { result ≤ length self.now }
    {
        self.len
    }

    /// How many patterns the set has room for.
    pub fn capacity(&self) -> usize
        ensures value { result ≡ length self.now }
        ensures in_range { result ≤ PatternID.LIMIT }
    {
        self.which.len()
    }

    /// The patterns of the set, ascending.
    pub fn iter(&self) -> PatternSetIter<'_>
        ensures { result ≡ members_of self.now }
    {
        PatternSetIter::new(&self.which)
    }

    /// Another set of the same patterns, with the same capacity.
    pub fn try_clone(&self, alloc: Global) -> Result<PatternSet, AllocError>
        ensures { IfOk result (λ copy. copy ≡ self.now) }
    {
        let mut which = Vec::with_capacity(alloc, self.which.len())?;
        which.extend_from_slice(&self.which)?;
        Ok(PatternSet {
            which,
            len: self.len,
        })
    }
}

/// The error of a set of patterns that has no room for a pattern. As `regex_automata::PatternSetInsertError`.
#[derive(Clone, Debug, Drop)]
pub struct PatternSetInsertError {
    attempted: PatternID,
    capacity: usize,
}

impl Model for PatternSetInsertError {
    ghost use Rattle.search_types.specs.PatternSets.{InsertErrorValue};

    ghost Value = { InsertErrorValue };

    ghost view = { λ e. record { attempted = e.attempted; capacity = e.capacity } };

    ghost inverse = { λ r. record { attempted = r.attempted; capacity = r.capacity } };
}

impl fmt::Display for PatternSetInsertError {
    ghost use Rattle.std.specs.Prelude.{Some};
    ghost use Rattle.search_types.specs.ErrorTexts.{insert_error_text};

    ghost output = { λ rejection. Some (insert_error_text rejection) };

    fn fmt<W: fmt::Write>(&self, f: &mut fmt::Formatter<W>) -> fmt::Result {
        write!(
            f,
            "pattern {} is not below the set's capacity {}",
            self.attempted.as_usize(),
            self.capacity
        )
    }
}

impl Error for PatternSetInsertError {}
