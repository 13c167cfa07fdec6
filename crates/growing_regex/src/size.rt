//! The size of caches, and whether it is too small. It affects no answer.
ghost use Rattle.std.specs.Prelude.{◌≡◌, ◌+◌, ◌<◌, ◌≤◌, IfSome, min};
ghost use Rattle.lazy_dfa.specs.Caches.{greatest};

/// The factor from one capacity to the next larger one.
const STEP: usize = 4;

/// A cache is too small if it is cleared before its searches have consumed `WORTH` bytes for each byte of its capacity. A state of an
/// automaton takes at least some hundred bytes, and building it takes as long as searching some thousand bytes. So a cache that is cleared
/// sooner has searches build states for most of their time.
const WORTH: usize = 8;

/// The size of the caches of a regex, and how soon they were cleared.
#[derive(Clone, Copy, Debug)]
pub struct Size {
    /// The capacity in bytes of each of both caches.
    pub capacity: usize,
    /// How often the caches were cleared, as it was last recorded.
    pub clears: usize,
    /// How often caches were cleared that have been replaced by these.
    pub past_clears: usize,
    /// How many bytes were searched since they were last cleared.
    searched: usize,
}

impl Size {
    /// The size of caches that no search has used yet.
    pub fn of(capacity: usize) -> Size
        ensures { result.capacity ≡ capacity }
    {
        Size {
            capacity,
            clears: 0,
            past_clears: 0,
            searched: 0,
        }
    }

    /// How often all caches were cleared, those that have been replaced included, if the present ones were cleared this often. The greatest
    /// number stands for any number above it.
    pub fn clear_count(&self, clears: usize) -> usize
        ensures { result ≡ min (self.now.past_clears + clears) greatest }
    {
        self.past_clears.saturating_add(clears)
    }

    /// The size of new caches of this capacity, if the present ones were cleared this often.
    pub fn enlarged(&self, capacity: usize, clears: usize) -> Size
        ensures capacity { result.capacity ≡ capacity }
        ensures past { result.past_clears ≡ min (self.now.past_clears + clears) greatest }
    {
        Size {
            past_clears: self.clear_count(clears),
            ..Size::of(capacity)
        }
    }

    /// Records that this many more bytes were searched.
    #[inline(always)]
    pub fn pass(&mut self, bytes: usize)
        ensures { self.new.capacity ≡ self.old.capacity }
    {
        self.searched = self.searched.saturating_add(bytes);
    }

    /// Records how often the caches have been cleared in all, more often than before. If they were cleared too soon, and may be larger, it
    /// returns the next larger capacity, which is at most the largest one.
    pub fn larger(&mut self, clears: usize, largest: usize) -> Option<usize>
        ensures more { IfSome result (λ capacity. self.old.capacity < capacity) }
        ensures most { IfSome result (λ capacity. capacity ≤ largest) }
    {
        let too_small = self.searched / WORTH < self.capacity;
        self.clears = clears;
        self.searched = 0;
        let capacity = self.capacity.saturating_mul(STEP).min(largest);
        if !too_small || capacity <= self.capacity {
            return None;
        }
        Some(capacity)
    }
}
