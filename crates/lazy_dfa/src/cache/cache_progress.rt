//! How far searches came. Searches report this to their cache, which decides by it whether clears pay off. Sums saturate at
//! [`usize::MAX`].
ghost use Rattle.std.specs.Prelude.{◌≡◌, ◌+◌, Some, None, IsSome, is_some, min};
ghost use Rattle.lazy_dfa.specs.Caches.{greatest, progress_len, moved_to, search_total_len};

use crate::cache::Cache;
use crate::cache::progress::Progress;

impl Cache {
    /// Begins a search at this offset, as `Cache::search_start`. A search in progress ends, and its length is added.
    #[inline(always)]
    pub fn search_start(&mut self, at: usize)
        ensures { self.new ≡ record self.old {
          searched = min (self.old.searched + progress_len self.old.progress) greatest;
          progress = Some (record { start = at; at = at });
        } }
    {
        self.searched = self.search_total_len();
        self.progress = Some(Progress { start: at, at });
    }

    /// Records that the search in progress has come to this offset, as `Cache::search_update`.
    #[inline(always)]
    pub fn search_update(&mut self, at: usize)
        requires { IsSome self.old.progress }
        ensures { self.new ≡ record self.old { progress = moved_to at self.old.progress } }
    {
        if let Some(progress) = self.progress {
            self.progress = Some(Progress {
                start: progress.start,
                at,
            });
        }
    }

    /// Ends the search in progress at this offset, as `Cache::search_finish`. Its length is added.
    #[inline(always)]
    pub fn search_finish(&mut self, at: usize)
        requires { IsSome self.old.progress }
        ensures { self.new ≡ record self.old {
          searched = min (self.old.searched + progress_len (moved_to at self.old.progress)) greatest;
          progress = None;
        } }
    {
        self.search_update(at);
        self.searched = self.search_total_len();
        self.progress = None;
    }

    /// Whether a search is in progress.
    pub fn in_progress(&self) -> bool
        ensures { result ≡ is_some self.now.progress }
    {
        self.progress.is_some()
    }

    /// Returns how many bytes were searched since the last clear, as `Cache::search_total_len`. The bytes of the search in
    /// progress are included.
    #[inline(always)]
    pub fn search_total_len(&self) -> usize
        ensures { result ≡ search_total_len self.now }
    {
        let len = match self.progress {
            Some(progress) => progress.len(),
            None => 0,
        };
        self.searched.saturating_add(len)
    }
}
