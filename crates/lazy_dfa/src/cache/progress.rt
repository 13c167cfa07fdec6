//! A search in progress.
ghost use Rattle.std.specs.Prelude.{◌≡◌};
ghost use Rattle.lazy_dfa.specs.Caches.{begun_anew, distance};

/// A search in progress: where it started, and where it is.
#[derive(Clone, Copy)]
pub(crate) struct Progress {
    pub(crate) start: usize,
    pub(crate) at: usize,
}

impl Progress {
    /// The number of bytes that the search read.
    #[inline(always)]
    pub(crate) fn len(self) -> usize
        ensures { result ≡ distance self.start self.at }
    {
        if self.start <= self.at {
            self.at - self.start
        } else {
            self.start - self.at
        }
    }
}

/// The search in progress, restarted where it is.
pub(crate) fn begun_anew(progress: Option<Progress>) -> Option<Progress>
    ensures { result ≡ begun_anew progress }
{
    match progress {
        Some(progress) => Some(Progress {
            start: progress.at,
            at: progress.at,
        }),
        None => None,
    }
}
