//! Laws of streams. Each function has no code: its contract is the law.
ghost use Rattle.std.specs.Prelude.{◌≡◌, ◌++◌, ℕ, List, Result, false, length, ⊤};
ghost use Rattle.search_types.specs.Inputs.{Search};
ghost use Rattle.search_types.specs.declared.anchored.Anchored.TheVariants.{No};
ghost use Rattle.lazy_dfa.specs.Dfas.{Dfa, reader};
ghost use Rattle.lazy_dfa.specs.Overlapping.{whole_rest};
ghost use Rattle.streams.specs.Capacities.{without_capacity};
ghost use Rattle.streams.specs.Feeding.{IsFed, IsStreamClosed};
ghost use Rattle.streams.specs.LineCalls.{AreLinesClosed, AreLinesFed};
ghost use Rattle.streams.specs.Lines.{fed_lines, ends_in_lines, lines_in, rest_of_each, rest_of_lines};
ghost use Rattle.streams.specs.Overlapping.{rest_of_stream};
ghost use Rattle.streams.specs.Streams.{IsStreamOf, stream_ends, fed, fresh_stream};
ghost use Rattle.streams.specs.declared.errors.StreamError.{StreamError};
ghost use Rattle.streams.specs.declared.feeding.Fed.{Fed};
ghost use Rattle.streams.specs.declared.stream.Stream.{Stream};
ghost use Rattle.streams.specs.declared.stream.StreamMatch.{StreamMatch};

/// Where the input is cut makes no difference.
pub fn cuts_make_no_difference()
    ensures fed { (d : Dfa) (s : Stream) (a b : List ℕ) → fed d (fed d s a) b ≡ fed d s (a ++ b) }
    ensures ends { (d : Dfa) (s : Stream) (a b : List ℕ) → stream_ends d s a ++ stream_ends d (fed d s a) b ≡ stream_ends d s (a ++ b) }
{}

/// Over an automaton that reads forward, a fresh stream that is fed a whole input and closed reports the ends of one overlapping search over
/// that input, with the same error.
pub fn streams_are_overlapping_searches()
    ensures { (d : Dfa) (q : Search) → d.nfa.automaton.reverse ≡ false → q.start ≡ 0 → q.end ≡ length q.haystack → q.anchored ≡ No →
        whole_rest (reader d) q ≡ rest_of_stream d fresh_stream q.haystack }
{}

/// Where an input that is read line by line is cut makes no difference.
pub fn cuts_of_lines_make_no_difference()
    ensures fed { (d : Dfa) (t : ℕ) (s : Stream) (a b : List ℕ) → fed_lines d t (fed_lines d t s a) b ≡ fed_lines d t s (a ++ b) }
    ensures ends { (d : Dfa) (t : ℕ) (s : Stream) (a b : List ℕ) →
        ends_in_lines d t s a ++ ends_in_lines d t (fed_lines d t s a) b ≡ ends_in_lines d t s (a ++ b) }
{}

/// A fresh stream that is fed a whole input line by line and closed reports what searches of each line by itself report, moved to the line's
/// offset, until one fails. Such a search is a fresh stream that is fed the line and closed: by the law above, an overlapping search.
pub fn lines_are_searched_by_themselves()
    ensures { (d : Dfa) (t : ℕ) (bytes : List ℕ) → rest_of_lines d t fresh_stream bytes ≡ rest_of_each d (lines_in t bytes) }
{}

/// The capacity of the cache makes no difference. Take two automata that differ in it alone. A stream of one is a stream of the other. A call
/// over one does what a call over the other does, and both report the same of a whole input.
pub fn capacities_make_no_difference()
    ensures own { (d e : Dfa) → without_capacity d ≡ without_capacity e → (s : Stream) → IsStreamOf d s → IsStreamOf e s }
    ensures fed { (d e : Dfa) → without_capacity d ≡ without_capacity e → (old new : Stream) (rows after : List StreamMatch)
        (bytes : List ℕ) (f : Fed) (r : Result ⊤ StreamError) → IsFed d old new bytes rows after f r → IsFed e old new bytes rows after f r }
    ensures closed { (d e : Dfa) → without_capacity d ≡ without_capacity e → (old new : Stream) (rows after : List StreamMatch)
        (count : ℕ) (r : Result ⊤ StreamError) → IsStreamClosed d old new rows after count r → IsStreamClosed e old new rows after count r }
    ensures lines_fed { (d e : Dfa) → without_capacity d ≡ without_capacity e → (old new : Stream) (rows after : List StreamMatch)
        (t : ℕ) (bytes : List ℕ) (f : Fed) (r : Result ⊤ StreamError) → AreLinesFed d t old new bytes rows after f r →
        AreLinesFed e t old new bytes rows after f r }
    ensures lines_closed { (d e : Dfa) → without_capacity d ≡ without_capacity e → (old new : Stream) (rows after : List StreamMatch)
        (count : ℕ) (r : Result ⊤ StreamError) → AreLinesClosed d old new rows after count r → AreLinesClosed e old new rows after count r }
    ensures reported { (d e : Dfa) → without_capacity d ≡ without_capacity e → (s : Stream) (bytes : List ℕ) →
        rest_of_stream d s bytes ≡ rest_of_stream e s bytes }
    ensures reported_of_lines { (d e : Dfa) → without_capacity d ≡ without_capacity e → (t : ℕ) (s : Stream) (bytes : List ℕ) →
        rest_of_lines d t s bytes ≡ rest_of_lines e t s bytes }
{}
