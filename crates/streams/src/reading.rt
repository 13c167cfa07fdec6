//! Reading the bytes of a piece, one by one.
ghost use Rattle.std.specs.Prelude.{◌≡◌, ◌+◌, ◌<◌, ◌≤◌, IfErr, IfOk, Some, length};
ghost use Rattle.determinize_core.specs.States.{StateValue};
ghost use Rattle.lazy_dfa.specs.Caches.{HeldAt, IsCacheOf, IsRow, Leads};
ghost use Rattle.lazy_dfa.specs.Ids.{tag};
ghost use Rattle.streams.specs.Reading.{IsPieceRead, IsByteStep, read_stopped, within};

use crate::errors::{StreamError, of_step};
use crate::rows::write_counted;
use crate::stream::{Point, Stream, StreamMatch};
use determinize_core::State;
use lazy_dfa::dfa::{Cache, DFA};
use lazy_dfa::{LazyStateID, Work};
use std::alloc::AllocError;
use std::sync::ledger::Ledger;

/// What becomes of a byte.
#[derive(Drop)]
pub(crate) enum Step {
    /// It leads to the state with this ID. So many rows are used now.
    To(LazyStateID, usize),
    /// The reading ends here.
    Stop(Stop),
}

/// Why the reading of a piece ends.
#[derive(Drop)]
pub(crate) enum Stop {
    /// The byte leads to the dead state.
    Died,
    /// The automaton gives up at the byte.
    Quits,
    /// There is no room for the ends of the byte. The state before it is this one.
    Full(State),
    /// The step failed. The state before the byte is this one.
    Refused(State, StreamError),
}

/// Reads a byte in the state of an ID. It is at an offset, and the first `count` rows are used.
fn make_step<L: Ledger, M: Ledger>(
    dfa: &DFA,
    cache: &mut Cache,
    id: LazyStateID,
    byte: u8,
    at: usize,
    rows: &mut [StreamMatch],
    count: usize,
    work: &mut Work<L, M>,
) -> Result<Step, AllocError>
    requires own { IsCacheOf dfa.now cache.old }
    requires row { IsRow cache.old id }
    requires count { count ≤ length rows.old }
    requires at { at < 0xFFFF_FFFF_FFFF_FFFF }
    ensures own { IsCacheOf dfa.now cache.new }
    ensures step { (s : StateValue) → HeldAt cache.old id s →
        IfOk result (IsByteStep dfa.now cache.new s at byte rows.old rows.new count) }
    ensures same { IfErr result (λ _. rows.new ≡ rows.old) }
    ensures length { length rows.new ≡ length rows.old }
{
    let before = dfa.state_of(cache, id)?;
    let to = match dfa.next_state(cache, id, byte, work) {
        Ok(to) => to,
        Err(error) => return Ok(Step::Stop(Stop::Refused(before, of_step(error)))),
    };
    if to.is_quit() {
        return Ok(Step::Stop(Stop::Quits));
    }
    if to.is_dead() {
        return Ok(Step::Stop(Stop::Died));
    }
    match write_counted(dfa, cache, to, byte, at, rows, count) {
        Some(n) => Ok(Step::To(to, n)),
        None => Ok(Step::Stop(Stop::Full(before))),
    }
}

/// What was read of a piece.
#[derive(Drop)]
pub(crate) struct Read {
    /// The stream after it.
    pub(crate) stream: Stream,
    /// How many bytes were read.
    pub(crate) taken: usize,
    /// How many ends were written.
    pub(crate) count: usize,
    /// Why no more bytes were read, unless all were read or the next one's ends have no room.
    pub(crate) error: Option<StreamError>,
}

/// The stream that is in this state, before the byte at an offset.
#[inline(always)]
fn stream_within(state: State, offset: usize) -> Stream
    ensures { result ≡ within state offset }
{
    Stream {
        point: Point::Within(state),
        offset,
    }
}

/// What was read if the reading ends at the byte after k bytes.
fn stopped(stop: Stop, offset: usize, bytes: &[u8], k: usize, count: usize) -> Read
    requires inside { k < length bytes.now }
    requires room { offset + length bytes.now ≤ 0xFFFF_FFFF_FFFF_FFFF }
    ensures { result ≡ read_stopped offset bytes.now k count stop }
{
    let at = offset + k;
    match stop {
        Stop::Died => Read {
            stream: Stream {
                point: Point::Dead,
                offset: offset + bytes.len(),
            },
            taken: bytes.len(),
            count,
            error: None,
        },
        Stop::Quits => Read {
            stream: Stream {
                point: Point::Failed(bytes[k]),
                offset: at,
            },
            taken: k + 1,
            count,
            error: Some(StreamError::Quit {
                byte: bytes[k],
                offset: at,
            }),
        },
        Stop::Full(state) => Read {
            stream: stream_within(state, at),
            taken: k,
            count,
            error: None,
        },
        Stop::Refused(state, error) => Read {
            stream: stream_within(state, at),
            taken: k,
            count,
            error: Some(error),
        },
    }
}

/// Where a byte leads from an ID, if that is known and needs no more. Otherwise, it returns an ID with a tag.
#[inline(always)]
fn quick(dfa: &DFA, cache: &Cache, id: LazyStateID, byte: u8) -> LazyStateID
    requires own { IsCacheOf dfa.now cache.now }
    requires row { IsRow cache.now id }
    ensures { result < tag → (s : StateValue) → HeldAt cache.now id s → Leads dfa.now cache.now s (Some byte) result }
{
    dfa.is_made();
    if id.is_tagged() {
        return id;
    }
    dfa.next_state_untagged(cache, id, byte)
}

/// Reads a piece from an offset on, in the state of an ID.
pub(crate) fn read_piece<L: Ledger, M: Ledger>(
    dfa: &DFA,
    cache: &mut Cache,
    first: LazyStateID,
    offset: usize,
    bytes: &[u8],
    rows: &mut [StreamMatch],
    work: &mut Work<L, M>,
) -> Result<Read, AllocError>
    requires own { IsCacheOf dfa.now cache.old }
    requires row { IsRow cache.old first }
    requires room { offset + length bytes.now ≤ 0xFFFF_FFFF_FFFF_FFFF }
    ensures own { IsCacheOf dfa.now cache.new }
    ensures read { (s : StateValue) → HeldAt cache.old first s →
        IfOk result (IsPieceRead dfa.now (within s offset) bytes.now rows.old rows.new) }
    ensures length { length rows.new ≡ length rows.old }
{
    let mut id = first;
    let mut count = 0;
    for k in 0..bytes.len() {
        let next = quick(dfa, cache, id, bytes[k]);
        if !next.is_tagged() {
            id = next;
            continue;
        }
        match make_step(dfa, cache, id, bytes[k], offset + k, rows, count, work)? {
            Step::To(to, n) => {
                id = to;
                count = n;
            }
            Step::Stop(stop) => return Ok(stopped(stop, offset, bytes, k, count)),
        }
    }
    let state = dfa.state_of(cache, id)?;
    Ok(Read {
        stream: Stream {
            point: Point::Within(state),
            offset: offset + bytes.len(),
        },
        taken: bytes.len(),
        count,
        error: None,
    })
}
