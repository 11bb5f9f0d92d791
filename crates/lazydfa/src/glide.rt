//! The inner loop of a run: it fills no cell, and pushes or puts back no suffix.
ghost use Rattle.std.specs.Prelude.{◌≡◌, ◌≤◌, ◌<◌, ◌+◌, ◌^◌, [], IsTrue, length, map};
ghost use Rattle.lazydfa.specs.Memos.{GlidesOver};
ghost use Rattle.lazydfa.specs.Transitions.{StaysBy, StaysOver};

use crate::memo::Memo;
use crate::transitions::{leads_back, next_row};
use flatgrammar::class_of;
use ruletable::Letter;

/// In lines of at least this many symbols, the loop tries whether a state stays over four symbols.
const LONG: usize = 256;

/// How far a run over a line has come.
#[derive(Clone, Copy)]
pub(crate) struct Track {
    /// The index of the first word of the state's row in `transitions`.
    pub(crate) row: usize,
    /// How many symbols of the line led to that state.
    pub(crate) at: usize,
}

// Returns whether a symbol leads from the state of a row to that state.
#[inline(always)]
fn stays<L: Letter>(
    transitions: &[u32],
    low: &[u8; 256],
    samples: &[u32],
    letter: L,
    row: usize,
) -> bool
    ensures { IsTrue result → StaysBy low.now samples.now transitions.now row (L.number letter) }
{
    leads_back(transitions, row, class_of(low, samples, letter.value()))
}

// Returns whether the next four symbols lead from the state of a row to that state.
#[inline(always)]
fn stay_four<L: Letter>(
    transitions: &[u32],
    low: &[u8; 256],
    samples: &[u32],
    line: &[L],
    from: Track,
) -> bool
    requires within { from.at + 4 ≤ length line.now }
    ensures { IsTrue result → StaysOver low.now samples.now transitions.now (map L.number line.now) from.row from.at
        (from.at + 4) }
{
    if !stays(transitions, low, samples, line[from.at], from.row) {
        return false;
    }
    if !stays(transitions, low, samples, line[from.at + 1], from.row) {
        return false;
    }
    if !stays(transitions, low, samples, line[from.at + 2], from.row) {
        return false;
    }
    stays(transitions, low, samples, line[from.at + 3], from.row)
}

// Goes on by four symbols while they lead from the state of a row to that state, if that is to be tried, and returns
// where that stops.
#[inline(always)]
fn stay_on<L: Letter>(
    transitions: &[u32],
    low: &[u8; 256],
    samples: &[u32],
    line: &[L],
    from: Track,
    is_tried: bool,
) -> usize
    requires within { from.at ≤ length line.now }
    ensures within { result ≤ length line.now }
    ensures further { from.at ≤ result }
    ensures stays { StaysOver low.now samples.now transitions.now (map L.number line.now) from.row from.at result }
{
    let row = from.row;
    let mut at = from.at;
    'fours: while is_tried && line.len() - at >= 4 {
        if !stay_four(transitions, low, samples, line, Track { row, at }) {
            return at;
        }
        at += 4;
    }
    at
}

// Runs as `glide` does where there is no suffix, and by four symbols at a time where a state stays.
#[inline(never)]
fn glide_long<L: Letter>(
    memo: &Memo,
    low: &[u8; 256],
    samples: &[u32],
    line: &[L],
    from: Track,
) -> Track
    requires bare { memo.now.suffixes.items ≡ [] }
    requires within { from.at ≤ length line.now }
    ensures within { result.at ≤ length line.now }
    ensures further { from.at ≤ result.at }
    ensures glides { GlidesOver low.now samples.now memo.now (map L.number line.now) from result }
{
    let transitions = memo.transitions.as_slice();
    let mut track = from;
    while track.at < line.len() {
        let class = class_of(low, samples, line[track.at].value());
        let Some(row) = next_row(transitions, samples.len(), true, track.row, class) else {
            return track;
        };
        let is_tried = row == track.row;
        let next = Track {
            row,
            at: track.at + 1,
        };
        track = Track {
            row,
            at: stay_on(transitions, low, samples, line, next, is_tried),
        };
    }
    track
}

/// Runs over symbols of a line while their transitions are cached, where no suffix is pushed, and returns where that
/// stops.
#[inline(always)]
pub(crate) fn glide<L: Letter>(
    memo: &Memo,
    low: &[u8; 256],
    samples: &[u32],
    line: &[L],
    from: Track,
) -> Track
    requires within { from.at ≤ length line.now }
    ensures within { result.at ≤ length line.now }
    ensures further { from.at ≤ result.at }
    ensures glides { GlidesOver low.now samples.now memo.now (map L.number line.now) from result }
{
    if memo.suffixes.len() > 0 {
        return from;
    }
    if line.len() >= LONG {
        return glide_long(memo, low, samples, line, from);
    }
    let transitions = memo.transitions.as_slice();
    let mut track = from;
    while track.at < line.len() {
        let class = class_of(low, samples, line[track.at].value());
        let Some(row) = next_row(transitions, samples.len(), true, track.row, class) else {
            return track;
        };
        track = Track {
            row,
            at: track.at + 1,
        };
    }
    track
}
