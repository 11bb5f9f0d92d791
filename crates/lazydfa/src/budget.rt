//! The budget for filling cells.

/// The most entries that an automaton keeps by default: continuations, cells, states and resumed states. Four tops of a
/// state count as one more.
pub(crate) const ROOM: usize = 2_000_000;

/// A symbol earns one iteration, and `ITERATIONS` more until those are `GIFT`.
const ITERATIONS: usize = 1024;

const GIFT: usize = 2_097_152;

/// Bounds the time and the memory of an automaton.
///
/// Turns bound time: filling a cell spends one for each id that it visits, and each symbol of a line earns some.
/// `tops` and `room` bound memory. A cell is filled only if both have enough left; else the line gets no verdict.
#[derive(Drop)]
pub(crate) struct Budget {
    /// How many turns there are before a line is read.
    iterations: usize,
    /// How many symbols the lines have had.
    letters: usize,
    /// How many iterations fills have spent.
    spent: usize,
    /// The number of tops of all states, with four more for each state and each resumed state.
    tops: usize,
    /// How many entries may be kept.
    room: usize,
    /// Whether no state is made any more.
    pub(crate) is_shut: bool,
}

impl Budget {
    /// Returns the budget of a grammar of `nodes` nodes before a line is read, with room for `room` entries.
    pub(crate) fn of(nodes: usize, room: usize) -> Budget {
        Budget {
            iterations: nodes.saturating_mul(128).saturating_add(65_536),
            letters: 0,
            spent: 0,
            tops: 0,
            room,
            is_shut: false,
        }
    }

    /// Counts the symbols of a line.
    #[inline(always)]
    pub(crate) fn earn(&mut self, letters: usize) {
        self.letters = self.letters.saturating_add(letters);
    }

    /// Counts spent iterations.
    pub(crate) fn spend(&mut self, iterations: usize) {
        self.spent = self.spent.saturating_add(iterations);
    }

    /// Notes a new state with so many tops, or an resumed state, which has none.
    pub(crate) fn note(&mut self, tops: usize) {
        self.tops = self.tops.saturating_add(tops).saturating_add(4);
    }

    /// Returns whether so many iterations may be spent while there are so many continuations and cells.
    pub(crate) fn allows(&self, iterations: usize, entries: usize) -> bool {
        let gift = self.letters.saturating_mul(ITERATIONS).min(GIFT);
        let earned = self
            .iterations
            .saturating_add(gift)
            .saturating_add(self.letters);
        let has_iterations = iterations <= earned.saturating_sub(self.spent);
        !self.is_shut && has_iterations && (self.tops / 4).saturating_add(entries) < self.room
    }
}
