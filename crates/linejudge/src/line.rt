//! The next line at the front of what a feed holds.
ghost use Rattle.std.specs.Prelude.{◌≡◌, ℕ, List, ◌+◌, ◌≤◌, ◌<◌, ◌^◌, ◌++◌, IsTrue, false, length};
ghost use Rattle.feed.specs.Feed.{Grows, IsTrueOfReader, SameFeed, SameLoan, bytes_of, capacity_of, flow_of};
ghost use Rattle.toolrun.specs.Agrees.{Agrees};
ghost use Rattle.toolrun.specs.Input.{Input};
ghost use Rattle.linejudge.specs.InputLines.{HasNoEnd, IsNext, IsShort, LiesWithin, is_over, kept_size};
ghost use Rattle.linejudge.specs.InputLines.{ReadsForLine, line_without, taken_at};

use crate::printed::Printed;
use crate::reached::LinePosition;
use feed::{Feed, Held, Source};

/// How an input is cut into lines, and what is printed for them.
#[derive(Clone, Copy)]
pub struct LineForm<'a> {
    /// The greatest length of a line, in bytes.
    pub limit: usize,
    /// The byte that ends a line.
    pub end: u8,
    /// Whether the end of a line belongs to what is judged.
    pub keeps: bool,
    /// The output for each line.
    pub printed: Printed,
    /// The name before the output, which a colon follows.
    pub name: Option<&'a str>,
    /// Whether the number of a line and a colon stand before what is printed for it.
    pub numbered: bool,
    /// Whether the run ends after the first rejected line.
    pub stops: bool,
    /// Whether nothing is read while the end of a line is held, so that each line is answered at once.
    pub line_buffered: bool,
}

impl LineForm<'_> {
    /// Returns how many bytes are judged of a line that has an end, and `n` bytes before it.
    #[inline(always)]
    pub(crate) fn kept_size(self, n: usize) -> usize
        requires { n + 1 < 2 ^ 64 }
        ensures size { result ≡ kept_size self.entry n }
        ensures most { result ≤ n + 1 }
        ensures within { (limit : ℕ) → n ≤ limit → result ≤ kept_size self.entry limit }
    {
        if self.keeps { n + 1 } else { n }
    }

    /// Returns whether a run ends at a position, after a rejected line.
    #[inline(always)]
    pub(crate) fn is_over(self, at: LinePosition) -> bool
        ensures { result ≡ is_over self.entry at }
    {
        0 < at.refused && self.stops
    }
}

/// The line at the front of the rest of an input, or why there is none.
#[derive(Clone, Copy)]
pub enum Line {
    /// A line of so many bytes, and its end.
    Whole(usize),
    /// The last piece of the input, of so many bytes, without an end.
    Last(usize),
    /// More bytes without an end than a line may have.
    Overlong,
    /// Nothing: the input is at its end.
    End,
    /// A fault of the reader before a line ends.
    Broken,
}

/// Returns the line at the front, of `len` bytes that are held without a line's end.
fn without_end(held: Held, len: usize) -> Line
    ensures { result ≡ line_without held len }
{
    match held {
        Held::Full => Line::Overlong,
        Held::End => { if len == 0 { Line::End } else { Line::Last(len) } }
        Held::Fault => Line::Broken,
    }
}

/// Finds the line at the front, as `next_line` does, and reads no further than to a line's end: before each read none
/// is held. It stands apart, so that `next_line` stays small.
#[inline(never)]
fn line_at_once<R: Source>(feed: &mut Feed<'_, R>, form: LineForm<'_>) -> Line
    requires { IsTrueOfReader R.remaining R.failed R.ended feed.old }
    ensures loan { SameLoan feed.old feed.new }
    ensures grows { Grows R.remaining feed.old feed.new }
    ensures reported { IsTrueOfReader R.remaining R.failed R.ended feed.new }
    ensures follows { (before : List ℕ) (input : Input) → capacity_of feed.new ≡ form.entry.limit + 1 →
        Agrees (before ++ bytes_of feed.new) (flow_of feed.new) input →
        IsNext form.entry input (length before) result ×
        (length (before ++ bytes_of feed.new) ≤ taken_at form.entry.limit input (length before)) }
    ensures still { (HasNoEnd form.entry.end (bytes_of feed.old) → ⊥) → SameFeed feed.old feed.new }
    ensures reads { ReadsForLine form.entry.end (bytes_of feed.old) (bytes_of feed.new) }
    ensures fits { LiesWithin (length (bytes_of feed.new)) result }
    ensures short { IsShort (capacity_of feed.new) result }
{
    loop {
        // its contract says that no more is held than there is room for
        let len = feed.len();
        if let Some(k) = feed.find(form.end) {
            return Line::Whole(k);
        }
        if let Some(held) = feed.read_more() {
            return without_end(held, len);
        }
    }
}

/// Finds the line at the front, where the lines have that form. It reads nothing if the end of a line is held. Else it
/// reads until the window is full, the input ends or a read fails; with `form.line_buffered` only until the end of a
/// line is held. The window has room for one byte more than a line may have; a line that is returned has fewer bytes
/// than there is room for.
pub fn next_line<R: Source>(feed: &mut Feed<'_, R>, form: LineForm<'_>) -> Line
    requires { IsTrueOfReader R.remaining R.failed R.ended feed.old }
    ensures loan { SameLoan feed.old feed.new }
    ensures grows { Grows R.remaining feed.old feed.new }
    ensures reported { IsTrueOfReader R.remaining R.failed R.ended feed.new }
    ensures follows { (before : List ℕ) (input : Input) → capacity_of feed.new ≡ form.entry.limit + 1 →
        Agrees (before ++ bytes_of feed.new) (flow_of feed.new) input →
        IsNext form.entry input (length before) result ×
        (length (before ++ bytes_of feed.new) ≤ taken_at form.entry.limit input (length before)) }
    ensures still { (HasNoEnd form.entry.end (bytes_of feed.old) → ⊥) → SameFeed feed.old feed.new }
    ensures reads { IsTrue form.entry.line_buffered →
        ReadsForLine form.entry.end (bytes_of feed.old) (bytes_of feed.new) }
    ensures filled { form.entry.line_buffered ≡ false → HasNoEnd form.entry.end (bytes_of feed.old) → (before : List ℕ)
        (input : Input) →
        capacity_of feed.new ≡ form.entry.limit + 1 → Agrees (before ++ bytes_of feed.new) (flow_of feed.new) input →
        length (before ++ bytes_of feed.new) ≡ taken_at form.entry.limit input (length before) }
    ensures fits { LiesWithin (length (bytes_of feed.new)) result }
    ensures short { IsShort (capacity_of feed.new) result }
{
    if form.line_buffered {
        return line_at_once(feed, form);
    }
    // its contract says that no more is held than there is room for
    let _ = feed.len();
    if let Some(k) = feed.find(form.end) {
        return Line::Whole(k);
    }
    let held = feed.fill();
    let len = feed.len();
    match feed.find(form.end) {
        Some(k) => Line::Whole(k),
        None => without_end(held, len),
    }
}
