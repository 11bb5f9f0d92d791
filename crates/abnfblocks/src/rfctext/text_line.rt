//! A line of a text.
ghost use Rattle.std.specs.Prelude.{◌≡◌, ◌≤◌, ◌==◌, not, length, drop, codes};
ghost use Rattle.std.specs.List.{prefix_len};
ghost use Rattle.std.specs.Option.{unwrap_or};
ghost use Rattle.abnfblocks.specs.LineKinds.{is_feed, strip_end};
ghost use Rattle.abnfblocks.specs.TextLines.{numbered, line_in};

use crate::rfctext::line_kind::LineKind;
use crate::rfctext::line_tests::count_feeds;

/// A line of a text, without what ends it and without form feeds that begin it.
#[derive(Clone, Copy)]
pub struct TextLine<'a> {
    /// The line's number in the text, from 1.
    pub number: usize,
    /// The bytes of the line.
    pub bytes: &'a [u8],
    /// The look of the line.
    pub kind: LineKind,
}

// How many bytes stand before the first LF, or in all.
pub(crate) fn part_size(rest: &[u8]) -> usize
    ensures size { result ≡ prefix_len (λ b. not (b == 10)) rest.now }
    ensures within { result ≤ length rest.now }
{
    let mut size = 0;
    let mut left = rest;
    while let Some((first, tail)) = left.split_first() {
        if *first == b'\n' {
            break;
        }
        left = tail;
        size += 1;
    }
    size
}

// The part without one CR at its end.
pub(crate) fn before_cr(part: &[u8]) -> &[u8]
    ensures { result.now ≡ unwrap_or (strip_end part.now (codes "\r")) part.now }
{
    match part.strip_suffix(b"\r") {
        Some(bare) => bare,
        None => part,
    }
}

impl<'a> TextLine<'a> {
    // The line with these bytes and the form feeds that begin it.
    pub(crate) fn new(number: usize, part: &'a [u8]) -> TextLine<'a>
        ensures { numbered result ≡ line_in number part.now }
    {
        let feeds = count_feeds(part);
        let bytes = &part[feeds..];
        TextLine {
            number,
            bytes,
            kind: LineKind::of(bytes, feeds > 0),
        }
    }
}
