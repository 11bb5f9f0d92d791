//! A caller of `feed`.
ghost use Rattle.std.specs.Prelude.{◌↔◌, Contains, IsTrue};
ghost use Rattle.feed.specs.Feed.{Grows, IsTrueOfReader, bytes_of};

use feed::{Feed, Source};

/// Fills the window, and returns whether a line feed stands in it.
pub fn holds_line<R: Source>(feed: &mut Feed<'_, R>) -> bool
    requires { IsTrueOfReader R.remaining R.failed R.ended feed.old }
    ensures grows { Grows R.remaining feed.old feed.new }
    ensures line { IsTrue result ↔ Contains (bytes_of feed.new) 10 }
{
    feed.fill();
    feed.find(b'\n').is_some()
}
