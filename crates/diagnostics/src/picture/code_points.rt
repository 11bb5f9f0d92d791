//! Texts in UTF-16, and code points that look like characters of ASCII.
ghost use Rattle.std.specs.Prelude.{◌≡◌, map};
ghost use Rattle.diagnostics.specs.CodePoints.{in_utf16, point_rows};
ghost use Rattle.diagnostics.specs.FactRows.{row_of};

use crate::facts;
use crate::picture::facts::Fact;

static POINT_FACTS: [Fact; 23] = facts![
    b"\xE2\x80\x90" => b"U+2010 is a dash: write \"-\"",
    b"\xE2\x80\x91" => b"U+2011 is a dash: write \"-\"",
    b"\xE2\x80\x92" => b"U+2012 is a dash: write \"-\"",
    b"\xE2\x80\x93" => b"U+2013 is a dash: write \"-\"",
    b"\xE2\x80\x94" => b"U+2014 is a dash: write \"-\"",
    b"\xE2\x80\x95" => b"U+2015 is a dash: write \"-\"",
    b"\xE2\x88\x92" => b"U+2212 is a dash: write \"-\"",
    b"\xC2\xA0" => b"U+00A0 is no white space: write a space",
    b"\xE2\x80\x80" => b"U+2000 is no white space: write a space",
    b"\xE2\x80\x81" => b"U+2001 is no white space: write a space",
    b"\xE2\x80\x82" => b"U+2002 is no white space: write a space",
    b"\xE2\x80\x83" => b"U+2003 is no white space: write a space",
    b"\xE2\x80\x84" => b"U+2004 is no white space: write a space",
    b"\xE2\x80\x85" => b"U+2005 is no white space: write a space",
    b"\xE2\x80\x86" => b"U+2006 is no white space: write a space",
    b"\xE2\x80\x87" => b"U+2007 is no white space: write a space",
    b"\xE2\x80\x88" => b"U+2008 is no white space: write a space",
    b"\xE2\x80\x89" => b"U+2009 is no white space: write a space",
    b"\xE2\x80\x8A" => b"U+200A is no white space: write a space",
    b"\xE2\x80\x8B" => b"U+200B is no white space: write a space",
    b"\xE2\x80\xAF" => b"U+202F is no white space: write a space",
    b"\xE3\x80\x80" => b"U+3000 is no white space: write a space",
    b"\xEF\xBB\xBF" => b"U+FEFF is a byte order mark: a grammar has none",
];

/// Returns the facts of dashes, white space and byte order marks, which word processors write. Quotes have other facts
/// in each language.
pub fn point_facts() -> &'static [Fact]
    ensures { map row_of result.now ≡ point_rows }
{
    &POINT_FACTS
}

/// Returns whether a text is in UTF-16, as far as its first two bytes say.
pub fn is_utf16(text: &[u8]) -> bool
    ensures { result ≡ in_utf16 text.now }
{
    match text {
        [] => false,
        [a] => *a == 0,
        [a, b, ..] => (*a == 0xFF && *b == 0xFE)
            || (*a == 0xFE && *b == 0xFF)
            || *a == 0
            || *b == 0,
    }
}
