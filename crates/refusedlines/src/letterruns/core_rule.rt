//! The core rules of RFC 5234 that derive single symbols.
ghost use Rattle.std.specs.Prelude.{◌≡◌};
ghost use Rattle.refusedlines.specs.CoreSymbols.{core_name, core_of, core_runs};

use crate::letterruns::run::LetterRun;

/// A core rule of RFC 5234, appendix B.1, that derives single symbols.
#[derive(Clone, Copy)]
pub enum CoreRule {
    Octet,
    Char,
    Vchar,
    Alpha,
    Ctl,
    Hexdig,
    Digit,
    Wsp,
    Sp,
    Htab,
    Cr,
    Lf,
    Dquote,
}

/// Returns the symbols of a core rule, as ascending maximal runs.
pub(crate) fn core_runs(rule: CoreRule) -> &'static [LetterRun]
    ensures { result.now ≡ core_runs rule }
{
    match rule {
        CoreRule::Octet => &[LetterRun {
            first: 0,
            last: 0xFF,
        }],
        CoreRule::Char => &[LetterRun {
            first: 1,
            last: 0x7F,
        }],
        CoreRule::Vchar => &[LetterRun {
            first: 0x21,
            last: 0x7E,
        }],
        CoreRule::Alpha => &[
            LetterRun {
                first: 65,
                last: 90,
            },
            LetterRun {
                first: 97,
                last: 122,
            },
        ],
        CoreRule::Ctl => &[
            LetterRun {
                first: 0,
                last: 0x1F,
            },
            LetterRun {
                first: 0x7F,
                last: 0x7F,
            },
        ],
        CoreRule::Hexdig => &[
            LetterRun {
                first: 48,
                last: 57,
            },
            LetterRun {
                first: 65,
                last: 70,
            },
            LetterRun {
                first: 97,
                last: 102,
            },
        ],
        CoreRule::Digit => &[LetterRun {
            first: 48,
            last: 57,
        }],
        CoreRule::Wsp => &[
            LetterRun { first: 9, last: 9 },
            LetterRun {
                first: 32,
                last: 32,
            },
        ],
        CoreRule::Sp => &[LetterRun {
            first: 32,
            last: 32,
        }],
        CoreRule::Htab => &[LetterRun { first: 9, last: 9 }],
        CoreRule::Cr => &[LetterRun {
            first: 13,
            last: 13,
        }],
        CoreRule::Lf => &[LetterRun {
            first: 10,
            last: 10,
        }],
        CoreRule::Dquote => &[LetterRun {
            first: 34,
            last: 34,
        }],
    }
}

/// Returns the name of a core rule.
pub(crate) fn core_name(rule: CoreRule) -> &'static [u8]
    ensures { result.now ≡ core_name rule }
{
    match rule {
        CoreRule::Octet => b"OCTET",
        CoreRule::Char => b"CHAR",
        CoreRule::Vchar => b"VCHAR",
        CoreRule::Alpha => b"ALPHA",
        CoreRule::Ctl => b"CTL",
        CoreRule::Hexdig => b"HEXDIG",
        CoreRule::Digit => b"DIGIT",
        CoreRule::Wsp => b"WSP",
        CoreRule::Sp => b"SP",
        CoreRule::Htab => b"HTAB",
        CoreRule::Cr => b"CR",
        CoreRule::Lf => b"LF",
        CoreRule::Dquote => b"DQUOTE",
    }
}

/// Returns the core rule that derives this symbol alone.
pub(crate) fn core_of(symbol: u32) -> Option<CoreRule>
    ensures { result ≡ core_of symbol }
{
    if symbol == 32 {
        Some(CoreRule::Sp)
    } else if symbol == 9 {
        Some(CoreRule::Htab)
    } else if symbol == 13 {
        Some(CoreRule::Cr)
    } else if symbol == 10 {
        Some(CoreRule::Lf)
    } else if symbol == 34 {
        Some(CoreRule::Dquote)
    } else {
        None
    }
}
