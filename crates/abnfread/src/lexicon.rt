//! How a grammar in ABNF is cut into tokens.
ghost use Rattle.std.specs.Prelude.{◌≡◌};
ghost use Rattle.abnfread.specs.AbnfKinds.{ends_list};

use crate::kind::AbnfKind;
use crate::scan::{after_blanks, first_of};
use lexer::Kind;

impl Kind for AbnfKind {
    ghost use Rattle.lexer.specs.SliceEnds.{NoPiece};
    ghost use Rattle.abnfread.specs.AbnfSlices.{Piece, White, Stands, First};

    ghost is_end = { ends_list };

    ghost white = { White };

    ghost dark = { NoPiece Piece };

    ghost stands = { Stands };

    ghost first = { First };

    fn is_last(self) -> bool {
        matches!(self, AbnfKind::End)
    }

    fn after_white(text: &[u8]) -> &[u8] {
        after_blanks(text)
    }

    fn first_token(text: &[u8]) -> (AbnfKind, &[u8]) {
        first_of(text)
    }

    fn are_cut() {}
}
