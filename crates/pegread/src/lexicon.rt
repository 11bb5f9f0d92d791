//! How a grammar of peg(1) is cut into tokens.
ghost use Rattle.std.specs.Prelude.{◌≡◌};

use crate::kind::Kind;
use crate::lexing::{after_blanks, first_of};

impl lexer::Kind for Kind {
    ghost use Rattle.lexer.specs.SliceEnds.{NoPiece};
    ghost use Rattle.pegread.specs.Kinds.{is_end as ends_list};
    ghost use Rattle.pegread.specs.Slices.{Piece, White, Stands, First};

    ghost is_end = { ends_list };

    ghost white = { White };

    ghost dark = { NoPiece Piece };

    ghost stands = { Stands };

    ghost first = { First };

    fn is_last(self) -> bool {
        matches!(self, Kind::End)
    }

    fn after_white(text: &[u8]) -> &[u8] {
        after_blanks(text)
    }

    fn first_token(text: &[u8]) -> (Kind, &[u8]) {
        first_of(text)
    }

    fn are_cut() {}
}
