//! A caller of `linejudge`.
ghost use Rattle.std.specs.Prelude.{◌≡◌, false, true};
ghost use Rattle.uses.specs.CommentLines.{IsCommentAnswer, LacksSign, comment_form};
ghost use Rattle.linejudge.specs.LineRefusals.{LinesStates};
ghost use Rattle.toolrun.specs.Stopped.{Fulfils};
ghost use Rattle.toolrun.specs.Stream.{passed};

use feed::Source;
use linejudge::{Answer, Judge, LineForm, NoAnswer, Printed, run_lines};
use ruletable::{Memory, Sink, WriteFault};
use std::alloc::Global;
use toolrun::Ending;

/// A judge of lines by their first byte. It explains what the rejected ones lack.
#[derive(Drop)]
pub struct Comments {
    /// Allocates the explanations.
    alloc: Global,
}

impl Judge<()> for Comments {
    ghost reported = { λ _ line said. IsCommentAnswer line said };

    ghost costly = { λ _ _ _. ⊥ };

    ghost explains = { λ _. true };

    ghost refusal = { λ _. LacksSign };

    ghost served = { λ _. 65536 };

    ghost works_in = { λ _ _. Unit {0} };

    fn judge(&self, _work: &mut (), line: &[u8]) -> Result<Answer, NoAnswer> {
        if line.first() == Some(&b'#') {
            return Ok(Answer::Yes);
        }
        Ok(Answer::No)
    }

    fn is_explained(&self) -> bool {
        true
    }

    fn explain(&self, _work: &mut (), _line: &[u8], _number: usize) -> Result<Vec<u8>, Memory> {
        let mut why = Vec::new(self.alloc);
        why.extend_from_slice(b"a comment begins with #\n")?;
        Ok(why)
    }

    fn decided(&self) {}
}

/// Writes `yes` for each line of an input that begins with `#`, and `no` for any other. The ending holds the
/// explanations of the first 16 lines that are rejected, and how many more there are.
pub fn answer_comments<R: Source, O: Sink>(
    alloc: Global,
    reader: &mut R,
    out: &mut O,
) -> Result<Ending, WriteFault>
    requires reader_is_fresh { R.failed reader.old ≡ false }
    requires reader_is_open { R.ended reader.old ≡ false }
    requires out_is_fresh { O.failed out.old ≡ false }
    ensures { Fulfils (LinesStates IsCommentAnswer true LacksSign (λ _ _. ⊥) comment_form)
        (passed R.remaining R.failed reader.old reader.new) (passed O.contents O.failed out.old out.new) result }
{
    let form = LineForm {
        limit: 65_536,
        end: b'\n',
        keeps: false,
        printed: Printed::Answers,
        name: None,
        numbered: false,
        stops: false,
        line_buffered: false,
    };
    run_lines(alloc, &Comments { alloc }, &mut (), form, reader, out)
}
