//! The judge of lines that C holds.
ghost use Rattle.std.specs.Prelude.{◌≡◌, is_some, None, Some, true};

use crate::judge_box::JudgeBox;
use crate::loose::Loose;
use abnfrun::AbnfJudge;
use std::alloc::Global;
use std::mem::replace;

/// A judge of lines that C holds, or none. C gives it back as it was given.
#[repr(C)]
#[derive(Drop)]
pub struct CJudge {
    /// The judge.
    pub judge: JudgeBox,
    /// Whether there is one.
    pub is_open: bool,
    ghost right: { is_open ≡ is_some judge.held },
}

/// Puts a judge into C's handle.
pub(crate) fn put_judge(judge: Box<AbnfJudge>, slot: &mut CJudge)
    ensures { slot.new.judge.held ≡ Some judge.value }
{
    *slot = CJudge {
        judge: JudgeBox::seal(Loose::of(judge)),
        is_open: true,
    };
}

/// Takes the judge out of C's handle, where there is one.
pub(crate) fn take_judge(alloc: Global, slot: &mut CJudge) -> Box<AbnfJudge>
    requires { slot.old.is_open ≡ true }
    ensures judge { slot.old.judge.held ≡ Some result.value }
    ensures none { slot.new.judge.held ≡ None }
{
    let none = CJudge {
        judge: JudgeBox::empty(alloc),
        is_open: false,
    };
    let CJudge { judge, is_open: _ } = replace(slot, none);
    judge.unseal().into_box()
}
