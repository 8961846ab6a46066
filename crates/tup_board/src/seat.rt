//! The files as a command sees them that a seat of a board runs.
ghost use Rattle.std.specs.Prelude.{◌≡◌, true, None};
ghost use Rattle.tup_board.specs.Board.{plan_of, state};
ghost use Rattle.tup_board.specs.Seat.{answer_by, is_granted, refusal_of, refused_by};

use crate::answers::Asked;
use crate::desk::Desk;
use std::alloc::Global;
use std::snapshot::Snapshot;
use tup_core::Plan;
use tup_path::{Path, Text};
use tup_rule::Rule;
use tup_rule_outputs::BoardFault;
use tup_runner::{Answer, View, ViewFailed};

/// A text that wasn't answered, for contracts alone.
#[derive(Drop)]
pub struct Refused {
    text: Snapshot<Text>,
    why: ViewFailed,
}

/// The view of the command that a seat runs.
#[derive(Drop)]
pub(crate) struct SeatView<'b, 'p, 'r, 'n, D: Desk> {
    pub(crate) board: &'b mut D,
    pub(crate) plan: &'p Plan,
    pub(crate) rule: &'r Rule,
    pub(crate) seat: u32,
    /// What it refused. The caller keeps it.
    pub(crate) refused: &'n mut Option<Refused>,
    ghost of_board: { plan.now ≡ plan_of (D.board board.now) },
    ghost goes: { refusal_of refused.now ≡ None
        → is_granted ((state (D.board board.now)).seats seat) ≡ true },
}

impl<D: Desk> View for SeatView<'_, '_, '_, '_, D> {
    ghost use Rattle.std.specs.Prelude.{◌≡◌, [], false, refl};
    ghost use Rattle.std.proofs.Common.{◌∙◌, ap};
    ghost use Rattle.std.proofs.lemmas.Bool.{false≢true};
    ghost use Rattle.tup_board.specs.Seat.{CameBy, KeepsSeat, refusal_of};
    ghost use Rattle.tup_board.specs.CameLaws.{came_none, came_then, keeps_none, keeps_then};

    ghost tells = { false };

    ghost asks = { λ _. [] };

    ghost came = { λ first some last. (last.seat ≡ first.seat)
        × CameBy D.Site.Site first.seat (D.board first.board.now) (refusal_of first.refused.now)
        some (D.board last.board.now) (refusal_of last.refused.now) };

    ghost refusal = { λ view. refusal_of view.refused.now };

    ghost outputs = { λ view. view.rule.now.outputs };

    ghost same = { λ first last. (last.rule ≡ first.rule) × (last.plan ≡ first.plan)
        × (last.seat ≡ first.seat) × (last.board.ghost_name ≡ first.board.ghost_name)
        × (last.refused.ghost_name ≡ first.refused.ghost_name)
        × KeepsSeat D.Site.Site first.seat (D.board first.board.now) (refusal_of first.refused.now)
        (D.board last.board.now) (refusal_of last.refused.now) };

    fn ask(&mut self, alloc: Global, text: &Text) -> Result<Answer, ViewFailed> {
        let reply = self.board.reply(alloc, self.plan, self.seat, text);
        *self.refused = refusal(text, &reply);
        answer(reply)
    }

    fn own(&self) -> &[Path] {
        self.rule.outputs.as_slice()
    }

    ghost stays = { λ view. (
      refl,
      came_none D.Site.Site.own view.seat (D.board view.board.now) (refusal_of view.refused.now),
    ) };

    ghost goes_on = { λ first next last some more one two. (
      two.0 ∙ one.0,
      came_then
          D.Site.Site.own first.seat next.seat one.0
          (D.board first.board.now) (D.board next.board.now) (D.board last.board.now)
          (refusal_of first.refused.now) (refusal_of next.refused.now) (refusal_of last.refused.now)
          some more one.1 two.1,
    ) };

    ghost same_itself = { λ view. (
      refl,
      refl,
      refl,
      refl,
      refl,
      keeps_none D.Site.Site.own view.seat (D.board view.board.now) (refusal_of view.refused.now),
    ) };

    ghost same_on = { λ first next last one two. (
      two.0 ∙ one.0,
      two.1 ∙ one.1,
      two.2 ∙ one.2,
      two.3 ∙ one.3,
      two.4 ∙ one.4,
      keeps_then
          D.Site.Site.own first.seat next.seat one.2
          (D.board first.board.now) (D.board next.board.now) (D.board last.board.now)
          (refusal_of first.refused.now) (refusal_of next.refused.now) (refusal_of last.refused.now)
          one.5 two.5,
    ) };

    ghost same_outputs = { λ first last one. ap (λ rule. rule.now.outputs) one.0 };

    ghost told = { λ first last some tells came. absurd (false≢true tells) };
}

/// What is noted of a text by what the board replied.
pub fn refusal(text: &Text, reply: &Result<Asked, BoardFault>) -> Option<Refused>
    ensures { refusal_of result ≡ refused_by text.now reply.now }
{
    let why = match reply {
        Ok(Asked::Content(_) | Asked::Absent) | Err(BoardFault::Memory) => return None,
        Ok(Asked::Denied(_)) => ViewFailed::Denied,
        Err(BoardFault::Site | BoardFault::TooLarge(_) | BoardFault::Full) => ViewFailed::Fault,
    };
    Some(Refused {
        text: Snapshot::of(text),
        why,
    })
}

/// What the view answers then.
pub fn answer(reply: Result<Asked, BoardFault>) -> Result<Answer, ViewFailed>
    ensures { result ≡ answer_by reply }
{
    match reply {
        Ok(Asked::Content(content)) => Ok(Answer::Content(content)),
        Ok(Asked::Absent) => Ok(Answer::Absent),
        Ok(Asked::Denied(_)) => Err(ViewFailed::Denied),
        Err(BoardFault::Memory) => Err(ViewFailed::Memory),
        Err(BoardFault::Site | BoardFault::TooLarge(_) | BoardFault::Full) => {
            Err(ViewFailed::Fault)
        }
    }
}
