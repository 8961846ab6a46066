//! The files as a command sees them that a seat of a shared board runs.
ghost use Rattle.std.specs.Prelude.{◌≡◌, true, None, Some, slice_get};
ghost use Rattle.tup_core.specs.declared.running.Running.{Running as RunningValue};
ghost use Rattle.tup_board.specs.Entries.{runs_after};
ghost use Rattle.tup_board.specs.Seat.{is_granted, refusal_of};

use crate::asking::Asking;
use crate::gate::{Gate, When};
use std::alloc::Global;
use tup_board::{Refused, answer, refusal};
use tup_core::Plan;
use tup_path::{Path, Text};
use tup_rule::Rule;
use tup_runner::{Answer, View, ViewFailed};

/// The view of the command that a seat runs. What other seats do meanwhile isn't seen.
#[derive(Drop)]
pub(crate) struct LockView<'l, 's, 'p, 'r, 'g, 'n, K: Asking, G: Gate> {
    pub(crate) lock: &'l K,
    pub(crate) seat: &'s mut K::Place,
    pub(crate) plan: &'p Plan,
    pub(crate) rule: &'r Rule,
    pub(crate) gate: &'g G,
    /// What it refused. The caller keeps it.
    pub(crate) refused: &'n mut Option<Refused>,
    ghost belongs: { ∥ K.is_at lock.now seat.now ∥₁ },
    ghost of_board: { plan.now ≡ K.plan_at seat.now },
    ghost placed: { (running : RunningValue) → runs_after None (K.told_at seat.now).entries ≡ Some running
        → slice_get plan.now.rules running.rule ≡ Some rule.now },
    ghost goes: { refusal_of refused.now ≡ None
        → is_granted (runs_after None (K.told_at seat.now).entries) ≡ true },
}

impl<K: Asking, G: Gate> View for LockView<'_, '_, '_, '_, '_, '_, K, G> {
    ghost use Rattle.std.specs.Prelude.{◌≡◌, [], false, refl};
    ghost use Rattle.std.proofs.Common.{◌∙◌, ap};
    ghost use Rattle.std.proofs.lemmas.Bool.{false≢true};
    ghost use Rattle.tup_board.specs.Seat.{refusal_of};
    ghost use Rattle.tup_workers.specs.Told.{CameBy, KeepsBy};
    ghost use Rattle.tup_workers.specs.ToldLaws.{came_none, came_then, keeps_none, keeps_then};

    ghost tells = { false };

    ghost asks = { λ _. [] };

    ghost came = { λ first some last. CameBy K.tells_known
        (K.told_at first.seat.now) (refusal_of first.refused.now) some
        (K.told_at last.seat.now) (refusal_of last.refused.now) };

    ghost refusal = { λ view. refusal_of view.refused.now };

    ghost outputs = { λ view. view.rule.now.outputs };

    ghost same = { λ first last. (last.rule ≡ first.rule) × (last.plan ≡ first.plan)
        × (last.lock ≡ first.lock) × (last.gate ≡ first.gate)
        × (last.seat.ghost_name ≡ first.seat.ghost_name)
        × (last.refused.ghost_name ≡ first.refused.ghost_name)
        × (K.number_at last.seat.now ≡ K.number_at first.seat.now)
        × KeepsBy K.tells_known (K.told_at first.seat.now) (refusal_of first.refused.now)
        (K.told_at last.seat.now) (refusal_of last.refused.now) };

    fn ask(&mut self, alloc: Global, text: &Text) -> Result<Answer, ViewFailed> {
        let asked = self.lock.ask_there(alloc, self.seat, self.plan, text);
        self.gate
            .pass(self.lock.number_there(self.seat), When::Asked);
        *self.refused = refusal(text, &asked);
        answer(asked)
    }

    fn own(&self) -> &[Path] {
        self.rule.outputs.as_slice()
    }

    ghost stays = { λ view. came_none K.tells_known (K.told_at view.seat.now) (refusal_of view.refused.now) };

    ghost goes_on = { λ first next last some more one two. came_then K.tells_known
        (K.told_at first.seat.now) (K.told_at next.seat.now) (K.told_at last.seat.now)
        (refusal_of first.refused.now) (refusal_of next.refused.now) (refusal_of last.refused.now)
        some more one two };

    ghost same_itself = { λ view. (
      refl,
      refl,
      refl,
      refl,
      refl,
      refl,
      refl,
      keeps_none K.tells_known (K.told_at view.seat.now) (refusal_of view.refused.now),
    ) };

    ghost same_on = { λ first next last one two. (
      two.0 ∙ one.0,
      two.1 ∙ one.1,
      two.2 ∙ one.2,
      two.3 ∙ one.3,
      two.4 ∙ one.4,
      two.5 ∙ one.5,
      two.6 ∙ one.6,
      keeps_then K.tells_known
          (K.told_at first.seat.now) (K.told_at next.seat.now) (K.told_at last.seat.now)
          (refusal_of first.refused.now) (refusal_of next.refused.now) (refusal_of last.refused.now)
          one.7 two.7,
    ) };

    ghost same_outputs = { λ first last one. ap (λ rule. rule.now.outputs) one.0 };

    ghost told = { λ first last some tells came. absurd (false≢true tells) };
}
