//! A view that remembers what it is asked.
ghost use Rattle.std.specs.Prelude.{◌≡◌};

use crate::fault::ViewFailed;
use crate::ghost_asks::GhostAsks;
use crate::step::Answer;
use crate::view::View;
use std::alloc::Global;
use tup_path::{Path, Text};

/// A view that asks another and remembers what it is asked. `A` is `GhostAsks`.
#[derive(Drop)]
pub(crate) struct Recording<'v, V: View, A> {
    pub(crate) view: &'v mut V,
    pub(crate) asks: A,
}

/// Gives the asks back.
pub(crate) fn into_asks<V: View, A: Drop>(recording: Recording<'_, V, A>) -> A
    ensures asks { result ≡ recording.entry.asks }
    ensures view { recording.exit.0.now ≡ recording.entry.view.now }
{
    let Recording { view: _, asks } = recording;
    asks
}

impl<V: View> View for Recording<'_, V, GhostAsks> {
    ghost use Rattle.std.specs.Prelude.{◌≡◌, ◌++◌, true};
    ghost use Rattle.std.proofs.Common.{refl, sym, ap, ◌∙◌, append_assoc};
    ghost use Rattle.std.proofs.lemmas.List.{append-nil};
    ghost use Rattle.tup_runner.specs.Next.{Asks as AsksValue};

    ghost tells = { true };

    ghost asks = { λ r. r.asks };

    ghost came = { λ first some last. (last.asks ≡ first.asks ++ some)
        × V.came first.view.now some last.view.now };

    ghost refusal = { λ r. V.refusal r.view.now };

    ghost outputs = { λ r. V.outputs r.view.now };

    ghost same = { λ first last. V.same first.view.now last.view.now
        × (last.view.ghost_name ≡ first.view.ghost_name) };

    fn ask(&mut self, alloc: Global, text: &Text) -> Result<Answer, ViewFailed> {
        let answer = self.view.ask(alloc, text)?;
        self.asks.push(text, &answer)?;
        Ok(answer)
    }

    fn own(&self) -> &[Path] {
        self.view.own()
    }

    ghost stays = { λ view. (sym (append-nil view.asks), V.stays view.view.now) };

    ghost goes_on = { λ first next last some more one two. (
      two.0
          ∙ ap (λ (l : AsksValue). l ++ more) one.0 ∙ append_assoc first.asks some more,
      V.goes_on
          first.view.now next.view.now last.view.now some more one.1 two.1,
    ) };

    ghost same_itself = { λ view. (V.same_itself view.view.now, refl) };

    ghost same_on = { λ first next last one two. (
      V.same_on
          first.view.now next.view.now last.view.now one.0 two.0,
      two.1 ∙ one.1,
    ) };

    ghost same_outputs = { λ first last one. V.same_outputs first.view.now last.view.now one.0 };

    ghost told = { λ first last some tells came. came.0 };
}
