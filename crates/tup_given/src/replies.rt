//! What a command is answered, in order.
ghost use Rattle.std.specs.Prelude.{◌≡◌, ◌∷◌, ◌++◌, [], length, None, OnOk, OnErr};

use std::alloc::{AllocFailed, Global};
use tup_path::{Path, Text};
use tup_runner::{Answer, Asks, View, ViewFailed};

/// A view that gives the answers of a list in their order, each to the text that stands with it, and
/// denies any other ask.
#[derive(Drop)]
pub struct Replies {
    given: Asks,
    /// How many of them were asked for.
    asked: usize,
    /// The text that was denied.
    denied: Option<Text>,
}

impl Replies {
    /// These, from the first on.
    pub fn new(given: Asks) -> Replies
        ensures given { result.given ≡ given }
        ensures asked { result.asked ≡ 0 }
        ensures denied { result.denied ≡ None }
    {
        Replies {
            given,
            asked: 0,
            denied: None,
        }
    }

    /// All of them, each with its text.
    pub fn given(&self) -> &[(Text, Answer)]
        ensures { result.now ≡ self.now.given }
    {
        self.given.as_slice()
    }

    /// How many there are.
    pub fn len(&self) -> usize
        ensures { result ≡ length self.now.given }
    {
        self.given.len()
    }

    /// How many of them were asked for.
    pub fn asked(&self) -> usize
        ensures { result ≡ self.now.asked }
    {
        self.asked
    }

    /// Adds what a text is answered, at the end.
    pub fn add(&mut self, text: Text, answer: Answer) -> Result<(), AllocFailed<(Text, Answer)>>
        ensures ok { OnOk result (self.new.given ≡ self.old.given ++ (text, answer) ∷ []) }
        ensures err { OnErr result (self.new.given ≡ self.old.given) }
        ensures asked { self.new.asked ≡ self.old.asked }
        ensures denied { self.new.denied ≡ self.old.denied }
    {
        self.given.push((text, answer))
    }

    /// Begins anew with the first; nothing is denied yet.
    pub fn rewind(&mut self)
        ensures given { self.new.given ≡ self.old.given }
        ensures asked { self.new.asked ≡ 0 }
        ensures denied { self.new.denied ≡ None }
    {
        self.asked = 0;
        self.denied = None;
    }

    /// The text that was denied, if one was; then nothing is.
    pub fn take_denied(&mut self) -> Option<Text>
        ensures gives { result ≡ self.old.denied }
        ensures given { self.new.given ≡ self.old.given }
        ensures asked { self.new.asked ≡ self.old.asked }
        ensures denied { self.new.denied ≡ None }
    {
        self.denied.take()
    }
}

impl View for Replies {
    ghost use Rattle.std.specs.Prelude.{true, refl};
    ghost use Rattle.std.proofs.Common.{◌∙◌, ap, sym, append_assoc};
    ghost use Rattle.std.proofs.lemmas.List.{append-nil};
    ghost use Rattle.tup_runner.specs.Next.{Asks};
    ghost use Rattle.tup_given.specs.Replies.{answered, ComesOn, refusal_of};

    ghost tells = { true };

    ghost asks = { answered };

    ghost came = { ComesOn };

    ghost refusal = { refusal_of };

    ghost outputs = { λ _. [] };

    ghost same = { λ first last. last.given ≡ first.given };

    fn ask(&mut self, _alloc: Global, text: &Text) -> Result<Answer, ViewFailed> {
        match self.given.as_slice().get(self.asked) {
            Some((asked, answer)) if asked == text => {
                let answer = answer.clone()?;
                self.asked += 1;
                Ok(answer)
            }
            _ => {
                self.denied = Some(text.clone()?);
                Err(ViewFailed::Denied)
            }
        }
    }

    fn own(&self) -> &[Path] {
        &[]
    }

    ghost stays = { λ replies. (refl, sym (append-nil (answered replies))) };

    ghost goes_on = { λ first next last some more one two. (
      two.0 ∙ one.0,
      two.1 ∙ ap (λ (l : Asks). l ++ more) one.1 ∙ append_assoc (answered first) some more,
    ) };

    ghost same_itself = { λ _. refl };

    ghost same_on = { λ first next last one two. two ∙ one };

    ghost same_outputs = { λ _ _ _. refl };

    ghost told = { λ first last some tells came. came.1 };
}
