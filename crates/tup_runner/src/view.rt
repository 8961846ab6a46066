//! What a command sees of the files.
ghost use Rattle.std.specs.Prelude.{◌≡◌, Bool, List, [], ◌∷◌, ◌++◌, ◌≢◌, Option, None, Err, IfOk, IfErr, IsTrue};
ghost use Rattle.tup_path.specs.Name.{Names};
ghost use Rattle.tup_runner.specs.Next.{Asks};
ghost use Rattle.tup_runner.specs.Refusal.{Refusal, refused};

use crate::fault::ViewFailed;
use crate::step::Answer;
use std::alloc::Global;
use tup_path::{Path, Text};

/// The files as one command may see them, each by a text relative to the command's folder.
///
/// A view keeps in mind what it was asked and answered, and whether it refused an ask, which is the end of its
/// command: it is asked nothing more then.
pub trait View {
    /// Whether the view tells the list of its asks.
    ghost tells: { Bool };

    /// What it was asked so far, each with its answer, where it tells this; a refusal is none.
    ghost asks: { Self → Asks };

    /// It came from one state to the other by just these asks with these answers.
    ghost came: { Self → Asks → Self → Type 0 };

    /// What it refused.
    ghost refusal: { Self → Option Refusal };

    /// The outputs of the command's own rule.
    ghost outputs: { Self → List Names };

    /// It is the same view in another state: what it looks at, and all that it holds, is the same.
    ghost same: { Self → Self → Type 0 };

    /// What stands there, or that nothing does. A file of the rule's own outputs is absent.
    ///
    /// `Denied` is a file that the command may not ask for; after `Fault` the files can't be reached. Both leave the
    /// list of asks as it was. After `Memory`, which does too, the view may have come on by this ask all the same,
    /// and is good for nothing more.
    fn ask(&mut self, alloc: Global, text: &Text) -> Result<Answer, ViewFailed>
        requires { refusal self.old ≡ None }
        ensures answered { IfOk result (λ answer.
            came self.old ((text.now, answer) ∷ []) self.new) }
        ensures unanswered { IfErr result (λ failed.
            failed ≢ ViewFailed.Memory → came self.old [] self.new) }
        ensures memory { IsTrue tells → result ≡ Err ViewFailed.Memory
            → asks self.new ≡ asks self.old }
        ensures refuses { refusal self.new ≡ refused text.now result }
        ensures same { same self.old self.new };

    /// The outputs of the command's own rule, which the view answers as absent.
    fn own(&self) -> &[Path]
        ensures { result.now ≡ outputs self.now };

    /// A state is reached from itself by no asks.
    ghost stays: { (view : Self) → came view [] view };

    /// Asks that follow one another are asks.
    ghost goes_on: { (first next last : Self) (some more : Asks) → came first some next
        → came next more last → came first (some ++ more) last };

    /// A view is the same as itself,
    ghost same_itself: { (view : Self) → same view view };

    /// and stays so from state to state,
    ghost same_on: { (first next last : Self) → same first next → same next last
        → same first last };

    /// with the outputs of its rule.
    ghost same_outputs: { (first last : Self) → same first last
        → outputs last ≡ outputs first };

    /// A view that tells its asks keeps their list.
    ghost told: { (first last : Self) (some : Asks) → IsTrue tells → came first some last
        → asks last ≡ asks first ++ some };
}
