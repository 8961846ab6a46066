//! The files of a build, as the command of one rule may see them.
ghost use Rattle.std.specs.Prelude.{◌≡◌, ℕ, List, Some, IfOk};
ghost use Rattle.tup_access.specs.declared.verdict.Verdict.{Verdict as VerdictValue};
ghost use Rattle.tup_access.specs.declared.verdict.Access.TheVariants.{No};
ghost use Rattle.tup_access.specs.Access.{access as access_of};
ghost use Rattle.tup_access.specs.Generated.{IsGenerated};
ghost use Rattle.tup_access.specs.Inputs.{AreInputs};
ghost use Rattle.tup_access.specs.Verdict.{answer as answer_of};
ghost use Rattle.tup_clean.specs.Reads.{AreInputs-prop};

use crate::tree::FileTree;
use std::alloc::{AllocError, Global};
use std::collections::BTreeSet;
use tup_access::{Access, Inputs, Verdict, allowed};
use tup_path::{Path, Text};
use tup_rule::Rule;
use tup_runner::{Answer, Stamped, View, ViewFailed};

/// A rule among those of its project, and the files over which it is run.
#[derive(Drop)]
pub(crate) struct Sight<'a> {
    pub rules: &'a [Rule],
    /// What the rules make.
    pub generated: &'a BTreeSet<Path>,
    pub rule: &'a Rule,
    /// What the rule declares.
    pub inputs: &'a Inputs,
    pub tree: &'a FileTree,
}

/// The view of the rule's command.
#[derive(Drop)]
pub(crate) struct FileView<'a> {
    pub sight: Sight<'a>,
    /// How many asks were answered.
    pub asked: u32,
    /// What was denied, and the verdict that this is.
    pub denied: Option<(Text, Verdict)>,
    ghost knows: { IsGenerated sight.rules.now sight.generated.now },
    ghost reads: { AreInputs sight.rule.now sight.inputs.now } by { AreInputs-prop sight.rule.now sight.inputs.now },
    ghost denies: { (text : List ℕ) (verdict : VerdictValue) → denied ≡ Some (text, verdict)
        → access_of sight.rules.now sight.rule.now asked text ≡ No verdict },
}

impl FileView<'_> {
    fn answer(&self, path: &Path) -> Result<Answer, AllocError>
        ensures { IfOk result (λ given. given
            ≡ answer_of self.now.sight.rule.now self.now.sight.tree.now path.now) }
    {
        if self.sight.rule.writes(path) {
            return Ok(Answer::Absent);
        }
        match self.sight.tree.get(path) {
            Some(content) => Ok(Answer::Content(Stamped::new(content.clone()?))),
            None => Ok(Answer::Absent),
        }
    }
}

impl View for FileView<'_> {
    ghost use Rattle.std.specs.Prelude.{◌≡◌, [], false, refl};
    ghost use Rattle.std.proofs.Common.{◌∙◌, ap, subst};
    ghost use Rattle.std.proofs.lemmas.Bool.{false≢true};
    ghost use Rattle.tup_clean.specs.declared.view.Sight.{Sight as SightValue};
    ghost use Rattle.tup_access.specs.Answered.{HasSeen};
    ghost use Rattle.tup_access.proofs.Asked.{seen_none, seen_on};
    ghost use Rattle.tup_clean.specs.Denial.{denial};

    ghost tells = { false };

    ghost asks = { λ _. [] };

    ghost came = { λ first some last. (last.sight ≡ first.sight)
        × HasSeen first.sight.rules.now first.sight.rule.now first.sight.tree.now
        first.asked some last.asked };

    ghost refusal = { λ view. denial view.denied };

    ghost outputs = { λ view. view.sight.rule.now.outputs };

    ghost same = { λ first last. last.sight ≡ first.sight };

    fn ask(&mut self, alloc: Global, text: &Text) -> Result<Answer, ViewFailed> {
        match allowed(
            alloc,
            self.sight.rule,
            self.sight.inputs,
            self.sight.generated,
            text,
            self.asked,
        )? {
            Access::Yes(path) => {
                let answer = self.answer(&path)?;
                self.asked += 1;
                Ok(answer)
            }
            Access::No(verdict) => {
                self.denied = Some((text.clone()?, verdict));
                Err(ViewFailed::Denied)
            }
        }
    }

    fn own(&self) -> &[Path] {
        self.sight.rule.outputs.as_slice()
    }

    ghost stays = { λ view. (refl, seen_none _ _ _ view.asked) };

    ghost goes_on = { λ first next last some more one two. (
      two.0 ∙ one.0,
      seen_on
          _ _ _ first.asked next.asked last.asked some more one.1
          (subst (λ (s : SightValue). HasSeen s.rules.now s.rule.now s.tree.now next.asked more last.asked) one.0 two.1),
    ) };

    ghost same_itself = { λ view. refl };

    ghost same_on = { λ first next last one two. two ∙ one };

    ghost same_outputs = { λ first last one. ap (λ (s : SightValue). s.rule.now.outputs) one };

    ghost told = { λ first last some tells came. absurd (false≢true tells) };
}
