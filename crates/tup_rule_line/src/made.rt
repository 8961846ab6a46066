//! The rules so far, and what they make.
ghost use Rattle.std.specs.Prelude.{◌≡◌, ◌++◌, ◌∷◌, [], IfOk};
ghost use Rattle.tup_rule.specs.Rule.{among};
ghost use Rattle.std.specs.List.{list_any};
ghost use Rattle.tup_rule_line.specs.Below.{is_below};
ghost use Rattle.tup_rule_line.specs.Making.{made_by, is_made};

use crate::path_set::PathSet;
use std::alloc::{AllocError, Global};
use std::marker::Model;
use tup_path::Path;
use tup_rule::{Draft, Drafts};

/// Rules in the order of their lines, with the places of what they make. Contracts see the list of
/// rules.
#[derive(Drop)]
pub struct Made {
    drafts: Drafts,
    outputs: PathSet,
}

impl Model for Made {
    ghost use Rattle.std.specs.Prelude.{List};
    ghost use Rattle.tup_rule.specs.declared.draft.Draft.{Draft as Rule};
    ghost use Rattle.tup_rule_line.specs.Making.{Knows};

    ghost Value = { List Rule };

    ghost view = { λ made. made.drafts };

    ghost invariant = { λ made. Knows made.outputs made.drafts };
}

impl Made {
    /// No rule yet.
    pub(crate) fn new(alloc: Global) -> Made
        ensures { result ≡ [] }
    {
        Made {
            drafts: Drafts::new(alloc),
            outputs: PathSet::new(alloc),
        }
    }

    /// The rules.
    pub(crate) fn as_slice(&self) -> &[Draft]
        ensures { result.now ≡ self.now }
    {
        self.drafts.as_slice()
    }

    /// The rules alone.
    pub fn into_drafts(self) -> Drafts
        ensures { result ≡ self }
    {
        self.drafts
    }

    /// Whether a path is an output of one of the rules.
    pub(crate) fn has(&self, path: &Path) -> bool
        ensures { result ≡ is_made self.now path.now }
    {
        self.outputs.has(path)
    }

    /// Whether an output of one of the rules lies below a path.
    pub(crate) fn has_below(&self, path: &Path) -> bool
        ensures { result ≡ list_any (is_below path.now) (made_by self.now) }
    {
        self.outputs.has_below(path)
    }

    /// One more rule at the end.
    pub(crate) fn with(self, alloc: Global, draft: Draft) -> Result<Made, AllocError>
        ensures { IfOk result (λ made. made ≡ self ++ draft ∷ []) }
    {
        let Made {
            mut drafts,
            outputs,
        } = self;
        let outputs = outputs.with_all(alloc, draft.outputs.as_slice())?;
        drafts.push(draft)?;
        Ok(Made { drafts, outputs })
    }
}

/// Whether a path is an output of one of these rules.
pub fn is_made(drafts: &[Draft], path: &Path) -> bool
    ensures { result ≡ is_made drafts.now path.now }
{
    drafts
        .iter()
        .any(|draft| is_among(draft.outputs.as_slice(), path))
}

/// Whether a path is one of these.
fn is_among(paths: &[Path], path: &Path) -> bool
    ensures { result ≡ among path.now paths.now }
{
    paths.iter().any(|one| path == one)
}
