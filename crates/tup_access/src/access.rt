//! What a command may ask for.
ghost use Rattle.std.specs.Prelude.{◌≡◌, List, Ok, IfOk};
ghost use Rattle.std.specs.Result.{result_ok};
ghost use Rattle.tup_path.specs.Gives.{GivesUnless};
ghost use Rattle.tup_path.specs.Resolve.{resolve};
ghost use Rattle.tup_rule.specs.declared.rule.Rule.{Rule as RuleValue};
ghost use Rattle.tup_access.specs.Access.{access, may_read as may_read_of};
ghost use Rattle.tup_access.specs.Generated.{IsGenerated};
ghost use Rattle.tup_access.specs.Inputs.{AreInputs};

use crate::fault::AccessFault;
use crate::inputs::Inputs;
use crate::verdict::{Access, Verdict};
use std::alloc::{AllocError, Global};
use std::collections::BTreeSet;
use tup_path::{Path, PathFault, Text};
use tup_rule::Rule;

/// The ask at which a command is stopped: it may ask once less.
pub const MAX_ASKS: u32 = 65_536;

/// Whether a command may ask for a text, after so many asks. `generated` has the outputs of all rules, and `inputs` what this
/// one declares.
///
/// The 65,536th ask is `TooManyReads`. Any other is `IllegalRead` where the text names no path, or a
/// generated file that the rule neither declares nor writes.
pub fn allowed(
    alloc: Global,
    rule: &Rule,
    inputs: &Inputs,
    generated: &BTreeSet<Path>,
    text: &Text,
    asked_before: u32,
) -> Result<Access, AccessFault>
    ensures { (rules : List RuleValue) → IsGenerated rules generated.now
        → AreInputs rule.now inputs.now
        → GivesUnless result AccessFault.Memory (Ok (access rules rule.now asked_before text.now)) }
{
    if asked_before >= MAX_ASKS - 1 {
        return Ok(Access::No(Verdict::TooManyReads));
    }
    match resolved(alloc, rule, text)? {
        Some(path) if may_read(rule, inputs, generated, &path) => Ok(Access::Yes(path)),
        _ => Ok(Access::No(Verdict::IllegalRead(text.clone()?))),
    }
}

fn may_read(rule: &Rule, inputs: &Inputs, generated: &BTreeSet<Path>, path: &Path) -> bool
    ensures { (rules : List RuleValue) → IsGenerated rules generated.now
        → AreInputs rule.now inputs.now
        → result ≡ may_read_of rules rule.now path.now }
{
    if !generated.contains(path) {
        return true;
    }
    if inputs.declare(rule, path) {
        return true;
    }
    rule.writes(path)
}

/// The path that a text names from a rule's folder, or `None` where it names none.
pub(crate) fn resolved(alloc: Global, rule: &Rule, text: &Text) -> Result<Option<Path>, AllocError>
    ensures { IfOk result (λ path. path ≡ result_ok (resolve rule.now.dir text.now)) }
{
    match Path::resolve(alloc, &rule.dir, text) {
        Ok(path) => Ok(Some(path)),
        Err(PathFault::Memory) => Err(AllocError),
        Err(_) => Ok(None),
    }
}
