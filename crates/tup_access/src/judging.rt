//! What the end of a command is worth.
ghost use Rattle.std.specs.Prelude.{◌≡◌, [], None, IsOk, IfOk, IfErr};
ghost use Rattle.tup_access.specs.Judge as specs;
ghost use Rattle.tup_access.specs.Judge.{IsJudged};
ghost use Rattle.tup_access.specs.Written.{HasOutputs, HasLast, AreAllOwn, IsOutputOf, IsFileOf};
ghost use Rattle.tup_access.specs.Refusal.{Refuses, RefusesWrite, RefusesOutput, RefusesText, RefusesFile};

use crate::access::resolved;
use crate::fault::AccessFault;
use crate::refusal::Refusal;
use crate::verdict::Verdict;
use std::alloc::{AllocError, Global};
use std::collections::BTreeMap;
use tup_path::{Bytes, Files, Items, Path, Text};
use tup_rule::Rule;
use tup_runner::Ended;

/// The outputs of a rule, each with the content that was written to it last.
type LastWrites<'a> = BTreeMap<Path, Option<&'a Bytes>>;

/// What a command that ended is worth, and the files that it leaves: the outputs of its rule in their
/// order, each with the content that was written last, where it is `Good`, and else none.
///
/// A status other than 0 is `Failed`. Else the first write to a text that names no output is
/// `IllegalWrite`. Else the first output that wasn't written is `Unwritten`.
pub fn judge(alloc: Global, rule: &Rule, ended: &Ended) -> Result<(Verdict, Files), AccessFault>
    ensures { IfOk result (λ judged. IsJudged judged.0 judged.1 (specs.judge rule.now ended.now)) }
{
    match good_files(alloc, rule, ended) {
        Ok(files) => Ok((Verdict::Good, files)),
        Err(Refusal::Bad(verdict)) => Ok((verdict, Items::new(alloc))),
        Err(Refusal::Memory) => Err(AccessFault::Memory),
    }
}

/// The files of a command that did what its rule says.
fn good_files(alloc: Global, rule: &Rule, ended: &Ended) -> Result<Files, Refusal>
    ensures ok { IfOk result (λ files. specs.judge rule.now ended.now ≡ specs.good files) }
    ensures err { IfErr result (Refuses (specs.judge rule.now ended.now)) }
{
    if ended.status != 0 {
        return Err(Refusal::Bad(Verdict::Failed(ended.status)));
    }
    let writes = ended.writes.as_slice();
    let last = last_writes(alloc, rule, writes)?;
    output_files(alloc, rule, writes, &last)
}

/// The last content that was written to each output, where every write names one.
fn last_writes<'a>(
    alloc: Global,
    rule: &Rule,
    writes: &'a [(Text, Bytes)],
) -> Result<LastWrites<'a>, Refusal>
    ensures ok { IfOk result (AreAllOwn rule.now writes.now) }
    ensures err { IfErr result (RefusesWrite (specs.foreign_write rule.now writes.now)) }
{
    let mut last = unwritten(alloc, rule)?;
    for (text, content) in writes {
        let path = named_output(alloc, rule, &last, text)?;
        last.insert(path, Some(content))?;
    }
    Ok(last)
}

/// The outputs of a rule, none of them written.
fn unwritten<'a>(alloc: Global, rule: &Rule) -> Result<LastWrites<'a>, AllocError>
    ensures { IfOk result (HasLast rule.now []) }
{
    let mut last = BTreeMap::new(alloc);
    for output in rule.outputs.as_slice() {
        last.insert(output.clone()?, None)?;
    }
    Ok(last)
}

/// The output that a text names.
fn named_output(
    alloc: Global,
    rule: &Rule,
    outputs: &LastWrites<'_>,
    text: &Text,
) -> Result<Path, Refusal>
    requires { HasOutputs rule.now outputs.now }
    ensures ok { IfOk result (IsOutputOf rule.now text.now) }
    ensures err { IfErr result (RefusesText rule.now text.now) }
{
    match resolved(alloc, rule, text)? {
        Some(path) if outputs.contains_key(&path) => Ok(path),
        _ => Err(Refusal::Bad(Verdict::IllegalWrite(text.clone()?))),
    }
}

/// Each output with the content that was written to it last.
fn output_files(
    alloc: Global,
    rule: &Rule,
    writes: &[(Text, Bytes)],
    last: &LastWrites<'_>,
) -> Result<Files, Refusal>
    requires { HasLast rule.now writes.now last.now }
    ensures none { IsOk result → specs.unwritten rule.now writes.now ≡ None }
    ensures ok { IfOk result (λ files. files ≡ specs.files_of rule.now writes.now) }
    ensures err { IfErr result (RefusesOutput (specs.unwritten rule.now writes.now)) }
{
    let mut files = Items::new(alloc);
    for output in rule.outputs.as_slice() {
        files.push(output_file(output, last)?)?;
    }
    Ok(files)
}

/// An output with the content that was written to it last.
fn output_file(output: &Path, last: &LastWrites<'_>) -> Result<(Path, Bytes), Refusal>
    ensures ok { IfOk result (IsFileOf last.now output.now) }
    ensures err { IfErr result (RefusesFile last.now output.now) }
{
    match last.get(output) {
        Some(Some(content)) => Ok((output.clone()?, (*content).clone()?)),
        _ => Err(Refusal::Bad(Verdict::Unwritten(output.clone()?))),
    }
}
