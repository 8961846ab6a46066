//! The cause of one planned rule.
ghost use Rattle.std.specs.Prelude.{◌≡◌, ◌≢◌, ℕ, Option, true, false, None, All, Some, Contains, IfOk, IfErr, MatchOption};
ghost use Rattle.std.specs.FinMap as finite;
ghost use Rattle.tup_path.specs.Name.{Names};
ghost use Rattle.tup_stamp.specs.declared.Stamp.{Stamp as StampValue};
ghost use Rattle.tup_rule.specs.Rule.{writes};
ghost use Rattle.tup_graph.specs.Above.{HasAsked};
ghost use Rattle.tup_graph.specs.Kept.{HasSeenStamps};
ghost use Rattle.tup_why.specs.Cause.{GiveNone, GivesNone, IsCause, SeesAsks};
ghost use Rattle.tup_why.specs.Makers.{AreMakers};
ghost use Rattle.tup_why.specs.Reason.{HasOther, IsOtherAsk, IsOtherWrite, IsPlanned};

use crate::fault::WhyFault;
use tup_closure::Lists;
use tup_core::Plan;
use tup_graph::Nodes;
use tup_path::Path;
use tup_record::RunRecord;
use tup_rule::Rule;
use tup_stamp::Stamp;

/// What is found out of a planned rule.
#[derive(Drop)]
pub(crate) enum Cause {
    /// It has no record.
    New,
    /// Its record has another stamp of this path than the seen one.
    Changed(Path),
    /// Its record asks this output of a planned rule that has no record.
    ReadsNew { maker: u32, path: Path },
    /// It declares this output of a planned rule, and its record asks it.
    Waits { maker: u32, path: Path },
    /// None of these: its last run didn't end well.
    Unfinished,
}

/// The cause of a planned rule.
pub(crate) fn cause_of(
    nodes: &Nodes,
    plan: &Plan,
    makers: &Lists<u32>,
    rule: &Rule,
    number: u32,
) -> Result<Cause, WhyFault>
    requires makers { AreMakers plan.now makers.now }
    requires planned { IsPlanned plan.now number rule.now }
    ensures cause { IfOk result (IsCause nodes.now plan.now number rule.now) }
    ensures memory { IfErr result (λ fault. fault ≡ WhyFault.Memory) }
{
    let Some(run) = nodes.run_of(number) else {
        return Ok(Cause::New);
    };
    if let Some(path) = other(nodes, rule, run)? {
        return Ok(Cause::Changed(path));
    }
    match lead(nodes, plan, makers, rule, number, run.asks.as_slice())? {
        Some(cause) => Ok(cause),
        None => Ok(Cause::Unfinished),
    }
}

/// A path of which the record of a rule has another stamp than the seen one.
fn other(nodes: &Nodes, rule: &Rule, run: &RunRecord) -> Result<Option<Path>, WhyFault>
    ensures other { IfOk result (λ found. MatchOption found
        (HasSeenStamps nodes.now rule.now run.now) (HasOther nodes.now rule.now run.now)) }
    ensures memory { IfErr result (λ fault. fault ≡ WhyFault.Memory) }
{
    match other_ask(nodes, rule, run.asks.as_slice())? {
        Some(path) => Ok(Some(path)),
        None => other_write(nodes, run.writes.as_slice()),
    }
}

/// The first ask, of no output of the rule's own, that was told another stamp than the seen one.
fn other_ask(
    nodes: &Nodes,
    rule: &Rule,
    asks: &[(Path, Option<Stamp>)],
) -> Result<Option<Path>, WhyFault>
    ensures other { IfOk result (λ found. MatchOption found
        (SeesAsks nodes.now rule.now asks.now) (IsOtherAsk nodes.now rule.now asks.now)) }
    ensures memory { IfErr result (λ fault. fault ≡ WhyFault.Memory) }
{
    for (path, given) in asks {
        if is_other(nodes, rule, path, *given) {
            return Ok(Some(path.clone()?));
        }
    }
    Ok(None)
}

/// The first file that was written with another stamp than the seen one.
fn other_write(nodes: &Nodes, files: &[(Path, Stamp)]) -> Result<Option<Path>, WhyFault>
    ensures other { IfOk result (λ found. MatchOption found
        (All (λ (file : Names × StampValue). finite.get nodes.now.seen file.0 ≡ Some file.1)
        files.now) (IsOtherWrite nodes.now files.now)) }
    ensures memory { IfErr result (λ fault. fault ≡ WhyFault.Memory) }
{
    for (path, given) in files {
        if is_seen_other(nodes, path, *given) {
            return Ok(Some(path.clone()?));
        }
    }
    Ok(None)
}

/// Whether an ask, of no output of the rule's own, was told another stamp than the seen one.
pub(crate) fn is_other(nodes: &Nodes, rule: &Rule, path: &Path, given: Option<Stamp>) -> bool
    ensures other { result ≡ true → (writes rule.now path.now ≡ false)
        × (given ≢ finite.get nodes.now.seen path.now) }
    ensures same { result ≡ false → writes rule.now path.now ≡ false
        → given ≡ finite.get nodes.now.seen path.now }
{
    !rule.writes(path) && given != nodes.seen(path)
}

/// Whether a file is seen with another stamp than that with which it was written.
pub(crate) fn is_seen_other(nodes: &Nodes, path: &Path, given: Stamp) -> bool
    ensures other { result ≡ true → finite.get nodes.now.seen path.now ≢ Some given }
    ensures same { result ≡ false → finite.get nodes.now.seen path.now ≡ Some given }
{
    nodes.seen(path) != Some(given)
}

/// The cause that the first ask gives that gives one.
fn lead(
    nodes: &Nodes,
    plan: &Plan,
    makers: &Lists<u32>,
    rule: &Rule,
    number: u32,
    asks: &[(Path, Option<Stamp>)],
) -> Result<Option<Cause>, WhyFault>
    requires makers { AreMakers plan.now makers.now }
    requires planned { IsPlanned plan.now number rule.now }
    requires asked { (path : Names) (given : Option StampValue) → Contains asks.now (path, given)
        → HasAsked nodes.now number path }
    ensures lead { IfOk result (λ found. MatchOption found
        (GiveNone nodes.now plan.now rule.now asks.now)
        (IsCause nodes.now plan.now number rule.now)) }
    ensures memory { IfErr result (λ fault. fault ≡ WhyFault.Memory) }
{
    for (path, _) in asks {
        if let Some(cause) = lead_over(nodes, plan, makers, rule, number, path)? {
            return Ok(Some(cause));
        }
    }
    Ok(None)
}

/// The cause that a path gives which a rule asked: a planned rule that makes it and has no record, or one that makes it where
/// the rule declares it.
fn lead_over(
    nodes: &Nodes,
    plan: &Plan,
    makers: &Lists<u32>,
    rule: &Rule,
    number: u32,
    path: &Path,
) -> Result<Option<Cause>, WhyFault>
    requires makers { AreMakers plan.now makers.now }
    requires planned { IsPlanned plan.now number rule.now }
    requires asked { HasAsked nodes.now number path.now }
    ensures lead { IfOk result (λ found. MatchOption found
        (GivesNone nodes.now plan.now rule.now path.now)
        (IsCause nodes.now plan.now number rule.now)) }
    ensures memory { IfErr result (λ fault. fault ≡ WhyFault.Memory) }
{
    if let Some(maker) = unrecorded(nodes, makers.of(path)) {
        let path = path.clone()?;
        return Ok(Some(Cause::ReadsNew { maker, path }));
    }
    let Some(maker) = makers.of(path).first() else {
        return Ok(None);
    };
    if !rule.declares(path) {
        return Ok(None);
    }
    Ok(Some(Cause::Waits {
        maker: *maker,
        path: path.clone()?,
    }))
}

/// The first of some rules that has no record.
fn unrecorded(nodes: &Nodes, numbers: &[u32]) -> Option<u32>
    ensures { MatchOption result
        ((number : ℕ) → Contains numbers.now number → finite.get nodes.now.runs number ≢ None)
        (λ found. Contains numbers.now found × (finite.get nodes.now.runs found ≡ None)) }
{
    for number in numbers {
        if !is_recorded(nodes, *number) {
            return Some(*number);
        }
    }
    None
}

/// Whether a rule has a record.
pub(crate) fn is_recorded(nodes: &Nodes, number: u32) -> bool
    ensures yes { result ≡ true → finite.get nodes.now.runs number ≢ None }
    ensures no { result ≡ false → finite.get nodes.now.runs number ≡ None }
{
    nodes.run_of(number).is_some()
}
