//! What a swap takes away: what doesn't come again.
ghost use Rattle.std.specs.Prelude.{◌≡◌, ◌∷◌, ◌++◌, [], Ok, map, filter_map, if◌then◌else◌, IfErr, IfOk, OnOk};
ghost use Rattle.std.specs.FinMap as finite;
ghost use Rattle.tup_path.specs.Gives.{GivesUnless};
ghost use Rattle.tup_rule_diff.specs.Edits.{clear_edits, less_edits, goes as goes_of, no_rule as no_rule_of, rule_less, run_less as run_less_of, unflag as unflag_of, uncreate as uncreate_of, unread as unread_of, unrun_edits};
ghost use Rattle.tup_rule_diff.specs.Running.{had_run as had_run_of, keeps_run as keeps_run_of};

use crate::before::number_of;
use std::alloc::{AllocError, Global};
use tup_graph::{Edit, Edits, GraphFault, Nodes};
use tup_path::{Items, Path, Text};
use tup_record::{Record, RunRecord};
use tup_rule::Rule;

/// Nothing is flagged or to be read, and no record of a run is left in whose place none comes.
pub(crate) fn push_cleared(
    alloc: Global,
    edits: &mut Edits,
    nodes: &Nodes,
    befores: &[Option<u32>],
) -> Result<(), GraphFault>
    ensures ok { OnOk result (edits.new
        ≡ edits.old ++ clear_edits (keeps_run_of nodes.now befores.now) nodes.now) }
    ensures err { IfErr result (λ fault. fault ≡ GraphFault.Memory) }
{
    push_unflagged(edits, nodes)?;
    push_uncreated(edits, nodes)?;
    push_unrun(alloc, edits, nodes, befores)
}

fn push_unflagged(edits: &mut Edits, nodes: &Nodes) -> Result<(), GraphFault>
    ensures ok { OnOk result (edits.new
        ≡ edits.old ++ map unflag_of (finite.entries nodes.now.flags)) }
    ensures err { IfErr result (λ fault. fault ≡ GraphFault.Memory) }
{
    for (number, _) in nodes.flags() {
        edits.push(Edit::Remove(Record::Modify { number: *number }))?;
    }
    Ok(())
}

fn push_uncreated(edits: &mut Edits, nodes: &Nodes) -> Result<(), GraphFault>
    ensures ok { OnOk result (edits.new
        ≡ edits.old ++ map uncreate_of (finite.entries nodes.now.created)) }
    ensures err { IfErr result (λ fault. fault ≡ GraphFault.Memory) }
{
    for (dir, _) in nodes.created() {
        edits.push(uncreated(dir)?)?;
    }
    Ok(())
}

fn uncreated(dir: &Path) -> Result<Edit, GraphFault>
    ensures { GivesUnless result GraphFault.Memory (Ok (uncreate_of (dir.now, tt))) }
{
    Ok(Edit::Remove(Record::Create { dir: dir.clone()? }))
}

fn push_unrun(
    alloc: Global,
    edits: &mut Edits,
    nodes: &Nodes,
    befores: &[Option<u32>],
) -> Result<(), GraphFault>
    ensures ok { OnOk result (edits.new ≡ edits.old
        ++ unrun_edits (keeps_run_of nodes.now befores.now) (finite.entries nodes.now.runs)) }
    ensures err { IfErr result (λ fault. fault ≡ GraphFault.Memory) }
{
    for (number, _) in nodes.runs() {
        push_unless_kept(alloc, edits, nodes, befores, *number)?;
    }
    Ok(())
}

/// The record under a number goes, unless the rule of that number keeps one.
fn push_unless_kept(
    alloc: Global,
    edits: &mut Edits,
    nodes: &Nodes,
    befores: &[Option<u32>],
    number: u32,
) -> Result<(), GraphFault>
    ensures ok { OnOk result (edits.new ≡ edits.old
        ++ (if keeps_run_of nodes.now befores.now number then [] else run_less_of number ∷ [])) }
    ensures err { IfErr result (λ fault. fault ≡ GraphFault.Memory) }
{
    if !keeps_run(nodes, befores, number) {
        edits.push(run_less(alloc, number))?;
    }
    Ok(())
}

/// Whether the rule of a number keeps a record.
fn keeps_run(nodes: &Nodes, befores: &[Option<u32>], number: u32) -> bool
    ensures { result ≡ keeps_run_of nodes.now befores.now number }
{
    match befores.get(number as usize) {
        Some(before) => had_run(nodes, *before),
        None => false,
    }
}

/// Whether a rule that had this number has a record.
fn had_run(nodes: &Nodes, before: Option<u32>) -> bool
    ensures { result ≡ had_run_of nodes.now before }
{
    match before {
        Some(before) => nodes.run_of(before).is_some(),
        None => false,
    }
}

/// The record under a number goes, whatever it tells.
fn run_less(alloc: Global, number: u32) -> Edit
    ensures { result ≡ run_less_of number }
{
    let run = RunRecord {
        asks: Items::new(alloc),
        writes: Items::new(alloc),
    };
    Edit::Remove(Record::Run { number, run })
}

/// The readings of some folders are gone.
pub(crate) fn push_unread(edits: &mut Edits, nodes: &Nodes, gone: &[Path]) -> Result<(), GraphFault>
    ensures ok { OnOk result (edits.new
        ≡ edits.old ++ filter_map (unread_of nodes.now) gone.now) }
    ensures err { IfErr result (λ fault. fault ≡ GraphFault.Memory) }
{
    for dir in gone {
        if let Some(edit) = unread(nodes, dir)? {
            edits.push(edit)?;
        }
    }
    Ok(())
}

/// The reading of a folder is gone, if it has one.
fn unread(nodes: &Nodes, dir: &Path) -> Result<Option<Edit>, GraphFault>
    ensures { GivesUnless result GraphFault.Memory (Ok (unread_of nodes.now dir.now)) }
{
    let Some(reading) = nodes.reading(dir) else {
        return Ok(None);
    };
    Ok(Some(Edit::Remove(Record::Reading {
        dir: dir.clone()?,
        reading: reading.clone()?,
    })))
}

/// Rules go where so many come, the last one first: each in whose place none comes, and the first one, with which go all that
/// are left.
pub(crate) fn push_less(
    alloc: Global,
    edits: &mut Edits,
    rules: &[Rule],
    count: usize,
) -> Result<(), GraphFault>
    ensures ok { OnOk result (edits.new ≡ edits.old ++ less_edits count 0 rules.now) }
    ensures err { IfErr result (λ fault. fault ≡ GraphFault.Memory) }
{
    let mut at = rules.len();
    'rules: while at > 0 {
        at -= 1;
        push_if_goes(alloc, edits, count, at)?;
    }
    Ok(())
}

/// The rule at a place goes, if it is taken away where so many come.
fn push_if_goes(alloc: Global, edits: &mut Edits, count: usize, at: usize) -> Result<(), GraphFault>
    ensures ok { OnOk result
        (edits.new ≡ edits.old ++ (if goes_of count at then rule_less at ∷ [] else [])) }
    ensures err { IfErr result (λ fault. fault ≡ GraphFault.Memory) }
{
    if goes(count, at) {
        edits.push(less(alloc, at)?)?;
    }
    Ok(())
}

/// Whether the rule at a place is taken away where so many come.
fn goes(count: usize, at: usize) -> bool
    ensures { result ≡ goes_of count at }
{
    at == 0 || count <= at
}

/// The rule at a place goes, whatever it tells.
fn less(alloc: Global, at: usize) -> Result<Edit, GraphFault>
    ensures { GivesUnless result GraphFault.Memory (Ok (rule_less at)) }
{
    Ok(Edit::Remove(Record::Rule {
        number: number_of(at)?,
        place: 0,
        rule: no_rule(alloc)?,
    }))
}

/// A rule that tells nothing.
fn no_rule(alloc: Global) -> Result<Rule, AllocError>
    ensures { IfOk result (λ rule. rule ≡ no_rule_of) }
{
    Ok(Rule {
        dir: Path::top(alloc),
        text: Text::from_str(alloc, "")?,
        display: None,
        compare: false,
        inputs: Items::new(alloc),
        order: Items::new(alloc),
        outputs: Items::new(alloc),
    })
}
