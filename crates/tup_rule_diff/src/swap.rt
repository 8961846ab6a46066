//! A swap of rules.
ghost use Rattle.std.specs.Prelude.{◌≡◌, ◌++◌, [], length, IfOk, IfErr, OnErr, OnOk};
ghost use Rattle.tup_rule_diff.specs.Edits.{AreSwapEdits, PutsAll, SwapStepped, SwapSteppedAtMost, clear_edits, less_edits, more_edits, reading_edits};
ghost use Rattle.tup_rule_diff.specs.Running.{keeps_run};

use crate::before::numbers_before;
use crate::clearing::{push_cleared, push_less, push_unread};
use crate::owners::owned_now;
use crate::putting::{push_flags, push_fresh, push_more, push_new_owned, push_new_runs};
use crate::running::{flags_now, runs_now};
use std::alloc::Global;
use std::sync::ledger::Ledger;
use tup_closure::Steps;
use tup_graph::{Edits, GraphFault, Nodes, Owned};
use tup_path::{ByPath, Items, Path, Paths};
use tup_record::RunRecord;
use tup_rule::{Reading, Rule};

/// What the folders that were to be read left: their readings, and those that have no Tupfile any more.
#[derive(Drop)]
pub struct Refreshed {
    pub readings: Items<(Path, Reading)>,
    pub gone: Paths,
}

/// What a swap does to a graph: the readings of some folders are new or gone, the create list is empty, and the rules are
/// these. A rule that is the same as one before keeps its record and its flag. New rules are to be run, and so are all
/// whose records ask an output of a new one, and all that recorded reads lead to from these. An output is owned by the
/// first rule that has it, and other owned paths have no maker; states stay, and what is newly owned was never written.
///
/// What doesn't come again is taken away, and what is there now is put in, save what stands already: of each key the last edit
/// counts.
///
/// By the records that the rules keep, from those that ask an output of a new rule, it takes the steps of `above`; after a
/// refusal it has taken no more.
pub fn swap_rules<L: Ledger>(
    alloc: Global,
    nodes: &Nodes,
    fresh: &Refreshed,
    rules: &[Rule],
    steps: &mut Steps<L>,
) -> Result<Edits, GraphFault>
    ensures edits { IfOk result
        (AreSwapEdits nodes.now fresh.now.readings fresh.now.gone rules.now) }
    ensures steps { OnOk result (SwapStepped nodes.now rules.now steps.old steps.new) }
    ensures fewer { OnErr result (SwapSteppedAtMost nodes.now rules.now steps.old steps.new) }
    ensures memory { IfErr result (λ fault. fault ≡ GraphFault.Memory) }
{
    let befores = numbers_before(alloc, nodes, rules)?;
    let runs = runs_now(alloc, nodes, befores.as_slice())?;
    let flags = flags_now(
        alloc,
        nodes,
        rules,
        runs.as_slice(),
        befores.as_slice(),
        steps,
    )?;
    let owned = owned_now(alloc, nodes, rules)?;
    let mut edits = Items::new(alloc);
    push_rules(alloc, &mut edits, nodes, fresh, befores.as_slice(), rules)?;
    push_now(
        &mut edits,
        nodes,
        befores.as_slice(),
        runs.as_slice(),
        &owned,
        flags.as_slice(),
    )?;
    Ok(edits)
}

/// What goes and doesn't come again, and the readings and the rules that come.
fn push_rules(
    alloc: Global,
    edits: &mut Edits,
    nodes: &Nodes,
    fresh: &Refreshed,
    befores: &[Option<u32>],
    rules: &[Rule],
) -> Result<(), GraphFault>
    ensures ok { OnOk result (edits.new
        ≡ edits.old ++ clear_edits (keeps_run nodes.now befores.now) nodes.now
        ++ reading_edits nodes.now fresh.now.readings fresh.now.gone
        ++ less_edits (length rules.now) 0 nodes.now.rules ++ more_edits [] rules.now) }
    ensures err { IfErr result (λ fault. fault ≡ GraphFault.Memory) }
{
    push_cleared(alloc, edits, nodes, befores)?;
    push_unread(edits, nodes, fresh.gone.as_slice())?;
    push_fresh(edits, fresh.readings.as_slice())?;
    push_less(alloc, edits, nodes.rules(), rules.len())?;
    push_more(alloc, edits, rules)
}

/// Records of runs, owned paths and flags, save records and paths that stand already.
fn push_now(
    edits: &mut Edits,
    nodes: &Nodes,
    befores: &[Option<u32>],
    runs: &[(u32, RunRecord)],
    owned: &ByPath<Owned>,
    flags: &[u32],
) -> Result<(), GraphFault>
    ensures ok { OnOk result (PutsAll nodes.now befores.now runs.now owned.now flags.now
        edits.old edits.new) }
    ensures err { IfErr result (λ fault. fault ≡ GraphFault.Memory) }
{
    push_new_runs(edits, befores, runs)?;
    push_new_owned(edits, nodes, owned)?;
    push_flags(edits, flags)
}
