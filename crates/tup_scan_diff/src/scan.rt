//! What a scan changes.
ghost use Rattle.std.specs.Prelude.{◌≡◌, IfOk, IfErr, OnErr, OnOk};
ghost use Rattle.tup_closure.specs.Readers.{AreRunsOfRules};
ghost use Rattle.tup_closure.specs.Steps.{HasStepped, HasSteppedAtMost};
ghost use Rattle.tup_scan_diff.specs.Edits.{AreScanEdits, BeginsScan};

use crate::present::Present;
use std::alloc::Global;
use std::sync::ledger::Ledger;
use tup_closure::Steps;
use tup_graph::{Edits, GraphFault};
use tup_readers::Indexed;
use tup_scan::Seen;

/// What taking note of a scan does to a graph: files are seen with the stamps that the scan found, and no others are;
/// rules that recorded reads lead to from one that is flagged, or whose run asked (own outputs aside) or wrote another
/// content, or was told that no file stands where a folder of sources came or went, are to be run; and folders are to be
/// read that have a Tupfile and no reading, or a reading and no Tupfile, or whose reading was told what isn't so any more.
/// What tup.config sets is read in the one that the scan found, and where that has a fault each folder that asked it is to be
/// read.
///
/// Of each key there is one edit, and none that changes nothing. It looks at the files, at the readings, at the rules that
/// are flagged or whose records may not tell what was seen before, and at those that use a path which has another stamp
/// now, or ask for a folder that came or went: a rule that is none of these isn't looked at. Folders are compared where a
/// file came or went, and not else. Where a reading has many outputs, they are put into a set once, so that what another reading
/// asked about one of them takes one lookup.
///
/// From the rules with which the scan begins it takes the steps of `above`; after a refusal it has taken no more.
pub fn note_scan<L: Ledger>(
    alloc: Global,
    graph: &Indexed,
    seen: &Seen,
    steps: &mut Steps<L>,
) -> Result<Edits, GraphFault>
    requires runs { AreRunsOfRules graph.now }
    ensures edits { IfOk result (AreScanEdits graph.now seen.now.files seen.now.config) }
    ensures steps { OnOk result
        (HasStepped graph.now (BeginsScan graph.now seen.now.files) steps.old steps.new) }
    ensures fewer { OnErr result
        (HasSteppedAtMost graph.now (BeginsScan graph.now seen.now.files) steps.old steps.new) }
    ensures memory { IfErr result (λ fault. fault ≡ GraphFault.Memory) }
{
    let present = Present::new(alloc, graph.nodes(), seen)?;
    let dirs = present.stale(alloc)?;
    let mut edits = present.seen_edits(alloc)?;
    let numbers = present.to_run(alloc, graph, edits.as_slice(), steps)?;
    present.push_marks(&mut edits, &dirs, numbers.as_slice())?;
    Ok(edits)
}
