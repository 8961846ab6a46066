//! What a scan found, noted in the store of a project.
ghost use Rattle.std.specs.Prelude.{◌≡◌, IsTrue, OnErr, OnOk};
ghost use Rattle.tup_site.specs.World.{TreeStays};
ghost use Rattle.tup_graph.specs.Scan.{IsScanned};
ghost use Rattle.tup_stored_graph.specs.Cause.{CountsFaults};
ghost use Rattle.tup_stored_graph.specs.Held.{is_fresh, StandsFor};
ghost use Rattle.tup_closure.specs.Steps.{HasStepped, HasSteppedAtMost};
ghost use Rattle.tup_scan_diff.specs.Edits.{BeginsScan};
ghost use Rattle.tup_commit.specs.Crash.{LeavesScanned};
ghost use Rattle.tup_commit.specs.Noted.{NotesScan};

use std::alloc::Global;
use std::sync::ledger::Ledger;
use tup_closure::{Steps, runs_are_of_rules};
use tup_graph::GraphFault;
use tup_scan::Seen;
use tup_scan_diff::{scan_edits_are_read, scan_edits_leave};
use tup_site::Site;
use tup_stored_graph::Graph;

/// Takes note of a scan, in one commit: files are seen with the stamps that the scan found, rules whose runs asked or wrote
/// other contents are to be run with all that recorded reads lead to from them and from the flagged ones, and folders whose
/// readings were told what isn't so any more are to be read. Where that changes nothing, nothing is written.
///
/// It takes the steps of a walk over recorded reads from the rules that are flagged or touched: one for each of these, and
/// one for each pair of an output of a rule that it reaches and a rule that reads it. After a refusal it has taken no more.
pub fn note_scan<S: Site, L: Ledger>(
    alloc: Global,
    graph: &mut Graph,
    site: &mut S,
    seen: &Seen,
    steps: &mut Steps<L>,
) -> Result<(), GraphFault>
    requires fresh { IsTrue (is_fresh graph.old) }
    requires stands { IsTrue S.tells
        → StandsFor S.world S.moment S.left_since graph.old site.old }

    ensures notes { NotesScan seen.now.files seen.now.config
        graph.old graph.new site.old site.new result }
    ensures scanned { OnOk result
        (IsScanned graph.old.nodes seen.now.files seen.now.config graph.new.nodes) }
    ensures fresh { OnOk result (IsTrue (is_fresh graph.new)) }
    ensures stands { IsTrue S.tells → IsTrue (is_fresh graph.new)
        → StandsFor S.world S.moment S.left_since graph.new site.new }
    ensures tree { IsTrue S.tells → TreeStays (S.world site.old) (S.world site.new) }
    ensures crash { IsTrue S.tells → LeavesScanned S.moment S.left_since site.old site.new
        graph.old.nodes seen.now.files seen.now.config }
    ensures known { IsTrue S.tells → S.known site.new ≡ S.known site.old }
    ensures cause { CountsFaults (S.faults site.old) (S.faults site.new) result }
    ensures steps { OnOk result (HasStepped graph.old.nodes
        (BeginsScan graph.old.nodes seen.now.files) steps.old steps.new) }
    ensures fewer { OnErr result (HasSteppedAtMost graph.old.nodes
        (BeginsScan graph.old.nodes seen.now.files) steps.old steps.new) }
{
    runs_are_of_rules();
    scan_edits_are_read();
    scan_edits_leave();
    let edits = tup_scan_diff::note_scan(alloc, graph.indexed(), seen, steps)?;
    graph.commit_edits(alloc, site, edits)
}
