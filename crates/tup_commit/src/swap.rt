//! A swap of rules, committed.
ghost use Rattle.std.specs.Prelude.{◌≡◌, IsTrue, OnErr, OnOk, map};
ghost use Rattle.std.specs.List.{IsDistinct};
ghost use Rattle.tup_path.specs.Order.{same_path};
ghost use Rattle.tup_site.specs.World.{TreeStays};
ghost use Rattle.tup_graph.specs.Swap.{IsSwapped, ReadsNew};
ghost use Rattle.tup_closure.specs.Steps.{HasStepped};
ghost use Rattle.tup_stored_graph.specs.Cause.{CountsFaults};
ghost use Rattle.tup_stored_graph.specs.Held.{is_fresh, StandsFor};
ghost use Rattle.tup_rule_diff.specs.Edits.{SwapSteppedAtMost, dir_of};
ghost use Rattle.tup_rule_diff.specs.Order.{AreByFolder};
ghost use Rattle.tup_commit.specs.Crash.{LeavesSwapped};
ghost use Rattle.tup_commit.specs.Noted.{SwapsRules};

use std::alloc::Global;
use std::sync::ledger::Ledger;
use tup_closure::Steps;
use tup_graph::GraphFault;
use tup_rule::Rule;
use tup_rule_diff::{Refreshed, swap_edits_are_read, swap_edits_lead, swap_edits_leave};
use tup_site::Site;
use tup_stored_graph::Graph;

/// The readings of some folders are new or gone, the create list is empty, and the rules are these, in one commit. A rule
/// that is the same as one before keeps its record and its flag; every other one is to be run, with all that recorded reads
/// lead to from what it makes. Where that changes nothing, nothing is written.
///
/// It takes the steps of a walk over the reads that the rules keep recorded, from those that read an output of a new rule:
/// one for each of these, and one for each pair of an output of a rule that it reaches and a rule that reads it. After a
/// refusal it has taken no more.
pub fn swap_rules<S: Site, L: Ledger>(
    alloc: Global,
    graph: &mut Graph,
    site: &mut S,
    fresh: &Refreshed,
    rules: &[Rule],
    steps: &mut Steps<L>,
) -> Result<(), GraphFault>
    requires fresh { IsTrue (is_fresh graph.old) }
    requires stands { IsTrue S.tells
        → StandsFor S.world S.moment S.left_since graph.old site.old }
    // Each folder was read once, and the rules are in the order of their folders.
    requires once { IsDistinct same_path (map dir_of fresh.now.readings) }
    requires order { AreByFolder rules.now }

    ensures swaps { SwapsRules fresh.now.readings fresh.now.gone rules.now
        graph.old graph.new site.old site.new result }
    ensures swapped { OnOk result
        (IsSwapped graph.old.nodes fresh.now.readings fresh.now.gone rules.now graph.new.nodes) }
    ensures fresh { OnOk result (IsTrue (is_fresh graph.new)) }
    ensures stands { IsTrue S.tells → IsTrue (is_fresh graph.new)
        → StandsFor S.world S.moment S.left_since graph.new site.new }
    ensures tree { IsTrue S.tells → TreeStays (S.world site.old) (S.world site.new) }
    ensures crash { IsTrue S.tells → LeavesSwapped S.moment S.left_since site.old site.new
        graph.old.nodes fresh.now.readings fresh.now.gone rules.now }
    ensures known { IsTrue S.tells → S.known site.new ≡ S.known site.old }
    ensures cause { CountsFaults (S.faults site.old) (S.faults site.new) result }
    ensures steps { OnOk result (HasStepped graph.new.nodes
        (ReadsNew graph.old.nodes graph.new.nodes) steps.old steps.new) }
    ensures fewer { OnErr result
        (SwapSteppedAtMost graph.old.nodes rules.now steps.old steps.new) }
{
    swap_edits_are_read();
    swap_edits_leave();
    swap_edits_lead();
    let edits = tup_rule_diff::swap_rules(alloc, graph.nodes(), fresh, rules, steps)?;
    graph.commit_edits(alloc, site, edits)
}
