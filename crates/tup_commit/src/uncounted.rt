//! Commits whose steps nobody reads: who calls them gives a blank.
ghost use Rattle.std.specs.Prelude.{◌≡◌, ◌<◌, IsTrue, OnOk, map};
ghost use Rattle.std.specs.List.{IsDistinct};
ghost use Rattle.tup_path.specs.Order.{same_path};
ghost use Rattle.tup_site.specs.World.{TreeStays};
ghost use Rattle.tup_graph.specs.Scan.{IsScanned};
ghost use Rattle.tup_graph.specs.Swap.{IsSwapped};
ghost use Rattle.tup_stored_graph.specs.Cause.{CountsFaults};
ghost use Rattle.tup_stored_graph.specs.Held.{is_fresh, StandsFor};
ghost use Rattle.tup_rule_diff.specs.Edits.{dir_of};
ghost use Rattle.tup_rule_diff.specs.Order.{AreByFolder};
ghost use Rattle.tup_commit.specs.Crash.{LeavesScanned, LeavesSwapped};
ghost use Rattle.tup_commit.specs.Noted.{NotesScan, SwapsRules};

use crate::{note, swap};
use std::alloc::Global;
use std::sync::ledger::{Blank, Ledger};
use tup_closure::Steps;
use tup_graph::GraphFault;
use tup_rule::Rule;
use tup_rule_diff::Refreshed;
use tup_scan::Seen;
use tup_site::Site;
use tup_stored_graph::Graph;

/// Takes note of a scan as `note_scan` does. The steps are made of the blank.
pub fn note_scan<S: Site, L: Ledger>(
    alloc: Global,
    graph: &mut Graph,
    site: &mut S,
    seen: &Seen,
    blank: Blank,
) -> Result<(), GraphFault>
    requires name { blank.name ≡ L.name }
    requires parts { blank.parts ≡ L.parts }
    requires some { 0 < blank.parts }
    requires fresh { IsTrue (is_fresh graph.old) }
    requires stands { IsTrue S.tells
        → StandsFor S.world S.moment S.left_since graph.old site.old }

    ensures notes { NotesScan seen.now.files seen.now.config
        graph.old graph.new site.old site.new result }
    ensures scanned { OnOk result
        (IsScanned graph.old.nodes seen.now.files seen.now.config graph.new.nodes) }
    ensures fresh { OnOk result (IsTrue (is_fresh graph.new)) }
    ensures stands { IsTrue S.tells → IsTrue (is_fresh graph.new)
        → StandsFor S.world S.moment S.left_since graph.new site.new }
    ensures tree { IsTrue S.tells → TreeStays (S.world site.old) (S.world site.new) }
    ensures crash { IsTrue S.tells → LeavesScanned S.moment S.left_since site.old site.new
        graph.old.nodes seen.now.files seen.now.config }
    ensures known { IsTrue S.tells → S.known site.new ≡ S.known site.old }
    ensures cause { CountsFaults (S.faults site.old) (S.faults site.new) result }
{
    let mut steps = Steps::<L>::none(blank);
    note::note_scan(alloc, graph, site, seen, &mut steps)
}

/// Swaps rules as `swap_rules` does. The steps are made of the blank.
pub fn swap_rules<S: Site, L: Ledger>(
    alloc: Global,
    graph: &mut Graph,
    site: &mut S,
    fresh: &Refreshed,
    rules: &[Rule],
    blank: Blank,
) -> Result<(), GraphFault>
    requires name { blank.name ≡ L.name }
    requires parts { blank.parts ≡ L.parts }
    requires some { 0 < blank.parts }
    requires fresh { IsTrue (is_fresh graph.old) }
    requires stands { IsTrue S.tells
        → StandsFor S.world S.moment S.left_since graph.old site.old }
    // Each folder was read once, and the rules are in the order of their folders.
    requires once { IsDistinct same_path (map dir_of fresh.now.readings) }
    requires order { AreByFolder rules.now }

    ensures swaps { SwapsRules fresh.now.readings fresh.now.gone rules.now
        graph.old graph.new site.old site.new result }
    ensures swapped { OnOk result
        (IsSwapped graph.old.nodes fresh.now.readings fresh.now.gone rules.now graph.new.nodes) }
    ensures fresh { OnOk result (IsTrue (is_fresh graph.new)) }
    ensures stands { IsTrue S.tells → IsTrue (is_fresh graph.new)
        → StandsFor S.world S.moment S.left_since graph.new site.new }
    ensures tree { IsTrue S.tells → TreeStays (S.world site.old) (S.world site.new) }
    ensures crash { IsTrue S.tells → LeavesSwapped S.moment S.left_since site.old site.new
        graph.old.nodes fresh.now.readings fresh.now.gone rules.now }
    ensures known { IsTrue S.tells → S.known site.new ≡ S.known site.old }
    ensures cause { CountsFaults (S.faults site.old) (S.faults site.new) result }
{
    let mut steps = Steps::<L>::none(blank);
    swap::swap_rules(alloc, graph, site, fresh, rules, &mut steps)
}
