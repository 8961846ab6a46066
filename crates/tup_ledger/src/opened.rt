//! The opening of a store that lists owned paths.
ghost use Rattle.std.specs.Prelude.{◌≡◌, ◌≢◌, ◌⊎◌, IsTrue, IfOk, Err};
ghost use Rattle.tup_site.specs.Crash.{GoesOn, LeavesOnly};
ghost use Rattle.tup_site.specs.World.{TreeStays};
ghost use Rattle.tup_table.specs.Images.{OpenStep};
ghost use Rattle.tup_stored_graph.specs.Cause.{CountsFaults};
ghost use Rattle.tup_stored_graph.specs.Held.{is_fresh, StandsFor};
ghost use Rattle.tup_stored_graph.specs.Opening.{OpensAs};
ghost use Rattle.tup_ledger.specs.Listing.{IsSafe, Lists, StillLists};
ghost use Rattle.tup_ledger.specs.Owned.{owned_in};
ghost use Rattle.tup_ledger.specs.Sources.{Guards, HasSources, Kept};

use std::alloc::Global;
use tup_graph::GraphFault;
use tup_site::Site;
use tup_stored_graph::Graph;

/// Opens the store of a project: whatever it answers, the store lists what it listed, and no file
/// of the tree is touched. Whichever sources a crash before leaves, one meanwhile or later leaves
/// too.
pub fn open<S: Site>(alloc: Global, site: &mut S) -> Result<Graph, GraphFault>
    ensures fresh { IfOk result (λ graph. IsTrue (is_fresh graph)) }
    ensures stands { IsTrue S.tells
        → IfOk result (λ graph. StandsFor S.world S.moment S.left_since graph site.new) }
    ensures lists { IsTrue S.tells
        → IfOk result (λ graph. Lists (S.world site.new).store (owned_in graph.nodes)) }
    // The graph, `NotThere` and `BadStore` are by the bytes alone.
    ensures opens { IsTrue S.tells
        → OpensAs (S.world site.old).store (S.world site.new).store result }

    // At every end all is as it was, or the store has the same entries, and nothing was written but
    // a closed gate at its end and what finishes compacting; so it lists the same.
    ensures keeps { IsTrue S.tells → (S.world site.new ≡ S.world site.old)
        ⊎ OpenStep (S.world site.old) (S.world site.new) }
    ensures still { IsTrue S.tells
        → StillLists (S.world site.old).store (S.world site.new).store }

    ensures tree { IsTrue S.tells → TreeStays (S.world site.old) (S.world site.new) }
    ensures crash { IsTrue S.tells → GoesOn S.moment S.left_since site.old site.new OpenStep }
    ensures images { IsTrue S.tells → (kept : Kept) → IsSafe S.moment S.left_since site.old kept
        → LeavesOnly S.moment S.left_since site.old site.new (HasSources kept) }
    ensures guards { IsTrue S.tells → (kept : Kept) → IsSafe S.moment S.left_since site.old kept
        → let left = S.left_since site.new (S.moment site.new) in
        IfOk result (λ graph. Guards left graph.nodes kept) }
    ensures known { IsTrue S.tells → S.known site.new ≡ S.known site.old }

    ensures never_full { result ≢ Err GraphFault.Full }
    ensures cause { CountsFaults (S.faults site.old) (S.faults site.new) result }
{
    Graph::open(alloc, site)
}
