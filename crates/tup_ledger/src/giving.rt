//! Paths are owned no longer.
ghost use Rattle.std.specs.Prelude.{◌≡◌, filter, not, IsTrue, OnOk};
ghost use Rattle.tup_site.specs.Crash.{GoesOn, NoStep, PinsTree};
ghost use Rattle.tup_site.specs.World.{TreeStays};
ghost use Rattle.tup_rule.specs.Rule.{among};
ghost use Rattle.tup_graph.specs.Transactions.{forget_edits, with_forgotten};
ghost use Rattle.tup_stored_graph.specs.Cause.{CountsFaults, OnlyOutside};
ghost use Rattle.tup_stored_graph.specs.Crash.{LeavesEither};
ghost use Rattle.tup_stored_graph.specs.Held.{is_fresh, StandsFor};
ghost use Rattle.tup_stored_graph.specs.Transaction.{IsFull};
ghost use Rattle.tup_ledger.specs.Given.{GivesUp, IsRefused};
ghost use Rattle.tup_ledger.specs.Listing.{Lists, ListsEither, SettledStep};
ghost use Rattle.tup_ledger.specs.Owned.{owned_in};
ghost use Rattle.tup_ledger.specs.Sources.{Guards, HaveNoFiles, IsDurable, Kept, KeepsSources};

use std::alloc::Global;
use tup_graph::GraphFault;
use tup_path::Path;
use tup_site::Site;
use tup_stored_graph::Graph;
use tup_table::TableFault;

/// Owns some paths no longer, in one commit: no file stands there any more. The files of the tree are settled first, so
/// that no crash brings one of theirs back once the path is given up. After `Ok` a crash leaves all as it is then.
pub fn give_up<S: Site>(
    alloc: Global,
    graph: &mut Graph,
    site: &mut S,
    paths: &[Path],
) -> Result<(), GraphFault>
    requires fresh { IsTrue (is_fresh graph.old) }
    requires stands { IsTrue S.tells
        → StandsFor S.world S.moment S.left_since graph.old site.old }
    requires gone { IsTrue S.tells → HaveNoFiles (S.world site.old).tree paths.now }

    ensures gives_up { GivesUp S.tells paths.now graph.old graph.new
        (S.world site.old) (S.world site.new) result }
    ensures owned { OnOk result (IsTrue (is_fresh graph.new)
        × (owned_in graph.new.nodes
        ≡ filter (λ path. not (among path paths.now)) (owned_in graph.old.nodes))) }
    ensures lists { IsTrue S.tells
        → OnOk result (Lists (S.world site.new).store (owned_in graph.new.nodes)) }
    // Whatever it answers, the store lists what it listed, or all but these paths.
    ensures keeps { IsTrue S.tells → ListsEither (owned_in graph.old.nodes)
        (filter (λ path. not (among path paths.now)) (owned_in graph.old.nodes))
        (S.world site.new).store }
    ensures full { IsFull graph.old (forget_edits graph.old.nodes paths.now) → IsRefused result }
    ensures stands { IsTrue S.tells → IsTrue (is_fresh graph.new)
        → StandsFor S.world S.moment S.left_since graph.new site.new }
    ensures tree { IsTrue S.tells → TreeStays (S.world site.old) (S.world site.new) }
    ensures durable { IsTrue S.tells → OnOk result
        (IsDurable (S.left_since site.new (S.moment site.new)) (S.world site.new)) }
    ensures crash { IsTrue S.tells → LeavesEither S.moment S.left_since site.old site.new
        graph.old.nodes (with_forgotten graph.old.nodes paths.now) }
    // All that it adds to what a crash may leave has the present files.
    ensures settled { IsTrue S.tells
        → GoesOn S.moment S.left_since site.old site.new (SettledStep (S.world site.old)) }
    ensures sources { IsTrue S.tells → (kept : Kept)
        → Guards (S.left_since site.old (S.moment site.old)) graph.old.nodes kept
        → KeepsSources S.moment S.left_since site.old site.new
        kept (IsTrue (is_fresh graph.new)) graph.new.nodes }
    ensures known { IsTrue S.tells → S.known site.new ≡ S.known site.old }
    ensures cause { CountsFaults (S.faults site.old) (S.faults site.new) result }
{
    // A law, here and at the end: while the graph is fresh, the store stands for its nodes.
    let _ = graph.nodes();
    settle(alloc, site)?;
    let ended = graph.forget(alloc, site, paths);
    let _ = graph.nodes();
    ended
}

/// Settles the files of the tree.
fn settle<S: Site>(alloc: Global, site: &mut S) -> Result<(), GraphFault>
    ensures same { IsTrue S.tells → S.world site.new ≡ S.world site.old }
    ensures durable { IsTrue S.tells → OnOk result
        (PinsTree (S.left_since site.new (S.moment site.new)) (S.world site.new)) }
    ensures crash { IsTrue S.tells → GoesOn S.moment S.left_since site.old site.new NoStep }
    ensures known { IsTrue S.tells → S.known site.new ≡ S.known site.old }
    ensures outside { OnlyOutside result }
    ensures cause { CountsFaults (S.faults site.old) (S.faults site.new) result }
{
    match site.settle(alloc) {
        Ok(()) => Ok(()),
        Err(failed) => Err(GraphFault::from(TableFault::from(failed))),
    }
}
