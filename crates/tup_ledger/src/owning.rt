//! Paths become owned.
ghost use Rattle.std.specs.Prelude.{◌≡◌, ◌++◌, true, All, IsTrue, IfOk, OnOk, Ok, Err};
ghost use Rattle.tup_path.specs.Gives.{GivesUnless};
ghost use Rattle.tup_site.specs.World.{TreeStays};
ghost use Rattle.tup_stored_graph.specs.Cause.{CountsFaults};
ghost use Rattle.tup_stored_graph.specs.Crash.{LeavesEither};
ghost use Rattle.tup_stored_graph.specs.Held.{is_fresh, StandsFor};
ghost use Rattle.tup_stored_graph.specs.Transaction.{Leaves, IsFull};
ghost use Rattle.tup_ledger.specs.Ascending.{ascending};
ghost use Rattle.tup_ledger.specs.Listing.{Lists, ListsEither};
ghost use Rattle.tup_ledger.specs.Owned.{owned_in, maker_in, owning as owning_of, own_edits, with_owned};
ghost use Rattle.tup_ledger.specs.Sources.{Guards, HaveNoFiles, Kept, KeepsSources};

use std::alloc::{AllocError, Global};
use tup_graph::{Edit, Edits, GraphFault, Nodes};
use tup_path::{Items, Path, Paths};
use tup_record::{OwnedState, Record};
use tup_site::Site;
use tup_stored_graph::Graph;

/// The owned paths, in their order.
pub fn owned_paths(alloc: Global, nodes: &Nodes) -> Result<Paths, AllocError>
    ensures { IfOk result (λ paths. paths ≡ owned_in nodes.now) }
{
    let mut paths = Paths::new(alloc);
    for (path, _) in nodes.owned() {
        paths.push(path.clone()?)?;
    }
    Ok(paths)
}

/// Owns paths, in one commit: from then on whatever stands there is generated, and no crash makes a source of it. Their
/// makers stay, and new ones have none; all are unsure. Where they are so already, nothing is written.
pub fn own<S: Site>(
    alloc: Global,
    graph: &mut Graph,
    site: &mut S,
    paths: &[Path],
) -> Result<(), GraphFault>
    requires fresh { IsTrue (is_fresh graph.old) }
    requires stands { IsTrue S.tells
        → StandsFor S.world S.moment S.left_since graph.old site.old }

    ensures leaves { Leaves (own_edits graph.old.nodes paths.now)
        (with_owned graph.old.nodes paths.now)
        graph.old graph.new site.old site.new result }
    ensures owned { OnOk result (IsTrue (is_fresh graph.new)
        × (owned_in graph.new.nodes ≡ ascending (owned_in graph.old.nodes ++ paths.now))) }
    ensures lists { IsTrue S.tells
        → OnOk result (Lists (S.world site.new).store (owned_in graph.new.nodes)) }
    // Whatever it answers, the store lists what it listed, or these paths as well.
    ensures keeps { IsTrue S.tells → ListsEither (owned_in graph.old.nodes)
        (ascending (owned_in graph.old.nodes ++ paths.now)) (S.world site.new).store }
    ensures full { IsFull graph.old (own_edits graph.old.nodes paths.now)
        → GivesUnless result GraphFault.Memory (Err GraphFault.Full) }
    ensures stands { IsTrue S.tells → IsTrue (is_fresh graph.new)
        → StandsFor S.world S.moment S.left_since graph.new site.new }
    ensures tree { IsTrue S.tells → TreeStays (S.world site.old) (S.world site.new) }
    ensures crash { IsTrue S.tells → LeavesEither S.moment S.left_since site.old site.new
        graph.old.nodes (with_owned graph.old.nodes paths.now) }
    // Where no source is among the paths, a crash leaves all of them, and owned is only what may be.
    ensures sources { IsTrue S.tells → (kept : Kept)
        → Guards (S.left_since site.old (S.moment site.old)) graph.old.nodes kept
        → HaveNoFiles kept.sources paths.now → All (λ path. kept.may path ≡ true) paths.now
        → KeepsSources S.moment S.left_since site.old site.new
        kept (IsTrue (is_fresh graph.new)) graph.new.nodes }
    ensures known { IsTrue S.tells → S.known site.new ≡ S.known site.old }
    ensures cause { CountsFaults (S.faults site.old) (S.faults site.new) result }
{
    let edits = edits(alloc, graph.nodes(), paths)?;
    let ended = graph.commit_edits(alloc, site, edits);
    // A law: while the graph is fresh, the store stands for its nodes.
    let _ = graph.nodes();
    ended
}

/// What owning paths does to a graph.
fn edits(alloc: Global, nodes: &Nodes, paths: &[Path]) -> Result<Edits, GraphFault>
    ensures { GivesUnless result GraphFault.Memory (Ok (own_edits nodes.now paths.now)) }
{
    let mut edits = Items::new(alloc);
    for path in paths {
        edits.push(owning(nodes, path)?)?;
    }
    Ok(edits)
}

/// A path is owned and unsure.
fn owning(nodes: &Nodes, path: &Path) -> Result<Edit, GraphFault>
    ensures { GivesUnless result GraphFault.Memory (Ok (owning_of nodes.now path.now)) }
{
    Ok(Edit::Put(Record::Owned {
        path: path.clone()?,
        maker: maker(nodes, path),
        state: OwnedState::Unsure,
    }))
}

/// Who makes a path, if it is owned already.
fn maker(nodes: &Nodes, path: &Path) -> Option<u32>
    ensures { result ≡ maker_in nodes.now path.now }
{
    match nodes.owner(path) {
        Some(owned) => owned.maker,
        None => None,
    }
}
