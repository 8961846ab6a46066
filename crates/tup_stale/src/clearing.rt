//! The clearing itself.
ghost use Rattle.std.specs.Prelude.{◌≡◌, [], IsTrue, IfOk, OnOk};
ghost use Rattle.tup_site.specs.Crash.{GoesOn};
ghost use Rattle.tup_site.specs.Known.{Keeps};
ghost use Rattle.tup_table.specs.Table.{entries_in};
ghost use Rattle.tup_graph.specs.Opening.{IsGraphOf};
ghost use Rattle.tup_stored_graph.specs.Held.{is_fresh, StandsFor};
ghost use Rattle.tup_stale.specs.Cause.{CountsFaults, OnlyLarge, IsStopped};
ghost use Rattle.tup_stale.specs.Cleared.{Leaves, AllAreMade, SparesUsers};
ghost use Rattle.tup_stale.specs.Crash.{ClearStep, LeavesBy};
ghost use Rattle.tup_stale.specs.Files.{SameBeside};
ghost use Rattle.tup_stale.specs.Unmade.{unmade as unmade_in, standing, Sees};

use crate::fault::StaleFault;
use crate::looking::{look, unmade};
use crate::removing::remove;
use std::alloc::Global;
use tup_path::{Path, Paths};
use tup_site::Site;
use tup_stored_graph::Graph;

/// Removes the files at owned paths that no rule makes any more, and owns these paths no longer. It gives the paths at which
/// a file was removed, in their order. Where there is no such path it does nothing at all.
///
/// Every such file is looked at first, one at a time. `UserFile` names the first that isn't what was written there: then
/// nothing was changed. Else the paths are doomed before the first file is removed, and what was removed is durable before
/// they are forgotten: so a crash leaves each file owned or as it was.
pub fn clear<S: Site>(alloc: Global, graph: &mut Graph, site: &mut S) -> Result<Paths, StaleFault>
    requires fresh { IsTrue (is_fresh graph.old) }
    requires stands { IsTrue S.tells
        → StandsFor S.world S.moment S.left_since graph.old site.old }

    ensures sees { IsTrue S.tells
        → Sees graph.old.nodes (S.world site.old).tree (unmade_in graph.old.nodes) result }
    ensures leaves { let paths = unmade_in graph.old.nodes in
        let files = standing (S.world site.old).tree paths in
        Leaves S.tells paths files graph.old graph.new
        (S.world site.old) (S.world site.new) result }
    // Whatever the answer: where a file of the user's stands at one of these paths, nothing is changed.
    ensures users { IsTrue S.tells → SparesUsers S.world S.moment S.left_since
        (unmade_in graph.old.nodes) graph.old graph.new site.old site.new }
    // Nothing changes but these files, whatever the answer.
    ensures others { let tree = (S.world site.old).tree in
        IsTrue S.tells → SameBeside (standing tree (unmade_in graph.old.nodes))
        tree (S.world site.new).tree }
    ensures all_made { IfOk result (λ _. AllAreMade graph.new.nodes) }
    ensures fresh { OnOk result (IsTrue (is_fresh graph.new)) }
    ensures graph { IsTrue (is_fresh graph.new)
        → IsGraphOf (entries_in graph.new.table) graph.new.nodes }
    ensures nothing { unmade_in graph.old.nodes ≡ []
        → (graph.new ≡ graph.old) × (site.new ≡ site.old) }
    ensures stands { IsTrue S.tells → IsTrue (is_fresh graph.new)
        → StandsFor S.world S.moment S.left_since graph.new site.new }
    ensures crash { let paths = unmade_in graph.old.nodes in
        let tree = (S.world site.old).tree in
        IsTrue S.tells → LeavesBy S.moment S.left_since site.old site.new
        (ClearStep graph.old.nodes paths (standing tree paths) tree) }
    ensures known { IsTrue S.tells → Keeps (S.known site.old) (S.known site.new) }
    ensures large { OnlyLarge result }
    ensures cause { CountsFaults (S.faults site.old) (S.faults site.new) result }
{
    let paths = unmade(alloc, graph.nodes())?;
    if paths.len() == 0 {
        return Ok(paths);
    }
    let cleared = clear_paths(alloc, graph, site, paths.as_slice());
    // A law: while the graph is fresh, the store stands for its nodes.
    let _ = graph.nodes();
    cleared
}

/// Clears these owned paths.
fn clear_paths<S: Site>(
    alloc: Global,
    graph: &mut Graph,
    site: &mut S,
    paths: &[Path],
) -> Result<Paths, StaleFault>
    requires fresh { IsTrue (is_fresh graph.old) }
    requires stands { IsTrue S.tells
        → StandsFor S.world S.moment S.left_since graph.old site.old }

    ensures sees { IsTrue S.tells
        → Sees graph.old.nodes (S.world site.old).tree paths.now result }
    ensures leaves { let files = standing (S.world site.old).tree paths.now in
        Leaves S.tells paths.now files graph.old graph.new
        (S.world site.old) (S.world site.new) result }
    ensures users { IsTrue S.tells → SparesUsers S.world S.moment S.left_since
        paths.now graph.old graph.new site.old site.new }
    ensures stands { IsTrue S.tells → IsTrue (is_fresh graph.new)
        → StandsFor S.world S.moment S.left_since graph.new site.new }
    ensures crash { let tree = (S.world site.old).tree in
        IsTrue S.tells → GoesOn S.moment S.left_since site.old site.new
        (ClearStep graph.old.nodes paths.now (standing tree paths.now) tree) }
    ensures known { IsTrue S.tells → Keeps (S.known site.old) (S.known site.new) }
    ensures large { OnlyLarge result }
    ensures cause { CountsFaults (S.faults site.old) (S.faults site.new) result }
{
    let files = look(alloc, graph.nodes(), site, paths)?;
    give_up(alloc, graph, site, paths, files.as_slice())?;
    Ok(files)
}

/// Dooms these owned paths, removes the files that stand there, and forgets the paths.
fn give_up<S: Site>(
    alloc: Global,
    graph: &mut Graph,
    site: &mut S,
    paths: &[Path],
    files: &[Path],
) -> Result<(), StaleFault>
    requires fresh { IsTrue (is_fresh graph.old) }
    requires stands { IsTrue S.tells
        → StandsFor S.world S.moment S.left_since graph.old site.old }

    ensures leaves { Leaves S.tells paths.now files.now graph.old graph.new
        (S.world site.old) (S.world site.new) result }
    ensures only { IsStopped result }
    ensures stands { IsTrue S.tells → IsTrue (is_fresh graph.new)
        → StandsFor S.world S.moment S.left_since graph.new site.new }
    ensures crash { IsTrue S.tells → GoesOn S.moment S.left_since site.old site.new
        (ClearStep graph.old.nodes paths.now files.now (S.world site.old).tree) }
    ensures known { IsTrue S.tells → Keeps (S.known site.old) (S.known site.new) }
    ensures cause { CountsFaults (S.faults site.old) (S.faults site.new) result }
{
    graph.doom(alloc, site, paths)?;
    // A law: the store stands for these nodes.
    let _ = graph.nodes();
    remove(alloc, site, files)?;
    graph.forget(alloc, site, paths)?;
    Ok(())
}
