//! A refresh.
ghost use Rattle.std.specs.Prelude.{◌≡◌, IsTrue, IfOk};
ghost use Rattle.std.specs.FinMap as finite;
ghost use Rattle.tup_path.specs.Order.{by_names};
ghost use Rattle.tup_path.specs.Tree.{Tree};
ghost use Rattle.tup_site.specs.Crash.{GoesOn, NoStep};
ghost use Rattle.tup_graph.specs.Answers.{tup_config};
ghost use Rattle.tup_ledger.specs.Sources.{sources_of};
ghost use Rattle.tup_refresh.specs.Cause.{CountsFaults, IsRefreshOf, IsWalkedOf, NamesLength, OnlyLarge};
ghost use Rattle.tup_refresh.specs.Part.{AreFetched, AreFilesOf, HasConfig, HasPaths, IsOutlined};
ghost use Rattle.tup_refresh.specs.Refresh.{AreSorted, AreTrue};
ghost use Rattle.tup_refresh.specs.Untouched.{SeesSources};

use crate::fault::RefreshFault;
use crate::fetched::Fetched;
use crate::outline::outline;
use crate::refreshed::Refreshed;
use crate::walk::{Walk, done};
use std::alloc::Global;
use tup_graph::Nodes;
use tup_path::{Bytes, Files};
use tup_readings::{Sources, settings};
use tup_site::Site;
use tup_vars::Config;

/// The readings of all folders that have a Tupfile, of which the graph keeps some. The sources are
/// the files that the graph doesn't own; it has their stamps, as a scan noted them, and `config` is
/// what that scan saw of tup.config.
///
/// A folder is read that is flagged or of which no reading is kept, and one to which something is
/// answered otherwise than its kept reading was told; each once, and no others. Only contents that
/// these readings ask for are read, each once. The clause speaks of a graph that sees the files of
/// the site and whose readings of unflagged folders are true.
///
/// A fault of tup.config comes before anything is read. Else the first `Parse` or `Circular` is told
/// that is met where all folders are read in the order of their paths, but one that another asks
/// about before that one; a folder that isn't read waits for those that its kept reading asks about.
/// The site is as it was, whatever the answer.
pub fn refresh<S: Site>(
    alloc: Global,
    nodes: &Nodes,
    site: &mut S,
    config: &Option<Bytes>,
) -> Result<Refreshed, RefreshFault>
    ensures refreshed { let sources = sources_of nodes.now (S.world site.old).tree in
        IsTrue S.tells → SeesSources sources nodes.now
        → config.now ≡ finite.get (S.world site.old).tree tup_config → AreTrue sources nodes.now
        → IsRefreshOf nodes.now sources result }
    // Whatever the site is, readings stand in the order of their folders.
    ensures sorted { IfOk result AreSorted }

    ensures large { OnlyLarge result }
    ensures named { IsTrue S.tells → NamesLength (S.world site.old).tree result }
    ensures cause { CountsFaults (S.faults site.old) (S.faults site.new) result }

    ensures same { IsTrue S.tells → S.world site.new ≡ S.world site.old }
    ensures crash { IsTrue S.tells → GoesOn S.moment S.left_since site.old site.new NoStep }
    ensures known { IsTrue S.tells → S.known site.new ≡ S.known site.old }
{
    let files = outline(alloc, nodes, config)?;
    let fetched = Fetched::new(alloc, files.as_slice())?;
    refresh_outlined(alloc, nodes, site, &files, fetched)
}

/// The same, where the sources are known by their paths.
fn refresh_outlined<S: Site>(
    alloc: Global,
    nodes: &Nodes,
    site: &mut S,
    files: &Files,
    fetched: Fetched,
) -> Result<Refreshed, RefreshFault>
    requires sorted { IsTrue (finite.is_sorted by_names files.now) }
    ensures refreshed { IsTrue S.tells → (sources : Tree)
        → IsOutlined sources (finite.from_sorted files.now) nodes.now
        → HasConfig sources (finite.from_sorted files.now) → AreFetched sources fetched
        → AreFilesOf (S.world site.old).tree sources → AreTrue sources nodes.now
        → IsRefreshOf nodes.now sources result }
    ensures sorted { IfOk result AreSorted }

    ensures large { OnlyLarge result }
    ensures named { IsTrue S.tells → NamesLength (S.world site.old).tree result }
    ensures cause { CountsFaults (S.faults site.old) (S.faults site.new) result }

    ensures same { IsTrue S.tells → S.world site.new ≡ S.world site.old }
    ensures crash { IsTrue S.tells → GoesOn S.moment S.left_since site.old site.new NoStep }
    ensures known { IsTrue S.tells → S.known site.new ≡ S.known site.old }
{
    let outline = Sources::new(alloc, files)?;
    match settings(alloc, &outline) {
        Ok(settings) => all_found(alloc, nodes, site, &outline, &settings, fetched),
        Err(fault) => Err(RefreshFault::from(fault)),
    }
}

/// The same over these settings. No folder is begun more often than it waits for another or needs a
/// content, and once more.
fn all_found<S: Site>(
    alloc: Global,
    nodes: &Nodes,
    site: &mut S,
    outline: &Sources<'_>,
    settings: &Config,
    fetched: Fetched,
) -> Result<Refreshed, RefreshFault>
    ensures refreshed { IsTrue S.tells → (sources : Tree)
        → IsOutlined sources outline.now nodes.now → AreFetched sources fetched
        → AreFilesOf (S.world site.old).tree sources → AreTrue sources nodes.now
        → IsWalkedOf nodes.now sources settings.now result }
    ensures sorted { IfOk result AreSorted }

    ensures large { OnlyLarge result }
    ensures named { IsTrue S.tells → NamesLength (S.world site.old).tree result }
    ensures cause { CountsFaults (S.faults site.old) (S.faults site.new) result }

    ensures same { IsTrue S.tells → S.world site.new ≡ S.world site.old }
    ensures crash { IsTrue S.tells → GoesOn S.moment S.left_since site.old site.new NoStep }
    ensures known { IsTrue S.tells → S.known site.new ≡ S.known site.old }
{
    let mut walk = Walk::new(alloc, outline, fetched)?;
    while let Some(dir) = walk.work.next()? {
        walk.advance(alloc, nodes, site, outline, settings, dir)?;
    }
    Ok(done(alloc, nodes, outline, walk)?)
}
