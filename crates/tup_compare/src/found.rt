//! What a site holds: the paths that its store lists, its sources, and the rules of these.
ghost use Rattle.std.specs.Prelude.{◌≡◌, ◌≤◌, ◌||◌, length, not, filter, IsTrue, IfOk, IfErr, OnOk};
ghost use Rattle.std.specs.BTreeSet.{contains};
ghost use Rattle.std.specs.FinMap as finite;
ghost use Rattle.tup_path.specs.Name.{Names};
ghost use Rattle.tup_path.specs.Order.{by_names};
ghost use Rattle.tup_path.specs.Tree.{Tree, IsTree};
ghost use Rattle.tup_site.specs.Cause.{CountsFaults, NamesLength, OnlyLarge};
ghost use Rattle.tup_site.specs.Crash.{GoesOn, NoStep};
ghost use Rattle.tup_site.specs.World.{World};
ghost use Rattle.tup_rule.specs.Rule.{among};
ghost use Rattle.tup_clean.specs.Buildable.{IsBuildable};
ghost use Rattle.tup_compare.specs.Found.{AddsFile, AgreesOnItsFiles, HandsOn, IsFound, IsOfRules, IsRefusal, IsTooMany, IsUnread, KnowsLimits, NamesOneOf};
ghost use Rattle.tup_compare.specs.Holding.{Lists, holding};
ghost use Rattle.tup_compare.specs.Sources as specs;
ghost use Rattle.tup_compare.specs.Sources.{AsksFor};
ghost use Rattle.tup_compare.specs.declared.unread.Unread.TheVariants.{Outside};

use crate::unread::Unread;
use std::alloc::{AllocError, Global};
use std::collections::BTreeSet;
use tup_path::{ByPath, Bytes, Files, Path, Paths};
use tup_project::read_all;
use tup_promise::SourcesFault;
use tup_rule::Rules;
use tup_scan::has_room;
use tup_site::{Site, SiteFailed};

/// What a site holds.
#[derive(Drop)]
pub(crate) struct Found {
    /// The paths that the store lists.
    pub owned: Paths,
    /// All other files, the sources, in the order of paths.
    pub sources: Files,
}

impl Found {
    /// Reads what a site holds whose store lists these paths, and changes nothing.
    pub(crate) fn read<S: Site>(alloc: Global, site: &mut S, owned: Paths) -> Result<Found, Unread>
        requires { IsTrue S.tells → Lists (S.world site.old).store owned }
        ensures found { IsTrue S.tells → IfOk result (IsFound (S.world site.old)) }
        ensures owned { IfOk result (λ found. found.owned ≡ owned) }
        ensures sorted { IfOk result (λ found. IsTrue (finite.is_sorted by_names found.sources)) }
        ensures cause { IsTrue S.tells → IfErr result (IsUnread (S.world site.old)) }
        ensures limits { IfErr result KnowsLimits }
        ensures same { IsTrue S.tells → S.world site.new ≡ S.world site.old }
        ensures known { IsTrue S.tells → S.known site.new ≡ S.known site.old }
        ensures crash { IsTrue S.tells
            → GoesOn S.moment S.left_since site.old site.new NoStep }
        ensures counted { HandsOn Outside (S.faults site.old) (S.faults site.new) result }
    {
        let files = site.list(alloc)?;
        few(site, &files)?;
        let apart = path_set(alloc, owned.as_slice())?;
        let beside = paths_beside(alloc, files.as_slice(), &apart)?;
        let sources = contents(alloc, site, beside.as_slice())?;
        Ok(Found { owned, sources })
    }

    /// The rules of the sources.
    pub(crate) fn rules(&self, alloc: Global) -> Result<Rules, Unread>
        requires { IsTrue (finite.is_sorted by_names self.now.sources) }
        ensures asked { (w : World) → IsFound w self.now
            → IfOk result (AsksFor (holding w self.now.owned)) }
        ensures buildable { (w : World) → IsTree w.tree → IsFound w self.now
            → IfOk result (IsBuildable (specs.sources (holding w self.now.owned))) }
        ensures refused { (w : World) → IsFound w self.now
            → IfErr result (IsRefusal (holding w self.now.owned)) }
        ensures fault { IfErr result IsOfRules }
    {
        Ok(read_all(alloc, &self.sources)?)
    }
}

/// Whether there are no more files than the site may have.
fn few<S: Site>(site: &S, files: &Paths) -> Result<(), Unread>
    ensures few { IsTrue S.tells → OnOk result (length files.now ≤ 65536) }
    ensures many { IfErr result (IsTooMany (length files.now)) }
{
    let count = files.len() as u64;
    if !has_room(site, count) {
        return Err(Unread::Sources(SourcesFault::TooManyFiles(count)));
    }
    Ok(())
}

/// The files at these paths with their contents, in the order of paths; one that isn't there any
/// more is left out.
pub(crate) fn contents<S: Site>(
    alloc: Global,
    site: &mut S,
    paths: &[Path],
) -> Result<Files, SiteFailed>
    ensures files { IsTrue S.tells → (part : Tree) → finite.keys part ≡ paths.now
        → AgreesOnItsFiles part (S.world site.old).tree
        → IfOk result (λ files. files ≡ finite.entries part) }
    ensures sorted { IfOk result (λ files. IsTrue (finite.is_sorted by_names files)) }
    ensures same { IsTrue S.tells → S.world site.new ≡ S.world site.old }
    ensures known { IsTrue S.tells → S.known site.new ≡ S.known site.old }
    ensures crash { IsTrue S.tells → GoesOn S.moment S.left_since site.old site.new NoStep }
    ensures large { IsTrue S.tells → NamesOneOf paths.now (S.world site.new).tree result }
    ensures only_large { OnlyLarge result }
    ensures counted { CountsFaults (S.faults site.old) (S.faults site.new) result }
{
    let mut files = ByPath::new(alloc);
    for path in paths {
        add(alloc, site, &mut files, path)?;
    }
    Ok(files.into_items(alloc)?)
}

/// Adds the file at a path, if it is there.
fn add<S: Site>(
    alloc: Global,
    site: &mut S,
    files: &mut ByPath<Bytes>,
    path: &Path,
) -> Result<(), SiteFailed>
    ensures added { IsTrue S.tells → let found = finite.get (S.world site.old).tree path.now in
        OnOk result (AddsFile path.now found files.old files.new) }
    ensures same { IsTrue S.tells → S.world site.new ≡ S.world site.old }
    ensures known { IsTrue S.tells → S.known site.new ≡ S.known site.old }
    ensures crash { IsTrue S.tells → GoesOn S.moment S.left_since site.old site.new NoStep }
    ensures large { IsTrue S.tells → NamesLength (S.world site.new).tree path.now result }
    ensures only_large { OnlyLarge result }
    ensures counted { CountsFaults (S.faults site.old) (S.faults site.new) result }
{
    match site.get(alloc, path)? {
        Some(content) => Ok(files.insert(path.clone()?, content)?),
        None => Ok(()),
    }
}

/// The set of these paths, for quick look-ups.
fn path_set(alloc: Global, paths: &[Path]) -> Result<BTreeSet<Path>, AllocError>
    ensures { IfOk result
        (λ set. (path : Names) → contains by_names set path ≡ among path paths.now) }
{
    let mut set = BTreeSet::new(alloc);
    add_paths(&mut set, paths)?;
    Ok(set)
}

/// Adds paths to a set.
fn add_paths(set: &mut BTreeSet<Path>, paths: &[Path]) -> Result<(), AllocError>
    ensures { OnOk result ((path : Names) → contains by_names set.new path
        ≡ (contains by_names set.old path || among path paths.now)) }
{
    for path in paths {
        set.insert(path.clone()?)?;
    }
    Ok(())
}

/// The paths that aren't in a set, in their order.
fn paths_beside(alloc: Global, paths: &[Path], set: &BTreeSet<Path>) -> Result<Paths, AllocError>
    ensures { IfOk result
        (λ left. left ≡ filter (λ path. not (contains by_names set.now path)) paths.now) }
{
    let mut left = Paths::new(alloc);
    for path in paths {
        if !set.contains(path) {
            left.push(path.clone()?)?;
        }
    }
    Ok(left)
}
