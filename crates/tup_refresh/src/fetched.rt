//! The contents of sources that were asked for.
ghost use Rattle.std.specs.Prelude.{◌≡◌, ◌<◌, length, true, IsTrue, IfOk, OnOk};
ghost use Rattle.std.specs.BTreeSet.{contains};
ghost use Rattle.std.specs.FinMap as finite;
ghost use Rattle.std.specs.Map.{keys_of};
ghost use Rattle.tup_path.specs.Name.{Names};
ghost use Rattle.tup_path.specs.Order.{by_names};
ghost use Rattle.tup_path.specs.Tree.{Tree};
ghost use Rattle.tup_site.specs.Cause.{CountsFaults, NamesLength, OnlyLarge};
ghost use Rattle.tup_site.specs.Crash.{GoesOn, NoStep};
ghost use Rattle.tup_rule.specs.Rule.{among};
ghost use Rattle.tup_refresh.specs.Part.{AreFetched, IsUnfetched};

use std::alloc::{AllocError, Global};
use std::collections::BTreeSet;
use tup_path::{ByPath, Bytes, Path};
use tup_site::{Site, SiteFailed};

/// The contents of sources that were asked for so far.
#[derive(Drop)]
pub(crate) struct Fetched {
    /// The sources whose content wasn't asked for.
    pub missing: BTreeSet<Path>,
    /// The contents of the others.
    pub contents: ByPath<Bytes>,
}

impl Fetched {
    /// No content of these files was asked for.
    pub(crate) fn new(alloc: Global, files: &[(Path, Bytes)]) -> Result<Fetched, AllocError>
        ensures { IfOk result (IsUnfetched (keys_of files.now)) }
    {
        let paths = paths_of(alloc, files)?;
        let missing = in_order(alloc, paths)?;
        Ok(Fetched {
            missing,
            contents: ByPath::new(alloc),
        })
    }

    /// Asks the site for the content of a source.
    pub(crate) fn fetch<S: Site>(
        &mut self,
        alloc: Global,
        site: &mut S,
        path: Path,
    ) -> Result<(), SiteFailed>
        requires missing { contains by_names self.old.missing path ≡ true }
        ensures fetched { IsTrue S.tells → OnOk result ((sources : Tree) →
            finite.get sources path ≡ finite.get (S.world site.old).tree path →
            AreFetched sources self.old → AreFetched sources self.new) }
        ensures fewer { OnOk result
            (length self.new.missing.keys < length self.old.missing.keys) }

        ensures large { OnlyLarge result }
        ensures named { IsTrue S.tells → NamesLength (S.world site.old).tree path result }
        ensures cause { CountsFaults (S.faults site.old) (S.faults site.new) result }

        ensures same { IsTrue S.tells → S.world site.new ≡ S.world site.old }
        ensures crash { IsTrue S.tells
            → GoesOn S.moment S.left_since site.old site.new NoStep }
        ensures known { IsTrue S.tells → S.known site.new ≡ S.known site.old }
    {
        let content = site.get(alloc, &path)?;
        Ok(self.note(path, content)?)
    }

    /// Notes the content of a source.
    fn note(&mut self, path: Path, content: Option<Bytes>) -> Result<(), AllocError>
        requires { contains by_names self.old.missing path ≡ true }
        ensures fetched { OnOk result ((sources : Tree) → content ≡ finite.get sources path
            → AreFetched sources self.old → AreFetched sources self.new) }
        ensures fewer { length self.new.missing.keys < length self.old.missing.keys }
    {
        self.missing.remove(&path);
        match content {
            Some(content) => Ok(self.contents.insert(path, content)?),
            None => Ok(()),
        }
    }
}

/// The paths of files.
fn paths_of(alloc: Global, files: &[(Path, Bytes)]) -> Result<Vec<Path>, AllocError>
    ensures { IfOk result (λ paths. paths.items ≡ keys_of files.now) }
{
    let mut paths = Vec::new(alloc);
    for (path, _) in files {
        paths.push(path.clone()?)?;
    }
    Ok(paths)
}

/// The set of some paths. Where they come in order it takes two comparisons for each.
fn in_order(alloc: Global, paths: Vec<Path>) -> Result<BTreeSet<Path>, AllocError>
    ensures { IfOk result (λ set. (path : Names)
        → contains by_names set path ≡ among path paths.items) }
{
    paths.into_iter().collect(alloc)
}
