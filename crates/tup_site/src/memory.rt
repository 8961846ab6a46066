//! A site in memory, which tells everything. Chosen calls fail.
ghost use Rattle.std.specs.Prelude.{◌≡◌, ◌≢◌, ◌⊎◌, [], ◌∷◌, ◌++◌, ◌↔◌, ◌≤◌, length, take, IfOk, OnOk, OnErr, Ok, Err, None, Some, IsSome, IsTrue};
ghost use Rattle.std.specs.Option.{option_copied};
ghost use Rattle.std.specs.FinMap as finite;
ghost use Rattle.tup_path.specs.Name.{IsPath};
ghost use Rattle.tup_path.specs.Tree.{IsTree, tree_of_files};
ghost use Rattle.tup_site.specs.Store.{Holds};
ghost use Rattle.tup_site.specs.Cause.{NeverTooLarge, IsPlace};
ghost use Rattle.tup_site.specs.Edit.{AreATree, IsTree-prop, edited};
ghost use Rattle.tup_site.specs.Known.{IsKnown, MayJoin};
ghost use Rattle.tup_site.specs.Crash.{GoesOn, NoStep};
ghost use Rattle.tup_site.specs.State.{with_edit};
ghost use Rattle.tup_site.specs.History.{at_first, after_all, contents_of};
ghost use Rattle.tup_site.specs.Sound.{IsNow, IsNow-prop};
ghost use Rattle.tup_site.specs.Held.{IsHeld, IsHeld-prop};
ghost use Rattle.tup_site.specs.declared.fault.SiteFailed.TheVariants.{Fault, Memory};
ghost use Rattle.tup_site.specs.declared.refused.MemRefused.TheVariants.{NotATree, SameStamp, NotAnImage};
ghost use Rattle.tup_site.specs.declared.change.Change.TheVariants.{Put, Removed, Settled, Written, Cut, Synced, Edited, Failed};

use crate::bytes::overwrite;
use crate::change::Change;
use crate::fault::SiteFailed;
use crate::first::{known_of, tree_of};
use crate::known::Known;
use crate::place::is_place;
use crate::refused::MemRefused;
use std::alloc::{AllocError, Global};
use std::collections::BTreeMap;
use tup_path::{Bytes, Files, MAX_DEPTH, Path};
use tup_stamp::stamp_of;

/// A tree of files and a store in memory.
///
/// It keeps the list of all that happened since it was made, and of its calls that failed. So what
/// it was at each moment, which is the list's length then, and what a crash then may leave, is
/// known.
/// The calls of `Site`, but for `faults`, are numbered from 1. Those fail whose number was listed,
/// those behind the number of `stop_after`, and a `put` of a content that has the stamp of another;
/// they change nothing, and no others fail.
#[derive(Drop)]
pub struct MemSite {
    pub(crate) files: BTreeMap<Path, Bytes>,
    pub(crate) store: Vec<u8>,
    pub(crate) known: Known,
    first: Files,
    pub(crate) changes: Vec<Change>,
    fails: Vec<u64>,
    calls: u64,
    pub(crate) left: Option<u64>,
    pub(crate) faults: u64,
    ghost is_tree: { IsTree (tree_of_files files.entries) } by { IsTree-prop (tree_of_files files.entries) },
    ghost is_now: { IsNow first changes.items (tree_of_files files.entries) store.items faults } by { IsNow-prop first changes.items (tree_of_files files.entries) store.items faults },
    ghost is_held: { IsHeld known.contents.entries
        (after_all (at_first first) changes.items).known } by { IsHeld-prop known.contents.entries (after_all (at_first first) changes.items).known },
}

impl MemSite {
    ghost use Rattle.tup_site.specs.Memory.{tree_in, store_in, world_in, first_of, changes_of, state_of, known_in, moment_of, left_since, calls_of, faults_of, fails_of, left_of, fails_next, one_more, one_less, IsCounted, added, HasRoom, IsSameBeside};

    /// A site with these files and an empty store, all of it durable. The calls with these numbers
    /// will fail.
    pub fn new(
        alloc: Global,
        files: Vec<(Path, Bytes)>,
        fails: Vec<u64>,
    ) -> Result<MemSite, MemRefused>
        ensures files { IfOk result (λ site. tree_in site ≡ tree_of_files files.items) }
        ensures are_a_tree { OnOk result (AreATree files.items) }
        ensures are_known { OnOk result (IsKnown (contents_of files.items)) }
        ensures store { IfOk result (λ site. store_in site ≡ []) }
        ensures first { IfOk result (λ site. first_of site ≡ files.items) }
        ensures changes { IfOk result (λ site. changes_of site ≡ []) }
        ensures calls { IfOk result (λ site. calls_of site ≡ 0) }
        ensures faults { IfOk result (λ site. faults_of site ≡ 0) }
        ensures fails { IfOk result (λ site. fails_of site ≡ fails.items) }
        ensures left { IfOk result (λ site. left_of site ≡ None) }
        ensures not_a_tree { result ≡ Err NotATree → ¬ AreATree files.items }
        ensures same_stamp { result ≡ Err SameStamp
            → AreATree files.items × ¬ IsKnown (contents_of files.items) }
        ensures no_image { result ≢ Err NotAnImage }
    {
        let first = Files::from_vec(files);
        let files = tree_of(alloc, first.as_slice())?;
        let known = known_of(alloc, first.as_slice())?;
        Ok(MemSite {
            files,
            store: Vec::new(alloc),
            known,
            first,
            changes: Vec::new(alloc),
            fails,
            calls: 0,
            left: None,
            faults: 0,
        })
    }

    /// Sets a file, or takes it away, as somebody else would between two calls: it counts as no
    /// call, and is durable at once. After a refusal all is as before.
    pub fn edit(
        &mut self,
        _alloc: Global,
        path: Path,
        content: Option<Bytes>,
    ) -> Result<(), MemRefused>
        ensures edited { OnOk result (tree_in self.new ≡ edited (tree_in self.old) path content) }
        ensures tree { OnOk result (IsTree (edited (tree_in self.old) path content)) }
        ensures noted { OnOk result
            (changes_of self.new ≡ changes_of self.old ++ Edited path content ∷ []) }
        ensures unchanged { OnErr result (tree_in self.new ≡ tree_in self.old) }
        ensures unnoted { OnErr result (changes_of self.new ≡ changes_of self.old) }
        ensures store { store_in self.new ≡ store_in self.old }
        ensures beside { IsSameBeside self.old self.new }
        ensures not_a_tree { result ≡ Err NotATree
            → ¬ IsTree (edited (tree_in self.old) path content) }
        ensures same_stamp { result ≡ Err SameStamp
            → IsTree (edited (tree_in self.old) path content)
            × ¬ IsKnown (with_edit (state_of self.old) path content).known }
        ensures no_image { result ≢ Err NotAnImage }
    {
        match content {
            Some(content) => self.edit_in(path, content),
            None => self.edit_away(path),
        }
    }

    fn edit_in(&mut self, path: Path, content: Bytes) -> Result<(), MemRefused>
        ensures set { OnOk result
            (tree_in self.new ≡ finite.insert (tree_in self.old) path content) }
        ensures may { OnOk result (IsPlace (tree_in self.old) path) }
        ensures noted { OnOk result
            (changes_of self.new ≡ changes_of self.old ++ Edited path (Some content) ∷ []) }
        ensures unchanged { OnErr result (tree_in self.new ≡ tree_in self.old) }
        ensures unnoted { OnErr result (changes_of self.new ≡ changes_of self.old) }
        ensures store { store_in self.new ≡ store_in self.old }
        ensures beside { IsSameBeside self.old self.new }
        ensures not_a_tree { result ≡ Err NotATree → ¬ IsPlace (tree_in self.old) path }
        ensures same_stamp { result ≡ Err SameStamp
            → IsPlace (tree_in self.old) path × ¬ MayJoin (known_in self.old) content }
        ensures no_image { result ≢ Err NotAnImage }
        ensures path { IsPath path }
    {
        prove!(path.depth() <= MAX_DEPTH);
        if !is_place(&self.files, &path) {
            return Err(MemRefused::NotATree);
        }
        if !self.may_join(&content) {
            return Err(MemRefused::SameStamp);
        }
        self.changes.reserve(1)?;
        let change = Change::Edited {
            path: path.clone()?,
            content: Some(content.clone()?),
        };
        Ok(self.set(path, content, change)?)
    }

    fn edit_away(&mut self, path: Path) -> Result<(), MemRefused>
        ensures erased { OnOk result (tree_in self.new ≡ finite.remove (tree_in self.old) path) }
        ensures noted { OnOk result
            (changes_of self.new ≡ changes_of self.old ++ Edited path None ∷ []) }
        ensures unchanged { OnErr result (tree_in self.new ≡ tree_in self.old) }
        ensures unnoted { OnErr result (changes_of self.new ≡ changes_of self.old) }
        ensures store { store_in self.new ≡ store_in self.old }
        ensures beside { IsSameBeside self.old self.new }
        ensures memory { OnErr result (result ≡ Err MemRefused.Memory) }
    {
        self.changes.reserve(1)?;
        let change = Change::Edited {
            path: path.clone()?,
            content: None,
        };
        self.erase(&path, change);
        Ok(())
    }

    // Whether a content has the stamp of no other that is known.
    pub(crate) fn may_join(&self, content: &Bytes) -> bool
        ensures { IsTrue result ↔ MayJoin (known_in self.now) content.now }
    {
        self.known.may_take(stamp_of(content.as_slice()), content)
    }

    // Sets a file, and notes it. Where there is no memory for it its content isn't known either.
    pub(crate) fn set(
        &mut self,
        path: Path,
        content: Bytes,
        change: Change,
    ) -> Result<(), AllocError>
        requires room { HasRoom self.old }
        requires place { IsPlace (tree_in self.old) path }
        requires joins { MayJoin (known_in self.old) content }
        requires change { (change ≡ Put path content) ⊎ (change ≡ Edited path (Some content)) }
        ensures set { OnOk result
            (tree_in self.new ≡ finite.insert (tree_in self.old) path content) }
        ensures noted { OnOk result (changes_of self.new ≡ changes_of self.old ++ change ∷ []) }
        ensures unchanged { OnErr result (tree_in self.new ≡ tree_in self.old) }
        ensures unnoted { OnErr result (changes_of self.new ≡ changes_of self.old) }
        ensures store { store_in self.new ≡ store_in self.old }
        ensures beside { IsSameBeside self.old self.new }
    {
        prove!(path.depth() <= MAX_DEPTH);
        let stamp = stamp_of(content.as_slice());
        let is_new = self.known.take(stamp, content.clone()?)?;
        if self.files.insert(path, content).is_err() {
            self.known.undo(stamp, is_new);
            return Err(AllocError);
        }
        self.changes.push_reserved(change);
        Ok(())
    }

    // Takes a file away, and notes it.
    pub(crate) fn erase(&mut self, path: &Path, change: Change)
        requires room { HasRoom self.old }
        requires change { ((change ≡ Removed path.now)
            × IsSome (finite.get (tree_in self.old) path.now)) ⊎ (change ≡ Edited path.now None) }
        ensures erased { tree_in self.new ≡ finite.remove (tree_in self.old) path.now }
        ensures noted { changes_of self.new ≡ changes_of self.old ++ change ∷ [] }
        ensures store { store_in self.new ≡ store_in self.old }
        ensures beside { IsSameBeside self.old self.new }
    {
        self.files.remove(path);
        self.changes.push_reserved(change);
    }

    // Writes bytes into the store, and notes it.
    pub(crate) fn write(
        &mut self,
        at: usize,
        bytes: &[u8],
        change: Change,
    ) -> Result<(), AllocError>
        requires room { HasRoom self.old }
        requires at { at ≤ length (store_in self.old) }
        requires change { change ≡ Written at bytes.now }
        ensures written { OnOk result (Holds (store_in self.old) at bytes.now (store_in self.new)) }
        ensures noted { OnOk result (changes_of self.new ≡ changes_of self.old ++ change ∷ []) }
        ensures unchanged { OnErr result (store_in self.new ≡ store_in self.old) }
        ensures unnoted { OnErr result (changes_of self.new ≡ changes_of self.old) }
        ensures tree { tree_in self.new ≡ tree_in self.old }
        ensures beside { IsSameBeside self.old self.new }
    {
        overwrite(&mut self.store, at, bytes)?;
        self.changes.push_reserved(change);
        Ok(())
    }

    // Cuts the store, and notes it.
    pub(crate) fn cut(&mut self, len: u64)
        requires { HasRoom self.old }
        ensures cut { store_in self.new ≡ take len (store_in self.old) }
        ensures noted { changes_of self.new ≡ changes_of self.old ++ Cut len ∷ [] }
        ensures tree { tree_in self.new ≡ tree_in self.old }
        ensures beside { IsSameBeside self.old self.new }
    {
        self.store.truncate(len as usize);
        self.changes.push_reserved(Change::Cut { len });
    }

    // Notes that the tree or the store is durable now.
    pub(crate) fn mark(&mut self, change: Change)
        requires room { HasRoom self.old }
        requires mark { (change ≡ Settled) ⊎ (change ≡ Synced) }
        ensures noted { changes_of self.new ≡ changes_of self.old ++ change ∷ [] }
        ensures same { world_in self.new ≡ world_in self.old }
        ensures beside { IsSameBeside self.old self.new }
    {
        self.changes.push_reserved(change);
    }

    /// Lets so many calls pass; all later ones fail, until `run_on`.
    pub fn stop_after(&mut self, calls: u64)
        ensures left { left_of self.new ≡ Some calls }
        ensures same { world_in self.new ≡ world_in self.old }
        ensures changes { changes_of self.new ≡ changes_of self.old }
        ensures first { first_of self.new ≡ first_of self.old }
        ensures calls { calls_of self.new ≡ calls_of self.old }
        ensures faults { faults_of self.new ≡ faults_of self.old }
        ensures fails { fails_of self.new ≡ fails_of self.old }
    {
        self.left = Some(calls);
    }

    /// Lets all calls pass again but those whose number was listed.
    pub fn run_on(&mut self)
        ensures left { left_of self.new ≡ None }
        ensures same { world_in self.new ≡ world_in self.old }
        ensures changes { changes_of self.new ≡ changes_of self.old }
        ensures first { first_of self.new ≡ first_of self.old }
        ensures calls { calls_of self.new ≡ calls_of self.old }
        ensures faults { faults_of self.new ≡ faults_of self.old }
        ensures fails { fails_of self.new ≡ fails_of self.old }
    {
        self.left = None;
    }

    /// The content of a file, or `None` where no file is.
    pub fn file(&self, path: &Path) -> Option<&Bytes>
        ensures { option_copied result ≡ finite.get (tree_in self.now) path.now }
    {
        self.files.get(path)
    }

    /// The bytes of the store.
    pub fn store(&self) -> &[u8]
        ensures { result.now ≡ store_in self.now }
    {
        &self.store
    }

    /// How many calls of `Site`, but for `faults`, were made; it stands still at the last `u64`.
    pub fn calls(&self) -> u64
        ensures { result ≡ calls_of self.now }
    {
        self.calls
    }

    /// How much happened so far: how long the list is.
    pub fn moment(&self) -> u64
        ensures { result ≡ moment_of self.now }
    {
        self.changes.len() as u64
    }

    // Begins a call, which may have to fail. It takes room for what it will have done.
    pub(crate) fn begin(&mut self) -> Result<(), SiteFailed>
        ensures counted { IsCounted self.old self.new (IsTrue (fails_next self.old)) result }
        ensures noted { changes_of self.new ≡ changes_of self.old ++ added result [] }
        ensures same { world_in self.new ≡ world_in self.old }
        ensures room { OnOk result (HasRoom self.new) }
        ensures never_too_large { NeverTooLarge result }
        ensures crash { GoesOn moment_of left_since self.old self.new NoStep }
        ensures known { known_in self.new ≡ known_in self.old }
    {
        self.begin_noted()
    }

    fn begin_noted(&mut self) -> Result<(), SiteFailed>
        ensures counted { IsCounted self.old self.new (IsTrue (fails_next self.old)) result }
        ensures noted { changes_of self.new ≡ changes_of self.old ++ added result [] }
        ensures same { world_in self.new ≡ world_in self.old }
        ensures room { OnOk result (HasRoom self.new) }
        ensures never_too_large { NeverTooLarge result }
    {
        let has_to_fail = self.count();
        self.changes.reserve(1)?;
        if has_to_fail {
            return Err(self.fail());
        }
        Ok(())
    }

    // Counts a call, and answers whether it has to fail.
    fn count(&mut self) -> bool
        ensures fails { result ≡ fails_next self.old }
        ensures calls { calls_of self.new ≡ one_more (calls_of self.old) }
        ensures left { left_of self.new ≡ one_less (left_of self.old) }
        ensures same { world_in self.new ≡ world_in self.old }
        ensures changes { changes_of self.new ≡ changes_of self.old }
        ensures first { first_of self.new ≡ first_of self.old }
        ensures faults { faults_of self.new ≡ faults_of self.old }
        ensures listed { fails_of self.new ≡ fails_of self.old }
    {
        self.calls = self.calls.saturating_add(1);
        let (is_used_up, left) = match self.left {
            Some(left) => (left == 0, Some(left.saturating_sub(1))),
            None => (false, None),
        };
        self.left = left;
        let is_listed = self.fails.contains(&self.calls);
        is_listed || is_used_up
    }

    // A call that fails changes nothing but the list and the count.
    pub(crate) fn fail(&mut self) -> SiteFailed
        requires { HasRoom self.old }
        ensures fault { result ≡ Fault }
        ensures noted { changes_of self.new ≡ changes_of self.old ++ Failed ∷ [] }
        ensures same { world_in self.new ≡ world_in self.old }
        ensures first { first_of self.new ≡ first_of self.old }
        ensures calls { calls_of self.new ≡ calls_of self.old }
        ensures faults { faults_of self.new ≡ one_more (faults_of self.old) }
        ensures fails { fails_of self.new ≡ fails_of self.old }
        ensures left { left_of self.new ≡ left_of self.old }
    {
        self.changes.push_reserved(Change::Failed);
        self.faults = self.faults.saturating_add(1);
        SiteFailed::Fault
    }
}
