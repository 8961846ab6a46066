//! A crash of the site in memory.
ghost use Rattle.std.specs.Prelude.{◌≡◌, ◌≢◌, ◌↔◌, ◌≤◌, ◌<◌, false, [], ◌∷◌, ◌++◌, None, IfOk, OnOk, OnErr, Err, IsTrue, length, get_or};
ghost use Rattle.std.specs.FinMap as finite;
ghost use Rattle.tup_path.specs.Tree.{IsTree, tree_of_files};
ghost use Rattle.tup_site.specs.Edit.{edited};
ghost use Rattle.tup_site.specs.Known.{IsKnown, Joins};
ghost use Rattle.tup_site.specs.State.{IsImage, is_among, is_written};
ghost use Rattle.tup_site.specs.Choice.{names, is_once, chosen, known_after, with_content, IsChoice, chosen_world};
ghost use Rattle.tup_site.specs.Held.{IsHeld};
ghost use Rattle.tup_site.specs.declared.refused.MemRefused.TheVariants.{NotATree, SameStamp, NotAnImage};
ghost use Rattle.tup_site.specs.declared.change.Change.TheVariants.{Crashed};

use crate::change::Change;
use crate::choice::Choice;
use crate::known::Known;
use crate::memory::MemSite;
use crate::place::is_tree;
use crate::refused::MemRefused;
use crate::unsettled::{Bounds, is_loose, is_written_at};
use std::alloc::{AllocError, Global};
use std::collections::BTreeMap;
use tup_path::{Bytes, Path};

impl MemSite {
    ghost use Rattle.tup_site.specs.Memory.{tree_in, store_in, world_in, first_of, changes_of, state_of, known_in, known_with, calls_of, faults_of, fails_of, left_of, HasRoom, MayLeave};

    /// Stops as by a crash now, which leaves the choice: all of it is durable then, and no call has
    /// to fail for `stop_after` any more. It counts as no call. After a refusal all is as before.
    ///
    /// `NotATree` where the choice names a path twice or leaves no tree; else `SameStamp` where two
    /// different contents, known or chosen, have one stamp; else `NotAnImage` where a crash can't
    /// leave it.
    pub fn crash(&mut self, alloc: Global, choice: Choice) -> Result<(), MemRefused>
        ensures is_choice { OnOk result (IsChoice (tree_in self.old) choice.tree) }
        ensures are_known { OnOk result (IsKnown (known_with self.old choice)) }
        ensures leaves { OnOk result (MayLeave self.old choice) }
        ensures world { OnOk result (world_in self.new ≡ chosen_world (tree_in self.old) choice) }
        ensures noted { OnOk result
            (changes_of self.new ≡ changes_of self.old ++ Crashed choice ∷ []) }
        ensures left { OnOk result (left_of self.new ≡ None) }
        ensures unchanged { OnErr result (world_in self.new ≡ world_in self.old) }
        ensures unnoted { OnErr result (changes_of self.new ≡ changes_of self.old) }
        ensures still_left { OnErr result (left_of self.new ≡ left_of self.old) }
        ensures first { first_of self.new ≡ first_of self.old }
        ensures calls { calls_of self.new ≡ calls_of self.old }
        ensures faults { faults_of self.new ≡ faults_of self.old }
        ensures fails { fails_of self.new ≡ fails_of self.old }
        ensures not_a_tree { result ≡ Err NotATree → ¬ IsChoice (tree_in self.old) choice.tree }
        ensures same_stamp { result ≡ Err SameStamp → IsChoice (tree_in self.old) choice.tree
            × ¬ IsKnown (known_with self.old choice) }
        ensures not_an_image { result ≡ Err NotAnImage → IsChoice (tree_in self.old) choice.tree
            × IsKnown (known_with self.old choice) × ¬ MayLeave self.old choice }
    {
        let files = self.chosen_tree(choice.tree.as_slice())?;
        let known = self.chosen_known(choice.tree.as_slice())?;
        if !self.may_leave(&files, &choice) {
            return Err(MemRefused::NotAnImage);
        }
        self.leave(alloc, files, known, choice)?;
        Ok(())
    }

    /// Refuses a choice that a crash now can't leave.
    pub(crate) fn allow(&self, choice: &Choice) -> Result<(), MemRefused>
        ensures is_choice { OnOk result (IsChoice (tree_in self.now) choice.now.tree) }
        ensures leaves { OnOk result (MayLeave self.now choice.now) }
    {
        let files = self.chosen_tree(choice.tree.as_slice())?;
        self.chosen_known(choice.tree.as_slice())?;
        if !self.may_leave(&files, choice) {
            return Err(MemRefused::NotAnImage);
        }
        Ok(())
    }

    // Changes all to what a crash left, and notes it.
    fn leave(
        &mut self,
        alloc: Global,
        files: BTreeMap<Path, Bytes>,
        known: Known,
        choice: Choice,
    ) -> Result<(), AllocError>
        requires files { tree_of_files files.entries ≡ chosen (tree_in self.old) choice.tree }
        requires tree { IsTree (tree_of_files files.entries) }
        requires known { IsKnown (known_with self.old choice) }
        requires held { IsHeld known.contents.entries (known_with self.old choice) }
        ensures world { OnOk result (world_in self.new ≡ chosen_world (tree_in self.old) choice) }
        ensures noted { OnOk result
            (changes_of self.new ≡ changes_of self.old ++ Crashed choice ∷ []) }
        ensures left { OnOk result (left_of self.new ≡ None) }
        ensures unchanged { OnErr result (world_in self.new ≡ world_in self.old) }
        ensures unnoted { OnErr result (changes_of self.new ≡ changes_of self.old) }
        ensures still_left { OnErr result (left_of self.new ≡ left_of self.old) }
        ensures first { first_of self.new ≡ first_of self.old }
        ensures calls { calls_of self.new ≡ calls_of self.old }
        ensures faults { faults_of self.new ≡ faults_of self.old }
        ensures fails { fails_of self.new ≡ fails_of self.old }
    {
        self.changes.reserve(1)?;
        let store = Vec::from_slice(alloc, choice.db.as_slice())?;
        self.go_on(files, store, known, choice);
        Ok(())
    }

    // Goes on with the files, the store and the known contents that a crash left, and notes it.
    fn go_on(&mut self, files: BTreeMap<Path, Bytes>, store: Vec<u8>, known: Known, choice: Choice)
        requires room { HasRoom self.old }
        requires files { tree_of_files files.entries ≡ chosen (tree_in self.old) choice.tree }
        requires tree { IsTree (tree_of_files files.entries) }
        requires store { store.items ≡ choice.db }
        requires known { IsKnown (known_with self.old choice) }
        requires held { IsHeld known.contents.entries (known_with self.old choice) }
        ensures tree { tree_in self.new ≡ chosen (tree_in self.old) choice.tree }
        ensures store { store_in self.new ≡ choice.db }
        ensures noted { changes_of self.new ≡ changes_of self.old ++ Crashed choice ∷ [] }
        ensures left { left_of self.new ≡ None }
        ensures first { first_of self.new ≡ first_of self.old }
        ensures calls { calls_of self.new ≡ calls_of self.old }
        ensures faults { faults_of self.new ≡ faults_of self.old }
        ensures fails { fails_of self.new ≡ fails_of self.old }
    {
        self.files = files;
        self.store = store;
        self.known = known;
        self.left = None;
        self.changes.push_reserved(Change::Crashed { choice });
    }

    // The files with those of a choice, where they are a tree and it names no path twice.
    fn chosen_tree(
        &self,
        choice: &[(Path, Option<Bytes>)],
    ) -> Result<BTreeMap<Path, Bytes>, MemRefused>
        ensures files { IfOk result
            (λ files. tree_of_files files.entries ≡ chosen (tree_in self.now) choice.now) }
        ensures is_choice { OnOk result (IsChoice (tree_in self.now) choice.now) }
        ensures not_a_tree { result ≡ Err NotATree → ¬ IsChoice (tree_in self.now) choice.now }
        ensures no_stamp { result ≢ Err SameStamp }
        ensures no_image { result ≢ Err NotAnImage }
    {
        if !is_named_once(choice) {
            return Err(MemRefused::NotATree);
        }
        let files = self.chosen_files(choice)?;
        if !is_tree(&files) {
            return Err(MemRefused::NotATree);
        }
        Ok(files)
    }

    // The files with those of a choice.
    fn chosen_files(
        &self,
        choice: &[(Path, Option<Bytes>)],
    ) -> Result<BTreeMap<Path, Bytes>, AllocError>
        ensures { IfOk result
            (λ files. tree_of_files files.entries ≡ chosen (tree_in self.now) choice.now) }
    {
        let mut files = self.files.clone()?;
        for (path, content) in choice {
            change_file(&mut files, path, content)?;
        }
        Ok(files)
    }

    // The known contents with those of a choice, where no two different ones have one stamp.
    fn chosen_known(&self, choice: &[(Path, Option<Bytes>)]) -> Result<Known, MemRefused>
        ensures held { IfOk result
            (λ known. IsHeld known.contents.entries (known_after (known_in self.now) choice.now)) }
        ensures known { OnOk result (IsKnown (known_after (known_in self.now) choice.now)) }
        ensures same_stamp { result ≡ Err SameStamp
            → ¬ IsKnown (known_after (known_in self.now) choice.now) }
        ensures no_tree { result ≢ Err NotATree }
        ensures no_image { result ≢ Err NotAnImage }
    {
        let mut known = self.known.copy()?;
        for (_, content) in choice {
            take_up(&mut known, content)?;
        }
        Ok(known)
    }

    // Whether a crash now may leave a choice, and with it these files.
    fn may_leave(&self, files: &BTreeMap<Path, Bytes>, choice: &Choice) -> bool
        requires files { tree_of_files files.now.entries
            ≡ chosen (tree_in self.now) choice.now.tree }
        requires tree { IsTree (tree_of_files files.now.entries) }
        requires joins { Joins (known_in self.now) (tree_of_files files.now.entries) }
        ensures { IsTrue result
            ↔ IsImage (state_of self.now) (chosen_world (tree_in self.now) choice.now) }
    {
        let bounds = Bounds::of(&self.changes);
        let left = choice.db.as_slice();
        if left.len() < bounds.floor || bounds.height < left.len() {
            return false;
        }
        if !self.keeps_synced(left, bounds.floor) {
            return false;
        }
        self.keeps_settled(files, choice.tree.as_slice())
    }

    // Whether bytes differ from the store up to its floor only where it was written.
    fn keeps_synced(&self, left: &[u8], floor: usize) -> bool
        requires left { floor ≤ length left.now }
        requires store { floor ≤ length (store_in self.now) }
        ensures { IsTrue result ↔ ((place d : _) → place < floor
            → is_written (state_of self.now).written place ≡ false
            → get_or left.now place d ≡ get_or (store_in self.now) place d) }
    {
        for place in 0..floor {
            if left[place] != self.store[place] && !is_written_at(&self.changes, place) {
                return false;
            }
        }
        true
    }

    // Whether files differ from those of the site only where a path was put or removed.
    fn keeps_settled(&self, files: &BTreeMap<Path, Bytes>, choice: &[(Path, Option<Bytes>)]) -> bool
        requires { tree_of_files files.now.entries ≡ chosen (tree_in self.now) choice.now }
        ensures { IsTrue result ↔ ((path : _) → is_among (state_of self.now).loose path ≡ false
            → finite.get (tree_of_files files.now.entries) path
            ≡ finite.get (tree_in self.now) path) }
    {
        for (path, _) in choice {
            if !self.keeps_file(files, path) {
                return false;
            }
        }
        true
    }

    // Whether these files have what the site has at a path, unless it was put or removed.
    fn keeps_file(&self, files: &BTreeMap<Path, Bytes>, path: &Path) -> bool
        ensures { IsTrue result ↔ (is_among (state_of self.now).loose path.now ≡ false
            → finite.get (tree_of_files files.now.entries) path.now
            ≡ finite.get (tree_in self.now) path.now) }
    {
        have_same(files, &self.files, path) || is_loose(&self.changes, path)
    }
}

// Takes up a content, where there is one; it may have the stamp of no other.
fn take_up(known: &mut Known, content: &Option<Bytes>) -> Result<(), MemRefused>
    ensures held { OnOk result ((contents : _) → IsHeld known.old.contents.entries contents
        → IsHeld known.new.contents.entries (with_content contents content.now)) }
    ensures same_stamp { result ≡ Err SameStamp → (contents : _)
        → IsHeld known.old.contents.entries contents
        → ¬ IsKnown (with_content contents content.now) }
    ensures no_tree { result ≢ Err NotATree }
    ensures no_image { result ≢ Err NotAnImage }
{
    match content {
        Some(content) => known.take_up(content),
        None => Ok(()),
    }
}

// Whether no path stands twice.
fn is_named_once(choice: &[(Path, Option<Bytes>)]) -> bool
    ensures { result ≡ is_once choice.now }
{
    let mut rest = choice;
    while let [file, behind @ ..] = rest {
        if has_path(behind, &file.0) {
            return false;
        }
        rest = behind;
    }
    true
}

fn has_path(choice: &[(Path, Option<Bytes>)], path: &Path) -> bool
    ensures { result ≡ names choice.now path.now }
{
    choice.iter().any(|file| path == &file.0)
}

// Sets a file, or takes it away.
fn change_file(
    files: &mut BTreeMap<Path, Bytes>,
    path: &Path,
    content: &Option<Bytes>,
) -> Result<(), AllocError>
    ensures { OnOk result (tree_of_files files.new.entries
        ≡ edited (tree_of_files files.old.entries) path.now content.now) }
{
    match content {
        Some(content) => {
            files.insert(path.clone()?, content.clone()?)?;
        }
        None => {
            files.remove(path);
        }
    }
    Ok(())
}

// Whether two maps have the same at a path.
fn have_same(files: &BTreeMap<Path, Bytes>, others: &BTreeMap<Path, Bytes>, path: &Path) -> bool
    ensures { IsTrue result ↔ (finite.get (tree_of_files files.now.entries) path.now
        ≡ finite.get (tree_of_files others.now.entries) path.now) }
{
    match (files.get(path), others.get(path)) {
        (Some(content), Some(other)) => content == other,
        (None, None) => true,
        _ => false,
    }
}
