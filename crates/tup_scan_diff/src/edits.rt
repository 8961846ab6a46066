//! The edits of a scan.
ghost use Rattle.std.specs.Prelude.{◌≡◌, ◌++◌, ◌∷◌, [], Ok, IfErr, IfOk, OnOk};
ghost use Rattle.std.specs.FinMap as finite;
ghost use Rattle.tup_path.specs.Gives.{GivesUnless};
ghost use Rattle.tup_graph.specs.Transactions.{seen_so as seen_of};
ghost use Rattle.tup_scan_diff.specs.Edits.{seen_edits, news_edits, gone_edits, create_edits, modify_edits};
ghost use Rattle.tup_scan_diff.specs.Present.{stamps_in};
ghost use Rattle.tup_scan_diff.specs.Edits.{is_same, not_seen as not_seen_of, to_read as to_read_of};

use crate::present::Present;
use crate::stamps::Stamps;
use std::alloc::Global;
use std::collections::BTreeSet;
use tup_graph::{Edit, Edits, GraphFault};
use tup_path::{ByPath, Items, Path};
use tup_record::Record;
use tup_stamp::Stamp;

impl Present<'_> {
    /// The edits by which files are seen as the scan found them.
    pub(crate) fn seen_edits(&self, alloc: Global) -> Result<Edits, GraphFault>
        ensures ok { IfOk result
            (λ edits. edits ≡ seen_edits self.now.nodes.now (stamps_in self.now)) }
        ensures err { IfErr result (λ fault. fault ≡ GraphFault.Memory) }
    {
        match &self.stamps {
            Stamps::Edited(stamps) => self.edited(alloc, stamps),
            Stamps::Found(stamps) => self.found(alloc, stamps),
        }
    }

    /// The edits by which files are seen of which these have other stamps now.
    fn edited(&self, alloc: Global, stamps: &ByPath<Stamp>) -> Result<Edits, GraphFault>
        ensures ok { IfOk result
            (λ edits. edits ≡ news_edits self.now.nodes.now (finite.entries stamps.now)) }
        ensures err { IfErr result (λ fault. fault ≡ GraphFault.Memory) }
    {
        let mut edits = Items::new(alloc);
        self.push_news(&mut edits, stamps)?;
        Ok(edits)
    }

    /// The edits by which files are seen with these stamps.
    fn found(&self, alloc: Global, stamps: &ByPath<Stamp>) -> Result<Edits, GraphFault>
        ensures ok { IfOk result
            (λ edits. edits ≡ seen_edits self.now.nodes.now stamps.now) }
        ensures err { IfErr result (λ fault. fault ≡ GraphFault.Memory) }
    {
        let mut edits = Items::new(alloc);
        self.push_news(&mut edits, stamps)?;
        self.push_gone(&mut edits, stamps)?;
        Ok(edits)
    }

    /// These folders are to be read and these rules to be run, those aside that are so already.
    pub(crate) fn push_marks(
        &self,
        edits: &mut Edits,
        dirs: &BTreeSet<Path>,
        numbers: &[u32],
    ) -> Result<(), GraphFault>
        ensures ok { OnOk result (edits.new ≡ edits.old
            ++ create_edits self.now.nodes.now dirs.now.keys
            ++ modify_edits self.now.nodes.now numbers.now) }
        ensures err { IfErr result (λ fault. fault ≡ GraphFault.Memory) }
    {
        self.push_created(edits, dirs)?;
        self.push_flags(edits, numbers)
    }

    /// Files that are new, or have another stamp, are seen so.
    fn push_news(&self, edits: &mut Edits, stamps: &ByPath<Stamp>) -> Result<(), GraphFault>
        ensures ok { OnOk result (edits.new ≡ edits.old
            ++ news_edits self.now.nodes.now (finite.entries stamps.now)) }
        ensures err { IfErr result (λ fault. fault ≡ GraphFault.Memory) }
    {
        for (path, stamp) in stamps.iter() {
            self.push_if_news(edits, path, stamp)?;
        }
        Ok(())
    }

    /// A file, if it is new or has another stamp, is seen so.
    fn push_if_news(&self, edits: &mut Edits, path: &Path, stamp: &Stamp) -> Result<(), GraphFault>
        ensures ok { OnOk result (edits.new ≡ edits.old
            ++ news_edits self.now.nodes.now ((path.now, stamp.now) ∷ [])) }
        ensures err { IfErr result (λ fault. fault ≡ GraphFault.Memory) }
    {
        if !is_seen(self.nodes.seen(path), stamp) {
            edits.push(seen_so(path, stamp)?)?;
        }
        Ok(())
    }

    /// Files that are gone are seen no longer.
    fn push_gone(&self, edits: &mut Edits, stamps: &ByPath<Stamp>) -> Result<(), GraphFault>
        ensures ok { OnOk result (edits.new ≡ edits.old
            ++ gone_edits stamps.now (finite.entries self.now.nodes.now.seen)) }
        ensures err { IfErr result (λ fault. fault ≡ GraphFault.Memory) }
    {
        for (path, stamp) in self.nodes.files() {
            push_if_gone(edits, stamps, path, stamp)?;
        }
        Ok(())
    }

    /// Folders are to be read, those aside that are so already.
    fn push_created(&self, edits: &mut Edits, dirs: &BTreeSet<Path>) -> Result<(), GraphFault>
        ensures ok { OnOk result (edits.new ≡ edits.old
            ++ create_edits self.now.nodes.now dirs.now.keys) }
        ensures err { IfErr result (λ fault. fault ≡ GraphFault.Memory) }
    {
        for dir in dirs {
            self.push_if_uncreated(edits, dir)?;
        }
        Ok(())
    }

    /// A folder is to be read, if it isn't so already.
    fn push_if_uncreated(&self, edits: &mut Edits, dir: &Path) -> Result<(), GraphFault>
        ensures ok { OnOk result (edits.new ≡ edits.old
            ++ create_edits self.now.nodes.now (dir.now ∷ [])) }
        ensures err { IfErr result (λ fault. fault ≡ GraphFault.Memory) }
    {
        if !self.nodes.is_created(dir) {
            edits.push(to_read(dir)?)?;
        }
        Ok(())
    }

    /// Rules are to be run, those aside that are so already.
    fn push_flags(&self, edits: &mut Edits, numbers: &[u32]) -> Result<(), GraphFault>
        ensures ok { OnOk result (edits.new ≡ edits.old
            ++ modify_edits self.now.nodes.now numbers.now) }
        ensures err { IfErr result (λ fault. fault ≡ GraphFault.Memory) }
    {
        for number in numbers {
            self.push_if_unflagged(edits, *number)?;
        }
        Ok(())
    }

    /// A rule is to be run, if it isn't so already.
    fn push_if_unflagged(&self, edits: &mut Edits, number: u32) -> Result<(), GraphFault>
        ensures ok { OnOk result (edits.new ≡ edits.old
            ++ modify_edits self.now.nodes.now (number ∷ [])) }
        ensures err { IfErr result (λ fault. fault ≡ GraphFault.Memory) }
    {
        if !self.nodes.flagged(number) {
            edits.push(Edit::Put(Record::Modify { number }))?;
        }
        Ok(())
    }
}

/// A file, if it is gone, is seen no longer.
fn push_if_gone(
    edits: &mut Edits,
    stamps: &ByPath<Stamp>,
    path: &Path,
    stamp: &Stamp,
) -> Result<(), GraphFault>
    ensures ok { OnOk result (edits.new ≡ edits.old
        ++ gone_edits stamps.now ((path.now, stamp.now) ∷ [])) }
    ensures err { IfErr result (λ fault. fault ≡ GraphFault.Memory) }
{
    if !stamps.contains(path) {
        edits.push(not_seen(path, stamp)?)?;
    }
    Ok(())
}

/// Whether a file was seen with this stamp.
fn is_seen(seen: Option<Stamp>, stamp: &Stamp) -> bool
    ensures { result ≡ is_same seen stamp.now }
{
    match seen {
        Some(seen) => seen.0 == stamp.0,
        None => false,
    }
}

/// A file is seen with its stamp.
fn seen_so(path: &Path, stamp: &Stamp) -> Result<Edit, GraphFault>
    ensures { GivesUnless result GraphFault.Memory (Ok (seen_of (path.now, stamp.now))) }
{
    Ok(Edit::Put(Record::Seen {
        path: path.clone()?,
        stamp: *stamp,
    }))
}

/// A file is seen no longer.
fn not_seen(path: &Path, stamp: &Stamp) -> Result<Edit, GraphFault>
    ensures { GivesUnless result GraphFault.Memory (Ok (not_seen_of (path.now, stamp.now))) }
{
    Ok(Edit::Remove(Record::Seen {
        path: path.clone()?,
        stamp: *stamp,
    }))
}

/// A folder is to be read.
fn to_read(dir: &Path) -> Result<Edit, GraphFault>
    ensures { GivesUnless result GraphFault.Memory (Ok (to_read_of dir.now)) }
{
    Ok(Edit::Put(Record::Create { dir: dir.clone()? }))
}
