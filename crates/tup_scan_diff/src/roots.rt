//! The rules to begin with after a scan, and those above them. A rule is touched whose run asked or wrote another content, and
//! turned whose run was told that no file stands where a folder of sources came or went.
ghost use Rattle.std.specs.Prelude.{◌≡◌, ◌↔◌, ℕ, true, Contains, IfErr, IfOk, OnErr, OnOk};
ghost use Rattle.std.specs.List.Sorted.{IsStrictlySortedBy};
ghost use Rattle.std.specs.Option.{option_copied};
ghost use Rattle.std.specs.Ordering.{nat_cmp};
ghost use Rattle.tup_graph.specs.Above.{HasAsked, IsAbove};
ghost use Rattle.tup_graph.specs.Graph.{is_flagged, is_rule};
ghost use Rattle.tup_closure.specs.Grows.{Grows};
ghost use Rattle.tup_closure.specs.Readers.{AreRunsOfRules};
ghost use Rattle.tup_closure.specs.Steps.{HasStepped, HasSteppedAtMost};
ghost use Rattle.tup_scan_diff.specs.Edits.{seen_edits};
ghost use Rattle.tup_scan_diff.specs.Present.{graph_of, stamps_in};
ghost use Rattle.tup_scan_diff.specs.Touched.{AsksOneOf, FindsRoots, IsRootIn, IsUserOf, SeesOtherwise, UsesOneOf};
ghost use Rattle.tup_scan_diff.specs.Turned.{HasTurned};
ghost use Rattle.tup_scan_diff.specs.Touched.{file_of as file_in, record_of as record_in};
ghost use Rattle.tup_path.specs.Name.{Names};

use crate::present::Present;
use std::alloc::Global;
use std::collections::BTreeSet;
use std::sync::ledger::Ledger;
use tup_closure::{Steps, above, rule_count};
use tup_graph::{Edit, GraphFault};
use tup_path::{Items, Path};
use tup_readers::Indexed;
use tup_record::Record;

/// Where more files than these are seen otherwise, each rule is looked at once. A rule that asks many of them would be
/// looked at for each of them else.
const MANY: usize = 16;

impl Present<'_> {
    /// The rules that are to be run, in ascending order: those that are flagged, touched or turned, and all that recorded
    /// reads lead to from them. The edits are those by which files are seen as they stand now.
    pub(crate) fn to_run<L: Ledger>(
        &self,
        alloc: Global,
        graph: &Indexed,
        edits: &[Edit],
        steps: &mut Steps<L>,
    ) -> Result<Items<u32>, GraphFault>
        requires turned { HasTurned self.now }
        requires same { graph.now ≡ self.now.nodes.now }
        requires runs { AreRunsOfRules graph.now }
        requires seen { edits.now ≡ seen_edits self.now.nodes.now (stamps_in self.now) }
        ensures above { IfOk result (λ numbers. (number : ℕ) → Contains numbers number
            ↔ IsAbove (graph_of self.now) (IsRootIn self.now) number) }
        ensures ascending { IfOk result (λ numbers. IsStrictlySortedBy nat_cmp numbers) }
        ensures steps { OnOk result
            (HasStepped graph.now (IsRootIn self.now) steps.old steps.new) }
        ensures fewer { OnErr result
            (HasSteppedAtMost graph.now (IsRootIn self.now) steps.old steps.new) }
        ensures memory { IfErr result (λ fault. fault ≡ GraphFault.Memory) }
    {
        let roots = self.roots(alloc, graph, edits)?;
        above(alloc, graph, roots.as_slice(), steps)
    }

    /// The rules that are flagged, touched or turned. It looks at few rules where few files are seen otherwise, and at all
    /// rules where many are.
    fn roots(
        &self,
        alloc: Global,
        graph: &Indexed,
        edits: &[Edit],
    ) -> Result<Items<u32>, GraphFault>
        requires turned { HasTurned self.now }
        requires same { graph.now ≡ self.now.nodes.now }
        requires seen { edits.now ≡ seen_edits self.now.nodes.now (stamps_in self.now) }
        ensures roots { IfOk result (λ roots. (number : ℕ)
            → Contains roots number ↔ IsRootIn self.now number) }
        ensures memory { IfErr result (λ fault. fault ≡ GraphFault.Memory) }
    {
        if edits.len() > MANY {
            self.every_root(alloc)
        } else {
            self.near_roots(alloc, graph, edits)
        }
    }

    /// The rules that are flagged, touched or turned. It looks at each rule once.
    fn every_root(&self, alloc: Global) -> Result<Items<u32>, GraphFault>
        requires turned { HasTurned self.now }
        ensures roots { IfOk result (λ roots. (number : ℕ)
            → Contains roots number ↔ IsRootIn self.now number) }
        ensures memory { IfErr result (λ fault. fault ≡ GraphFault.Memory) }
    {
        let mut roots = Items::new(alloc);
        self.push_every(&mut roots)?;
        Ok(roots)
    }

    /// The rules that are flagged, touched or turned. It looks at those that are flagged, at those that may have been touched
    /// before, at those that use a path which these edits have seen otherwise, and at those that ask for a folder that came or
    /// went.
    fn near_roots(
        &self,
        alloc: Global,
        graph: &Indexed,
        edits: &[Edit],
    ) -> Result<Items<u32>, GraphFault>
        requires turned { HasTurned self.now }
        requires same { graph.now ≡ self.now.nodes.now }
        requires seen { edits.now ≡ seen_edits self.now.nodes.now (stamps_in self.now) }
        ensures roots { IfOk result (λ roots. (number : ℕ)
            → Contains roots number ↔ IsRootIn self.now number) }
        ensures memory { IfErr result (λ fault. fault ≡ GraphFault.Memory) }
    {
        let mut roots = Items::new(alloc);
        self.push_flagged(&mut roots)?;
        self.push_set(&mut roots, graph.suspects())?;
        self.push_users_of(alloc, &mut roots, graph, edits)?;
        self.push_turned(alloc, &mut roots, graph)?;
        Ok(roots)
    }

    /// Adds all rules that are flagged, touched or turned.
    fn push_every(&self, roots: &mut Items<u32>) -> Result<(), GraphFault>
        requires turned { HasTurned self.now }
        ensures roots { OnOk result (FindsRoots self.now
            (λ number. is_rule self.now.nodes.now number ≡ true) roots.old roots.new) }
        ensures memory { IfErr result (λ fault. fault ≡ GraphFault.Memory) }
    {
        for number in 0..rule_count(self.nodes)? {
            self.push_root(roots, number)?;
        }
        Ok(())
    }

    /// Adds the rules that are flagged.
    fn push_flagged(&self, roots: &mut Items<u32>) -> Result<(), GraphFault>
        requires turned { HasTurned self.now }
        ensures roots { OnOk result (FindsRoots self.now
            (λ number. is_flagged self.now.nodes.now number ≡ true) roots.old roots.new) }
        ensures memory { IfErr result (λ fault. fault ≡ GraphFault.Memory) }
    {
        for (number, _) in self.nodes.flags() {
            self.push_root(roots, *number)?;
        }
        Ok(())
    }

    /// Adds the rules whose records ask for a folder that came or went, if they are flagged, touched or turned.
    fn push_turned(
        &self,
        alloc: Global,
        roots: &mut Items<u32>,
        graph: &Indexed,
    ) -> Result<(), GraphFault>
        requires turned { HasTurned self.now }
        ensures roots { OnOk result (FindsRoots self.now
            (AsksOneOf graph.now self.now.turned.keys) roots.old roots.new) }
        ensures memory { IfErr result (λ fault. fault ≡ GraphFault.Memory) }
    {
        for path in &self.turned {
            self.push_readers(alloc, roots, graph, path)?;
        }
        Ok(())
    }

    /// Adds the rules whose records ask a path, if they are flagged, touched or turned.
    fn push_readers(
        &self,
        alloc: Global,
        roots: &mut Items<u32>,
        graph: &Indexed,
        path: &Path,
    ) -> Result<(), GraphFault>
        requires turned { HasTurned self.now }
        ensures roots { OnOk result (FindsRoots self.now
            (λ number. HasAsked graph.now number path.now) roots.old roots.new) }
        ensures memory { IfErr result (λ fault. fault ≡ GraphFault.Memory) }
    {
        let readers = graph.readers_of(alloc, path)?;
        self.push_all(roots, &readers)
    }

    /// Adds the rules that use a path which one of some edits has seen otherwise, if they are flagged, touched or turned.
    fn push_users_of(
        &self,
        alloc: Global,
        roots: &mut Items<u32>,
        graph: &Indexed,
        edits: &[Edit],
    ) -> Result<(), GraphFault>
        requires turned { HasTurned self.now }
        ensures roots { OnOk result (FindsRoots self.now
            (UsesOneOf graph.now edits.now) roots.old roots.new) }
        ensures memory { IfErr result (λ fault. fault ≡ GraphFault.Memory) }
    {
        for edit in edits {
            self.push_users_at(alloc, roots, graph, edit)?;
        }
        Ok(())
    }

    /// Adds those that use a path which an edit has seen otherwise.
    fn push_users_at(
        &self,
        alloc: Global,
        roots: &mut Items<u32>,
        graph: &Indexed,
        edit: &Edit,
    ) -> Result<(), GraphFault>
        requires turned { HasTurned self.now }
        ensures roots { OnOk result (FindsRoots self.now
            (λ number. (path : Names) × SeesOtherwise edit.now path
            × IsUserOf graph.now path number) roots.old roots.new) }
        ensures memory { IfErr result (λ fault. fault ≡ GraphFault.Memory) }
    {
        match file_of(record_of(edit)) {
            Some(path) => self.push_users(alloc, roots, graph, path),
            None => Ok(()),
        }
    }

    /// Adds the rules whose records ask or wrote a path, if they are flagged, touched or turned.
    fn push_users(
        &self,
        alloc: Global,
        roots: &mut Items<u32>,
        graph: &Indexed,
        path: &Path,
    ) -> Result<(), GraphFault>
        requires turned { HasTurned self.now }
        ensures roots { OnOk result (FindsRoots self.now
            (IsUserOf graph.now path.now) roots.old roots.new) }
        ensures memory { IfErr result (λ fault. fault ≡ GraphFault.Memory) }
    {
        let readers = graph.readers_of(alloc, path)?;
        self.push_all(roots, &readers)?;
        let writers = graph.writers_of(alloc, path)?;
        self.push_all(roots, &writers)
    }

    /// Adds those of some rules that are flagged, touched or turned.
    fn push_all(&self, roots: &mut Items<u32>, numbers: &[u32]) -> Result<(), GraphFault>
        requires turned { HasTurned self.now }
        ensures roots { OnOk result (FindsRoots self.now
            (Contains numbers.now) roots.old roots.new) }
        ensures memory { IfErr result (λ fault. fault ≡ GraphFault.Memory) }
    {
        for number in numbers {
            self.push_root(roots, *number)?;
        }
        Ok(())
    }

    /// Adds the rules of a set that are flagged, touched or turned.
    fn push_set(&self, roots: &mut Items<u32>, set: &BTreeSet<u32>) -> Result<(), GraphFault>
        requires turned { HasTurned self.now }
        ensures roots { OnOk result (FindsRoots self.now
            (Contains set.now.keys) roots.old roots.new) }
        ensures memory { IfErr result (λ fault. fault ≡ GraphFault.Memory) }
    {
        for number in set {
            self.push_root(roots, *number)?;
        }
        Ok(())
    }

    /// Adds a rule, if it is flagged, touched or turned.
    fn push_root(&self, roots: &mut Items<u32>, number: u32) -> Result<(), GraphFault>
        requires turned { HasTurned self.now }
        ensures roots { OnOk result (Grows
            (λ root. (root ≡ number) × IsRootIn self.now number)
            (Contains roots.old) (Contains roots.new)) }
        ensures memory { IfErr result (λ fault. fault ≡ GraphFault.Memory) }
    {
        if self.is_root(number) {
            roots.push(number)?;
        }
        Ok(())
    }
}

/// The record of an edit.
fn record_of(edit: &Edit) -> &Record
    ensures { result.now ≡ record_in edit.now }
{
    match edit {
        Edit::Put(record) => record,
        Edit::Remove(record) => record,
    }
}

/// The path of a record of a file that is seen.
fn file_of(record: &Record) -> Option<&Path>
    ensures { option_copied result ≡ file_in record.now }
{
    match record {
        Record::Seen { path, .. } => Some(path),
        _ => None,
    }
}
