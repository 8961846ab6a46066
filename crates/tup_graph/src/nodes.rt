//! The nodes of the graph in memory, and what they are asked.
ghost use Rattle.std.specs.Prelude.{◌≡◌, ◌++◌, ◌∷◌, [], IfOk, OnOk, OnErr};
ghost use Rattle.std.specs.Option.{option_copied};
ghost use Rattle.std.specs.FinMap as finite;
ghost use Rattle.tup_graph.specs.Graph.{empty_graph, is_rule, is_flagged, is_created, source};

use crate::by_number::ByNumber;
use crate::owned::Owned;
use crate::rule_list::RuleList;
use std::alloc::{AllocError, Global};
use std::collections::btree_map::Iter;
use tup_path::{ByPath, Items, Path, Shared};
use tup_record::RunRecord;
use tup_rule::{Reading, Rule};
use tup_stamp::Stamp;

/// What the store keeps of a project. Contracts see a map for each kind of node, and the list of rules.
#[derive(Drop)]
pub struct Nodes {
    pub(crate) seen: ByPath<Stamp>,
    pub(crate) readings: ByPath<Reading>,
    pub(crate) rules: RuleList,
    pub(crate) places: Items<u32>,
    pub(crate) runs: ByNumber<RunRecord>,
    pub(crate) owned: ByPath<Owned>,
    pub(crate) created: ByPath<()>,
    pub(crate) flags: ByNumber<()>,
}

impl Nodes {
    /// The graph of a new store; it takes no memory.
    pub fn empty(alloc: Global) -> Nodes
        ensures { result ≡ empty_graph }
    {
        Nodes {
            seen: ByPath::new(alloc),
            readings: ByPath::new(alloc),
            rules: RuleList::new(alloc),
            places: Items::new(alloc),
            runs: ByNumber::new(alloc),
            owned: ByPath::new(alloc),
            created: ByPath::new(alloc),
            flags: ByNumber::new(alloc),
        }
    }

    /// The rules in their order; the number of a rule is its place here, from 0.
    pub fn rules(&self) -> &[Rule]
        ensures { result.now ≡ self.now.rules }
    {
        self.rules.as_slice()
    }

    /// From now on plans share the rules: `shared_rules` copies none, until the next change of rules. After a refusal the graph
    /// is of no use.
    pub fn share_rules(&mut self) -> Result<(), AllocError>
        ensures { OnOk result (self.new ≡ self.old) }
    {
        self.rules.share()
    }

    /// The rules for a plan to keep. They stay as they are where the graph changes, and are copied where they aren't shared.
    pub fn shared_rules(&self) -> Result<Shared<Rule>, AllocError>
        ensures { IfOk result (λ rules. rules ≡ self.now.rules) }
    {
        self.rules.shared()
    }

    /// Who makes an owned path, and what is known of the file there; `None` where the path isn't owned.
    pub fn owner(&self, path: &Path) -> Option<Owned>
        ensures { result ≡ finite.get self.now.owned path.now }
    {
        self.owned.get(path).copied()
    }

    /// Whether a rule is to be run.
    pub fn flagged(&self, rule: u32) -> bool
        ensures { result ≡ is_flagged self.now rule }
    {
        self.flags.contains(&rule)
    }

    /// What the reading of a folder's Tupfile left, where it was read.
    pub fn reading(&self, dir: &Path) -> Option<&Reading>
        ensures { option_copied result ≡ finite.get self.now.readings dir.now }
    {
        self.readings.get(dir)
    }

    /// The last good run of a rule.
    pub fn run_of(&self, rule: u32) -> Option<&RunRecord>
        ensures { option_copied result ≡ finite.get self.now.runs rule }
    {
        self.runs.get(&rule)
    }

    /// The stamp of the file that was last seen at a path, owned or not.
    pub fn seen(&self, path: &Path) -> Option<Stamp>
        ensures { result ≡ finite.get self.now.seen path.now }
    {
        self.seen.get(path).copied()
    }

    /// Whether a folder is to be read.
    pub fn is_created(&self, dir: &Path) -> bool
        ensures { result ≡ is_created self.now dir.now }
    {
        self.created.contains(dir)
    }

    /// All files that were seen, with their stamps, in the order of paths.
    pub fn files(&self) -> Iter<'_, Path, Stamp>
        ensures { result ≡ finite.entries self.now.seen }
    {
        self.seen.iter()
    }

    /// All files that were seen, with their stamps, as a map.
    pub fn seen_files(&self) -> &ByPath<Stamp>
        ensures { result.now ≡ self.now.seen }
    {
        &self.seen
    }

    /// All owned paths, in their order.
    pub fn owned(&self) -> Iter<'_, Path, Owned>
        ensures { result ≡ finite.entries self.now.owned }
    {
        self.owned.iter()
    }

    /// The folders that are to be read, in their order.
    pub fn created(&self) -> Iter<'_, Path, ()>
        ensures { result ≡ finite.entries self.now.created }
    {
        self.created.iter()
    }

    /// The last good runs by the numbers of their rules, in their order.
    pub fn runs(&self) -> Iter<'_, u32, RunRecord>
        ensures { result ≡ finite.entries self.now.runs }
    {
        self.runs.iter()
    }

    /// The numbers of the rules that are to be run, in their order.
    pub fn flags(&self) -> Iter<'_, u32, ()>
        ensures { result ≡ finite.entries self.now.flags }
    {
        self.flags.iter()
    }

    /// What the readings of folders left, in the order of folders.
    pub fn readings(&self) -> Iter<'_, Path, Reading>
        ensures { result ≡ finite.entries self.now.readings }
    {
        self.readings.iter()
    }

    /// Whether a number is that of a rule.
    pub(crate) fn is_rule(&self, number: u32) -> bool
        ensures { result ≡ is_rule self.now number }
    {
        (number as usize) < self.rules.len()
    }
}
