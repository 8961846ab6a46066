//! Which paths a graph owns, asked one after another.
ghost use Rattle.std.specs.Prelude.{◌≡◌, ◌↔◌, true, false, IsTrue};
ghost use Rattle.std.specs.Map.Iter.{deref_pair};
ghost use Rattle.std.specs.Option.{option_copied, option_map};
ghost use Rattle.std.specs.declared.cmp.Ordering.TheVariants.{Less};
ghost use Rattle.tup_path.specs.Order.{by_names};
ghost use Rattle.tup_graph.specs.Graph.{is_owned};
ghost use Rattle.tup_graph.specs.Owners.{IsAhead, IsBehind, key_of};

use crate::nodes::Nodes;
use crate::owned::Owned;
use std::cmp::Ordering;
use std::collections::btree_map::Iter;
use std::marker::Model;
use tup_path::Path;

/// Tells which paths a graph owns. Where they are asked for in their order each takes a few comparisons; else it is looked
/// up. Contracts see the graph.
#[derive(Drop)]
pub struct Owners<'n> {
    nodes: &'n Nodes,
    /// The last owned path that was passed, and the first of the others.
    before: Option<&'n Path>,
    next: Option<&'n Path>,
    /// Those that come behind it.
    left: Iter<'n, Path, Owned>,
}

impl<'n> Model for Owners<'n> {
    ghost use Rattle.std.specs.Option.{option_copied};
    ghost use Rattle.tup_graph.specs.Graph.{GraphState};
    ghost use Rattle.tup_graph.specs.Owners.{IsPlace};
    ghost use Rattle.tup_graph.specs.contracts.nodes.Nodes as of_nodes;

    ghost Value = { GraphState };

    ghost coded = { of_nodes.the_row.coded };

    ghost view = { λ o. o.nodes.now };

    ghost invariant = { λ o. IsPlace o.nodes.now (option_copied o.before) (option_copied o.next) o.left };
}

impl Nodes {
    /// Tells which paths are owned, path after path.
    pub fn owners(&self) -> Owners<'_>
        ensures { result ≡ self.now }
    {
        let mut left = self.owned();
        let next = path_of(left.next());
        Owners {
            nodes: self,
            before: None,
            next,
            left,
        }
    }
}

impl Owners<'_> {
    /// Whether a path is owned.
    pub fn owns(&mut self, path: &Path) -> bool
        ensures owned { result ≡ is_owned self.old path.now }
        ensures same { self.new ≡ self.old }
    {
        let owned = self.is_owned(path);
        self.pass(path);
        owned
    }

    /// Whether a path is owned: the next one is, and none between that and the last one that was passed.
    fn is_owned(&self, path: &Path) -> bool
        ensures { result ≡ is_owned self.now path.now }
    {
        if self.is_next(path) {
            return true;
        }
        if self.is_between(path) {
            return false;
        }
        self.nodes.owner(path).is_some()
    }

    /// Whether a path is the next one that is owned.
    fn is_next(&self, path: &Path) -> bool
        ensures { IsTrue result → is_owned self.now path.now ≡ true }
    {
        match self.next {
            Some(first) => *first == *path,
            None => false,
        }
    }

    /// Whether a path comes between the last one that was passed and the next one.
    fn is_between(&self, path: &Path) -> bool
        ensures { IsTrue result → is_owned self.now path.now ≡ false }
    {
        if !is_behind(self.before, path) {
            return false;
        }
        is_ahead(path, self.next)
    }

    /// Passes the next owned path, if this one doesn't come before it.
    fn pass(&mut self, path: &Path)
        ensures { self.new ≡ self.old }
    {
        let Some(first) = self.next else {
            return;
        };
        if is_less(path, first) {
            return;
        }
        self.before = Some(first);
        self.next = path_of(self.left.next());
    }
}

/// Whether a path comes behind another, if there is one.
fn is_behind(before: Option<&Path>, path: &Path) -> bool
    ensures { IsTrue result → IsBehind (option_copied before.entry) path.now }
{
    match before {
        Some(last) => is_less(last, path),
        None => true,
    }
}

/// Whether a path comes before another, if there is one.
fn is_ahead(path: &Path, next: Option<&Path>) -> bool
    ensures { IsTrue result → IsAhead path.now (option_copied next.entry) }
{
    match next {
        Some(first) => is_less(path, first),
        None => true,
    }
}

/// Whether a path comes before another.
fn is_less(one: &Path, other: &Path) -> bool
    ensures { IsTrue result ↔ (by_names one.now other.now ≡ Less) }
{
    matches!(one.cmp(other), Ordering::Less)
}

/// The path of an entry, if there is one.
fn path_of<'n>(entry: Option<(&'n Path, &'n Owned)>) -> Option<&'n Path>
    ensures { option_copied result ≡ key_of (option_map deref_pair entry.entry) }
{
    match entry {
        Some((path, _)) => Some(path),
        None => None,
    }
}
