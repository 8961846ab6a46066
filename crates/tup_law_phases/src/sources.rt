//! The sources of a tree that a graph has seen.
ghost use Rattle.std.specs.Prelude.{◌≡◌, List, Some, Contains};
ghost use Rattle.std.specs.FinMap as finite;
ghost use Rattle.tup_path.specs.Name.{Names, Content};
ghost use Rattle.tup_path.specs.Tree.{Tree, IsTree};
ghost use Rattle.tup_site.specs.Known.{IsKnown, KnowsTree};
ghost use Rattle.tup_site.specs.World.{World};
ghost use Rattle.tup_graph.specs.Graph.{GraphState};
ghost use Rattle.tup_graph.specs.Kept.{file_beside};
ghost use Rattle.tup_graph.specs.Reach.{stamp_in};
ghost use Rattle.tup_ledger.specs.Sources.{sources_of};
ghost use Rattle.tup_core.specs.Honest.{IsKnown as IsKnownForCore};
ghost use Rattle.tup_core.specs.Planned.{sources_of as sources_for_core};
ghost use Rattle.tup_refresh.specs.Untouched.{SeesSources};
ghost use Rattle.tup_law_phases.specs.Planning.{kept_of};

/// A law: a graph that has seen a tree sees its sources. They are a tree of files, and what is known of the tree is known of
/// them.
pub fn seen_are_sources()
    ensures sees { (g : GraphState) (tree : Tree)
        → ((path : Names) → finite.get g.seen path ≡ stamp_in tree path)
        → SeesSources (sources_of g tree) g }
    ensures tree { (g : GraphState) (tree : Tree) → IsTree tree → IsTree (sources_of g tree) }
    ensures known { (known : List Content) (g : GraphState) (tree : Tree)
        → KnowsTree known tree → KnowsTree known (sources_of g tree) }
{}

/// A law: the sources of a tree are the same in the words of a kept site and in those of the core.
pub fn sources_are_one()
    ensures beside { (world : World) (g : GraphState) (path : Names)
        → file_beside world g path ≡ finite.get (sources_of g world.tree) path }
    ensures core { (g : GraphState) (tree : Tree)
        → sources_for_core (kept_of g) tree ≡ sources_of g tree }
{}

/// A law: what a site knows is known in the words of the core.
pub fn known_for_core()
    ensures contents { (known : List Content) → IsKnown known → IsKnownForCore known }
    ensures tree { (known : List Content) (tree : Tree) (path : Names) (content : Content)
        → KnowsTree known tree → finite.get tree path ≡ Some content → Contains known content }
{}
