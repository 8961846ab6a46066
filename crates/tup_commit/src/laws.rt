//! Laws of what is noted.
ghost use Rattle.std.specs.Prelude.{◌≡◌};
ghost use Rattle.std.specs.FinMap as finite;
ghost use Rattle.tup_path.specs.Name.{Names};
ghost use Rattle.tup_path.specs.Tree.{Tree};
ghost use Rattle.tup_scan.specs.Seen.{IsSeen};
ghost use Rattle.tup_scan.specs.declared.seen.Seen.{Seen};
ghost use Rattle.tup_graph.specs.Graph.{GraphState};
ghost use Rattle.tup_graph.specs.Reach.{stamp_in};
ghost use Rattle.tup_graph.specs.Scan.{IsScanned};

/// A law: a graph that took note of a scan has seen the tree that was scanned, each file and no others.
pub fn scans_see()
    ensures { (old new : GraphState) (tree : Tree) (seen : Seen) (path : Names) →
        IsSeen tree seen → IsScanned old seen.files seen.config new →
        finite.get new.seen path ≡ stamp_in tree path }
{}
