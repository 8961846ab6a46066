//! What a refresh that brings nothing says of the graph that is kept.
ghost use Rattle.std.specs.Prelude.{◌≡◌, List, [], Ok};
ghost use Rattle.tup_path.specs.Name.{Content};
ghost use Rattle.tup_path.specs.Tree.{Tree};
ghost use Rattle.tup_runner.specs.Next.{Next};
ghost use Rattle.tup_project.specs.Project.{ComeTo};
ghost use Rattle.tup_graph.specs.Graph.{GraphState};
ghost use Rattle.tup_graph.specs.Kept.{IsKept};
ghost use Rattle.tup_graph.specs.Records.{Language};
ghost use Rattle.tup_law_graph.specs.Linking.{LinksReadings};
ghost use Rattle.tup_refresh.specs.Refresh.{IsRefresh};
ghost use Rattle.tup_refresh.specs.declared.refreshed.Refreshed.{Refreshed};

/// A law: where a refresh of sources reads no folder and loses none, the sources come to the rules of the kept graph, where
/// its language links as projects are linked.
pub fn kept_comes_to()
    ensures { (next : Next) (language : Language) (known : List Content) (g : GraphState)
        (sources : Tree) (given : Refreshed)
        → LinksReadings language → IsKept next language known g
        → IsRefresh g sources (Ok given) → given.fresh ≡ [] → given.gone ≡ []
        → ComeTo sources (Ok g.rules) }
{}
