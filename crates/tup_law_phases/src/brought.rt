//! What a refresh of the present sources and linking bring to the graph.
ghost use Rattle.std.specs.Prelude.{List, Ok};
ghost use Rattle.tup_path.specs.Name.{Content};
ghost use Rattle.tup_path.specs.Tree.{Tree};
ghost use Rattle.tup_site.specs.Known.{KnowsTree};
ghost use Rattle.tup_rule.specs.declared.rule.Rule.{Rule};
ghost use Rattle.tup_clean.specs.Buildable.{IsBuildable};
ghost use Rattle.tup_project.specs.Project.{AreLinked};
ghost use Rattle.tup_graph.specs.Graph.{GraphState};
ghost use Rattle.tup_graph.specs.Records.{Language};
ghost use Rattle.tup_law_graph.specs.Fitting.{AreFitting};
ghost use Rattle.tup_law_graph.specs.Linking.{LinksReadings};
ghost use Rattle.tup_refresh.specs.Language.{ReadsTupfiles};
ghost use Rattle.tup_refresh.specs.Refresh.{IsRefresh};
ghost use Rattle.tup_refresh.specs.Untouched.{SeesSources};
ghost use Rattle.tup_refresh.specs.declared.refreshed.Refreshed.{Refreshed};

/// A law: what a refresh of the sources that a graph sees gives, with the rules to which it links and
/// which can be built over these sources, is what a swap has to bring so that a kept graph stays kept.
pub fn refreshed_fits()
    ensures { (language : Language) (known : List Content) (g : GraphState) (sources : Tree)
        (given : Refreshed) (rules : List Rule)
        → ReadsTupfiles language → LinksReadings language
        → KnowsTree known sources → SeesSources sources g
        → IsRefresh g sources (Ok given) → AreLinked given.all rules → IsBuildable sources rules
        → AreFitting language known g given.fresh given.gone rules }
{}
