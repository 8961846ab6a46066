//! What a scan and a swap leave of a kept graph.
ghost use Rattle.std.specs.Prelude.{◌≡◌, List, Option, All, Contains, option_to_list};
ghost use Rattle.std.specs.FinMap as finite;
ghost use Rattle.tup_path.specs.Name.{Names, Content};
ghost use Rattle.tup_stamp.specs.declared.Stamp.{Stamp};
ghost use Rattle.tup_rule.specs.declared.question.Reading.{Reading};
ghost use Rattle.tup_rule.specs.declared.rule.Rule.{Rule};
ghost use Rattle.tup_runner.specs.Next.{Next};
ghost use Rattle.tup_graph.specs.Graph.{GraphState, source};
ghost use Rattle.tup_graph.specs.Kept.{AgreesWithSeen, IsKept};
ghost use Rattle.tup_graph.specs.Records.{Language};
ghost use Rattle.tup_graph.specs.Scan.{IsScanned};
ghost use Rattle.tup_graph.specs.Swap.{IsSwapped};
ghost use Rattle.tup_law_graph.specs.Fitting.{AreFitting, FitsTogether};

/// A law: whatever graph it was, after a scan it agrees with the files that the scan found, where the content that was found
/// in tup.config is known.
pub fn scan_agrees()
    ensures { (known : List Content) (g new : GraphState) (files : List (Names × Stamp))
        (config : Option Content) → All (Contains known) (option_to_list config)
        → IsScanned g files config new → AgreesWithSeen known new }
{}

/// A law: a scan keeps a kept graph, whatever it found, where the content that it found in tup.config is known.
pub fn scan_keeps()
    ensures { (next : Next) (language : Language) (known : List Content) (g new : GraphState)
        (files : List (Names × Stamp)) (config : Option Content) → IsKept next language known g
        → All (Contains known) (option_to_list config) → IsScanned g files config new
        → IsKept next language known new }
{}

/// A law: whatever graph it was, after a swap its readings and rules fit together, where the swap brings true readings of the
/// sources that are seen, and the rules that linking gives of them, none of which has a source or another rule's output as an
/// output.
pub fn swap_fits()
    ensures { (language : Language) (known : List Content) (g new : GraphState)
        (fresh : List (Names × Reading)) (gone : List Names) (rules : List Rule)
        → AreFitting language known g fresh gone rules → IsSwapped g fresh gone rules new
        → FitsTogether language known new }
{}

/// A law: a kept graph of which no folder is to be read fits together as it is.
pub fn kept_fits()
    ensures { (next : Next) (language : Language) (known : List Content) (g : GraphState)
        → IsKept next language known g → g.created ≡ finite.empty
        → FitsTogether language known g }
{}

/// A law: such a swap leaves the sources that a graph sees as they are.
pub fn swap_sees_sources()
    ensures { (language : Language) (known : List Content) (g new : GraphState)
        (fresh : List (Names × Reading)) (gone : List Names) (rules : List Rule) (path : Names)
        → AreFitting language known g fresh gone rules → IsSwapped g fresh gone rules new
        → source new path ≡ source g path }
{}

/// A law: a swap that brings such readings and rules keeps a kept graph.
pub fn swap_keeps()
    ensures { (next : Next) (language : Language) (known : List Content) (g new : GraphState)
        (fresh : List (Names × Reading)) (gone : List Names) (rules : List Rule)
        → IsKept next language known g → AreFitting language known g fresh gone rules
        → IsSwapped g fresh gone rules new → IsKept next language known new }
{}
