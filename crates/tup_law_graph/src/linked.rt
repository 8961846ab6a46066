//! What linking promises of the rules of a project.
ghost use Rattle.std.specs.Prelude.{List, Ok};
ghost use Rattle.tup_path.specs.Name.{Names};
ghost use Rattle.tup_path.specs.Tree.{Tree};
ghost use Rattle.tup_rule.specs.declared.question.Reading.{Reading};
ghost use Rattle.tup_rule.specs.declared.rule.Rule.{Rule};
ghost use Rattle.tup_project.specs.Project.{AreLinked, ComeTo};
ghost use Rattle.tup_law_graph.specs.Linking.{DeclareWhatIsThere, HaveOwnNames};

/// A law: no two of the rules that readings are linked to have one name.
pub fn linked_have_own_names()
    ensures { (readings : List (Names × Reading)) (rules : List Rule)
        → AreLinked readings rules → HaveOwnNames rules }
{}

/// A law: each path that a rule of a project declares is a source, or an output of one of its rules.
pub fn declared_are_there()
    ensures { (sources : Tree) (rules : List Rule)
        → ComeTo sources (Ok rules) → DeclareWhatIsThere sources rules }
{}
