//! Laws of the rules of a project.
ghost use Rattle.std.specs.Prelude.{List, Result};
ghost use Rattle.tup_path.specs.Tree.{Tree};
ghost use Rattle.tup_rule.specs.declared.rule.Rule.{Rule as RuleValue};
ghost use Rattle.tup_project.specs.declared.fault.ProjectFault.{ProjectFault};
ghost use Rattle.tup_project.specs.Laws.{AreAlike};
ghost use Rattle.tup_project.specs.Project.{ComeTo};

/// What the sources of a project come to is one thing, want of memory aside: one list of rules, or
/// one fault, and never two of these. Of rules that wait for each other any circle may be told.
pub fn one_project()
    ensures { (sources : Tree) (one other : Result (List RuleValue) ProjectFault) →
        ComeTo sources one → ComeTo sources other → AreAlike one other }
{}
