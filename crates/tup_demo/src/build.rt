//! What the project comes to, by computation.
ghost use Rattle.std.specs.Prelude.{◌≡◌, Ok};
ghost use Rattle.tup_mini.specs.Means.{mini_next};
ghost use Rattle.tup_clean.specs.Clean.{clean};
ghost use Rattle.tup_project.specs.Project.{ComeTo};
ghost use Rattle.tup_demo.specs.Project.{demo_tree};
ghost use Rattle.tup_demo.specs.Build as specs;

/// Its sources ask for one rule, by which `b` is a copy of `a`.
pub fn demo_asks()
    ensures { ComeTo demo_tree (Ok specs.demo_rules) }
{}

/// Its clean build succeeds, and makes `b`.
pub fn demo_builds()
    ensures { clean mini_next specs.demo_rules demo_tree ≡ specs.demo_build }
{}
