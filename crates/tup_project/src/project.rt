//! The rules of a project.
ghost use Rattle.std.specs.Prelude.{IfOk, IfErr, IsTrue, Ok, Err};
ghost use Rattle.std.specs.FinMap as finite;
ghost use Rattle.tup_path.specs.Order.{by_names};
ghost use Rattle.tup_path.specs.Tree.{IsTree, Tree};
ghost use Rattle.tup_clean.specs.Buildable.{IsBuildable};
ghost use Rattle.tup_readings.specs.Readings.{IsOutcome};
ghost use Rattle.tup_project.specs.Fault.{IsOfLinking};
ghost use Rattle.tup_project.specs.Project.{AreLinked, ComeTo};

use crate::fault::ProjectFault;
use std::alloc::Global;
use tup_link::link;
use tup_path::{Files, Path};
use tup_readings::read_folders;
use tup_rule::{Reading, Rules};

/// The rules of the project that these sources are, which stand in the order of their paths. The
/// rules stand in the order of their folders and of their lines.
///
/// Faults are looked for in this order: `Parse` of tup.config; `Parse` and `CircularDirs` where
/// folders are read in the order of their paths, but one that another asks about before that one;
/// `TooMany` commands; `NoSuchGroup`; `TooMany` declared inputs; `Parse` of a command that stands
/// twice; `CircularCommands`. A `Memory` may come at any time. Nothing is kept of a refused call.
pub fn read_all(alloc: Global, sources: &Files) -> Result<Rules, ProjectFault>
    requires { IsTrue (finite.is_sorted by_names sources.now) }
    ensures come_to { ComeTo (finite.from_sorted sources.now) result }
    ensures buildable { IfOk result (λ rules. IsTree (finite.from_sorted sources.now)
        → IsBuildable (finite.from_sorted sources.now) rules) }
{
    let readings = read_folders(alloc, sources)?;
    link_all(alloc, readings.as_slice())
}

/// The rules to which the readings of all folders are linked, in the order of the readings and of their drafts. Where
/// there are none, the sources of these readings have that fault.
///
/// Faults are looked for in this order: `TooMany` commands; `NoSuchGroup`; `TooMany` declared inputs; `Parse` of a command
/// that stands twice; `CircularCommands`. A `Memory` may come at any time. Nothing is kept of a refused call.
pub fn link_all(alloc: Global, readings: &[(Path, Reading)]) -> Result<Rules, ProjectFault>
    ensures linked { IfOk result (AreLinked readings.now) }
    ensures buildable { IfOk result (λ rules. (sources : Tree)
        → IsOutcome sources (Ok readings.now) → IsTree sources → IsBuildable sources rules) }
    ensures fault { IfErr result (λ fault. (sources : Tree)
        → IsOutcome sources (Ok readings.now) → ComeTo sources (Err fault)) }
    // The same, whatever sources these are readings of.
    ensures cause { IfErr result (IsOfLinking readings.now) }
{
    let rules = link(alloc, readings)?;
    Ok(rules)
}
