//! Folders whose Tupfile is gone.
ghost use Rattle.std.specs.Prelude.{◌≡◌, IfOk};
ghost use Rattle.std.specs.FinMap as finite;
ghost use Rattle.tup_refresh.specs.Refresh.{gone_among};

use std::alloc::{AllocError, Global};
use tup_graph::Nodes;
use tup_path::Paths;
use tup_readings::Sources;

/// The folders of kept readings that have no Tupfile any more, in their order.
pub(crate) fn gone(alloc: Global, nodes: &Nodes, sources: &Sources<'_>) -> Result<Paths, AllocError>
    ensures { IfOk result (λ dirs. dirs
        ≡ gone_among sources.now (finite.entries nodes.now.readings)) }
{
    let mut dirs = Paths::new(alloc);
    for (dir, _) in nodes.readings() {
        if !sources.has_tupfile(dir) {
            dirs.push(dir.clone()?)?;
        }
    }
    Ok(dirs)
}
