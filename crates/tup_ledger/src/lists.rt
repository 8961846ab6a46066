//! Ascending lists of paths.
ghost use Rattle.std.specs.Prelude.{◌≡◌, IfOk};
ghost use Rattle.tup_ledger.specs.Ascending.{ascending};

use std::alloc::{AllocError, Global};
use tup_path::{Items, Path, Paths};

/// The paths in their order, each once.
pub fn sorted(alloc: Global, paths: &[Path]) -> Result<Paths, AllocError>
    ensures { IfOk result (λ sorted. sorted ≡ ascending paths.now) }
{
    match paths.to_vec(alloc) {
        Ok(paths) => Ok(ordered(paths)),
        Err(_) => Err(AllocError),
    }
}

fn ordered(mut paths: Vec<Path>) -> Paths
    ensures { result ≡ ascending paths.items }
{
    paths.sort_unstable();
    paths.dedup();
    Items::from_vec(paths)
}
