//! Whether a file may stand at a path.
ghost use Rattle.std.specs.Prelude.{◌↔◌, All, IsTrue};
ghost use Rattle.tup_board_rows.specs.Apart.{IsBeside, MayStand};

use tup_path::Path;

/// Whether a file may stand at a path beside those at these paths: it isn't the top, nor above or below one.
pub(crate) fn may_stand(path: &Path, paths: &[Path]) -> bool
    ensures { IsTrue result ↔ MayStand paths.now path.now }
{
    path.depth() > 0 && are_beside(path, paths)
}

fn are_beside(path: &Path, others: &[Path]) -> bool
    ensures { IsTrue result ↔ All (IsBeside path.now) others.now }
{
    others.iter().all(|other| is_beside(path, other))
}

/// Whether two paths lie neither above nor below each other.
fn is_beside(path: &Path, other: &Path) -> bool
    ensures { IsTrue result ↔ IsBeside path.now other.now }
{
    !path.is_below(other) && !other.is_below(path)
}
