//! How many files a site may have.
ghost use Rattle.std.specs.Prelude.{◌≡◌, ◌≤◌, ◌<◌, false, IsTrue};

use tup_site::Site;

/// Whether a site may have so many files.
pub fn has_room<S: Site>(site: &S, count: u64) -> bool
    ensures within { IsTrue result → count ≤ 1048576 }
    ensures few { IsTrue S.tells → IsTrue result → count ≤ 65536 }
    ensures many { result ≡ false → 65536 < count }
{
    count <= site.limits().files
}
