//! That a project is kept once it has begun.
ghost use Rattle.std.specs.Prelude.{◌≡◌, List, [], ◌∷◌, ◌++◌};
ghost use Rattle.tup_path.specs.Name.{Content};
ghost use Rattle.tup_site.specs.World.{World};
ghost use Rattle.tup_runner.specs.Next.{Next};
ghost use Rattle.tup_table.specs.Store.{header};
ghost use Rattle.tup_law_site.specs.Over.{IsKeptNow};
ghost use Rattle.tup_law_phases.specs.Language.{tupfiles};

use tup_site::Site;

/// A law: a site whose store is the one that a beginning makes, which has nothing, is kept where a crash leaves just what is
/// there, whatever its files are, whatever commands mean and whichever contents are known. So there is a site that is kept.
pub fn beginnings_are_kept<S: Site>(site: &S)
    ensures { (next : Next) (known : List Content)
        → (S.world site.now).store ≡ header ++ 0 ∷ []
        → ((w : World) → S.left_since site.now (S.moment site.now) w → w ≡ S.world site.now)
        → IsKeptNow S.Site.own next tupfiles known site.now }
{
    let _ = site;
}
