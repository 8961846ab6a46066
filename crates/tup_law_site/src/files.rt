//! The calls that change a file, over a kept site.
ghost use Rattle.std.specs.Prelude.{ℕ, List, Contains, IsTrue};
ghost use Rattle.tup_path.specs.Name.{Names, Content};
ghost use Rattle.tup_site.specs.Cause.{SameBut};
ghost use Rattle.tup_site.specs.Crash.{FileStep, GoesOn};
ghost use Rattle.tup_site.specs.World.{World};
ghost use Rattle.tup_runner.specs.Next.{Next};
ghost use Rattle.tup_graph.specs.Kept.{IsKeptSite};
ghost use Rattle.tup_graph.specs.Records.{Language};
ghost use Rattle.tup_stored_graph.specs.Held.{Held};
ghost use Rattle.tup_law_site.specs.Over.{IsKeptNow, IsUnsure, StandsOver};

use tup_site::Site;

/// A law: a call that makes or removes the file at an unsure path keeps a kept site, whatever it answers, at every moment; and
/// with the world after it, where the site was kept.
pub fn files_keep_sites<S: Site>(site: &S)
    ensures images { (next : Next) (language : Language) (known more : List Content)
        (first : World) (since : ℕ) (graph : Held) (new : S) (path : Names)
        (contents : List Content) → IsTrue S.tells
        → ((content : Content) → Contains known content → Contains more content)
        → StandsOver S.Site.own next language known first since graph site.now
        → IsUnsure graph.nodes path
        → GoesOn S.moment S.left_since site.now new (FileStep path contents)
        → IsKeptSite next language more first (S.left_since new since) }
    ensures now { (next : Next) (language : Language) (known more : List Content)
        (graph : Held) (new : S) (path : Names) (contents : List Content) → IsTrue S.tells
        → ((content : Content) → Contains known content → Contains more content)
        → StandsOver S.Site.own next language known (S.world site.now) (S.moment site.now)
        graph site.now
        → IsUnsure graph.nodes path
        → GoesOn S.moment S.left_since site.now new (FileStep path contents)
        → SameBut path (S.world site.now).tree (S.world new).tree
        → IsKeptNow S.Site.own next language more new }
{
    let _ = site;
}
