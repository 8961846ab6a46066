//! What edits of files leave of what is kept.
ghost use Rattle.std.specs.Prelude.{◌≡◌, ℕ, List, Option, Contains};
ghost use Rattle.tup_path.specs.Name.{Names, Content};
ghost use Rattle.tup_runner.specs.Next.{Next};
ghost use Rattle.tup_site.specs.World.{World};
ghost use Rattle.tup_graph.specs.Kept.{IsKeptWorld, IsKeptSite};
ghost use Rattle.tup_graph.specs.Records.{Language};
ghost use Rattle.tup_law_graph.specs.Edited.{with_file, IsEditedFrom, IsOwnedAlike};

use tup_site::Site;

/// A law: a world whose store stays is kept, whatever happens to its files, and whatever more contents are known then.
pub fn edits_keep_worlds()
    ensures { (next : Next) (language : Language) (known more : List Content)
        (world other : World)
        → ((content : Content) → Contains known content → Contains more content)
        → other.store ≡ world.store → IsKeptWorld next language known world
        → IsKeptWorld next language more other }
{}

/// A law: an edit of a file, in the present and in each world that a crash since some moment may leave, keeps a kept site,
/// where these agree whether the file is owned.
pub fn edits_keep_sites<S: Site>(site: &S)
    ensures { (next : Next) (language : Language) (known more : List Content) (since : ℕ)
        (path : Names) (content : Option Content)
        → ((known_one : Content) → Contains known known_one → Contains more known_one)
        → IsKeptSite next language known (S.world site.now) (S.left_since site.now since)
        → IsOwnedAlike (S.world site.now) (S.left_since site.now since) path
        → IsKeptSite next language more (with_file (S.world site.now) path content)
        (IsEditedFrom (S.left_since site.now since) path content) }
{
    let _ = site;
}

/// A law: a kept site is kept where more contents are known.
pub fn more_is_kept<S: Site>(site: &S)
    ensures { (next : Next) (language : Language) (known more : List Content) (first : World)
        (since : ℕ) → ((content : Content) → Contains known content → Contains more content)
        → IsKeptSite next language known first (S.left_since site.now since)
        → IsKeptSite next language more first (S.left_since site.now since) }
{
    let _ = site;
}
