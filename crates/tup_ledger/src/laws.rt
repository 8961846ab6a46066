//! Laws of what a store lists.
ghost use Rattle.std.specs.Prelude.{◌≡◌, [], ℕ, List};
ghost use Rattle.tup_path.specs.Name.{Names};
ghost use Rattle.tup_ledger.specs.Listing.{Lists};

/// A store lists one thing alone: its bytes read in one way.
pub fn lists_in_one_way()
    ensures { (bytes : List ℕ) (one other : List Names)
        → Lists bytes one → Lists bytes other → one ≡ other }
{}

/// Where there is no store nothing is listed, not even that nothing is owned.
pub fn empty_lists_nothing()
    ensures { (paths : List Names) → ¬ Lists [] paths }
{}
