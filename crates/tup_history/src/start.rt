//! Where a history may start.
ghost use Rattle.std.specs.Prelude.{◌≡◌, []};
ghost use Rattle.tup_path.specs.Tree.{tree_of_files};
ghost use Rattle.tup_site.specs.Memory.{tree_in, store_in, first_of, changes_of};
ghost use Rattle.tup_site.specs.declared.memory.MemSite.{MemSite};
ghost use Rattle.tup_history.specs.Kept.{IsUnbegun};

/// A law: nothing has begun in a site that was just made of some files, whichever they are. So there is a site whose history
/// is kept from its first turn on.
pub fn new_sites_are_unbegun()
    ensures { (site : MemSite) → tree_in site ≡ tree_of_files (first_of site)
        → store_in site ≡ [] → changes_of site ≡ [] → IsUnbegun site }
{}
