//! Laws of a graph over the store of a site.
ghost use Rattle.std.specs.Prelude.{◌≡◌, ◌⊎◌, List, IsTrue};
ghost use Rattle.tup_site.specs.Crash.{GoesOn, NoStep};
ghost use Rattle.tup_graph.specs.declared.edit.Edit.{Edit};
ghost use Rattle.tup_stored_graph.specs.Held.{Held, StandsFor};
ghost use Rattle.tup_stored_graph.specs.Transaction.{HasLongRecord, IsFull, IsTooLarge};

use tup_site::Site;

/// A law: a graph that stands for the store of a site does so after a call that only reads.
pub fn reads_keep_graphs<S: Site>(site: &S)
    ensures { (graph : Held) (new : S) → IsTrue S.tells → S.world new ≡ S.world site.now
        → GoesOn S.moment S.left_since site.now new NoStep
        → StandsFor S.world S.moment S.left_since graph site.now
        → StandsFor S.world S.moment S.left_since graph new }
{
    let _ = site;
}

/// A law: a store has no room for edits only where it would be too large, or one of their records is longer than any store may be.
pub fn full_is_too_large()
    ensures { (graph : Held) (edits : List Edit) → IsFull graph edits
        → HasLongRecord edits ⊎ IsTooLarge graph edits }
{}
