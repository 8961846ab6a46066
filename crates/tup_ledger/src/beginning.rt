//! How a project begins.
ghost use Rattle.std.specs.Prelude.{◌≡◌, ◌⊎◌, ◌++◌, ◌∷◌, [], IsTrue, OnOk, Ok};
ghost use Rattle.tup_site.specs.Crash.{GoesOn, PinsStore, WriteStep};
ghost use Rattle.tup_site.specs.World.{TreeStays};
ghost use Rattle.tup_table.specs.Store.{header};
ghost use Rattle.tup_stored_graph.specs.Cause.{CountsFaults, OnlyOutside};
ghost use Rattle.tup_ledger.specs.Begin.{Begins, BeginStep};

use std::alloc::Global;
use tup_graph::GraphFault;
use tup_site::Site;
use tup_stored_graph::Graph;

/// How a project began.
#[derive(Clone, Copy, PartialEq, Eq)]
pub enum Begun {
    /// There was no store, and now there is one, which owns nothing.
    Made,
    /// There was a store already; it keeps what it has.
    WasThere,
}

/// Begins a project: makes its store where there is none. Where bytes stand that are no store, it names the place of
/// their damage. No file of the tree is touched.
///
/// A refusal that comes while the store is made, or a crash then, may leave any bytes in it.
pub fn begin<S: Site>(alloc: Global, site: &mut S) -> Result<Begun, GraphFault>
    ensures begins { IsTrue S.tells → Begins (S.world site.old) (S.world site.new) result }
    // At every end all is as it was, or the store has the same entries and nothing was written but
    // what opening it writes, or there was none.
    ensures keeps { IsTrue S.tells → (S.world site.new ≡ S.world site.old)
        ⊎ BeginStep (S.world site.old) (S.world site.old) (S.world site.new) }
    ensures tree { IsTrue S.tells → TreeStays (S.world site.old) (S.world site.new) }
    ensures durable { IsTrue S.tells → OnOk result
        (PinsStore (S.left_since site.new (S.moment site.new)) (S.world site.new)) }
    ensures crash { IsTrue S.tells → GoesOn S.moment S.left_since site.old site.new
        (BeginStep (S.world site.old)) }
    ensures known { IsTrue S.tells → S.known site.new ≡ S.known site.old }
    ensures cause { CountsFaults (S.faults site.old) (S.faults site.new) result }
{
    match Graph::open(alloc, site) {
        Ok(_) => Ok(Begun::WasThere),
        Err(GraphFault::NotThere) => make(alloc, site),
        Err(fault) => Err(fault),
    }
}

/// Makes a store where there is none.
fn make<S: Site>(alloc: Global, site: &mut S) -> Result<Begun, GraphFault>
    requires { IsTrue S.tells → (S.world site.old).store ≡ [] }
    ensures made { OnOk result (result ≡ Ok Begun.Made) }
    ensures store { IsTrue S.tells → OnOk result ((S.world site.new).store ≡ header ++ 0 ∷ []) }
    ensures tree { IsTrue S.tells → TreeStays (S.world site.old) (S.world site.new) }
    ensures durable { IsTrue S.tells → OnOk result
        (PinsStore (S.left_since site.new (S.moment site.new)) (S.world site.new)) }
    ensures crash { IsTrue S.tells
        → GoesOn S.moment S.left_since site.old site.new (WriteStep 0 18) }
    ensures known { IsTrue S.tells → S.known site.new ≡ S.known site.old }
    ensures outside { OnlyOutside result }
    ensures cause { CountsFaults (S.faults site.old) (S.faults site.new) result }
{
    Graph::make(alloc, site)?;
    Ok(Begun::Made)
}
