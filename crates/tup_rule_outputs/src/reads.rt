//! What looks up files for a command.
ghost use Rattle.std.specs.Prelude.{◌≡◌, ◌≢◌, None, Err, IsTrue, IfOk, IfErr, OnOk};
ghost use Rattle.std.specs.FinMap as finite;
ghost use Rattle.tup_rule_outputs.specs.Fault.{CountsFaults};
ghost use Rattle.tup_rule_outputs.specs.Ground.{NamesLength, OnlyLarge, ReadsSite};
ghost use Rattle.tup_rule_outputs.specs.Lost.{HasNodes};

use crate::fault::BoardFault;
use crate::ground::{Ground, has_nodes};
use std::alloc::Global;
use tup_path::{Bytes, Path};
use tup_site::Site;
use tup_stamp::Stamp;

/// What looks up files for a command.
///
/// It is a trait, since the view of a command calls it on whatever thread that runs: a call of a trait's method rests on
/// no bound that has to hold on each thread, as that of a function outside of a trait does.
pub trait Reads {
    ghost use Rattle.tup_rule_outputs.specs.declared.ground.Ground.{Ground};

    type Site: Site;

    /// The site, and the graph of its store.
    ghost base: { Self → Ground Self.Site };

    /// The content of a file, or `None` where no file is. One that is too large is refused, with its length.
    fn get(&mut self, alloc: Global, path: &Path) -> Result<Option<Bytes>, BoardFault>
        ensures content { IsTrue Self.Site.Site.tells
            → IfOk result (λ content. content
            ≡ finite.get (Self.Site.Site.world (base self.old).site).tree path.now) }
        ensures too_large { OnlyLarge result }
        ensures length { IsTrue Self.Site.Site.tells
            → NamesLength (Self.Site.Site.world (base self.old).site).tree path.now result }
        ensures never_full { result ≢ Err BoardFault.Full }
        ensures reads { ReadsSite Self.Site.Site (base self.old) (base self.new) }
        ensures cause { CountsFaults (Self.Site.Site.faults (base self.old).site)
            (Self.Site.Site.faults (base self.new).site) None result };

    /// The stamp of a file as the graph has seen it, if it has. `Memory` comes where the graph's nodes may be gone.
    fn seen(&self, path: &Path) -> Result<Option<Stamp>, BoardFault>
        ensures nodes { OnOk result (HasNodes (base self.now).lost) }
        ensures stamp { IfOk result (λ stamp. stamp
            ≡ finite.get (base self.now).graph.nodes.seen path.now) }
        ensures memory { IfErr result (λ fault. fault ≡ BoardFault.Memory) };
}

impl<S: Site> Reads for Ground<S> {
    type Site = S;

    ghost base = { λ base. base };

    fn get(&mut self, alloc: Global, path: &Path) -> Result<Option<Bytes>, BoardFault> {
        Ok(self.site.get(alloc, path)?)
    }

    fn seen(&self, path: &Path) -> Result<Option<Stamp>, BoardFault> {
        if !has_nodes(&self.lost) {
            return Err(BoardFault::Memory);
        }
        Ok(self.graph.nodes().seen(path))
    }
}
