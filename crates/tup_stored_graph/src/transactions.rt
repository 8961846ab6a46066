//! The transactions of a graph.
ghost use Rattle.std.specs.Prelude.{◌≡◌, true, All, IsTrue, Err};
ghost use Rattle.tup_path.specs.Gives.{GivesUnless};
ghost use Rattle.tup_site.specs.World.{TreeStays};
ghost use Rattle.tup_graph.specs.Graph.{is_rule};
ghost use Rattle.tup_graph.specs.Transactions.{begin_edits, finish_edits, doom_edits, forget_edits, flag_edits};
ghost use Rattle.tup_graph.specs.Transactions.{begun, finished, with_doomed, with_forgotten, with_flagged};
ghost use Rattle.tup_stored_graph.specs.Cause.{CountsFaults};
ghost use Rattle.tup_stored_graph.specs.Crash.{LeavesEither};
ghost use Rattle.tup_stored_graph.specs.Held.{is_fresh, StandsFor};
ghost use Rattle.tup_stored_graph.specs.Transaction.{Leaves, IsFull};

use crate::graph::Graph;
use std::alloc::Global;
use tup_graph::GraphFault;
use tup_path::Path;
use tup_record::RunRecord;
use tup_site::Site;

impl Graph {
    /// A run of a rule begins: its outputs are unsure.
    pub fn begin<S: Site>(
        &mut self,
        alloc: Global,
        site: &mut S,
        rule: u32,
    ) -> Result<(), GraphFault>
        requires fresh { IsTrue (is_fresh self.old) }
        requires stands { IsTrue S.tells
            → StandsFor S.world S.moment S.left_since self.old site.old }
        requires rule { is_rule self.old.nodes rule ≡ true }

        ensures leaves { Leaves (begin_edits self.old.nodes rule) (begun self.old.nodes rule)
            self.old self.new site.old site.new result }
        ensures full { IsFull self.old (begin_edits self.old.nodes rule)
            → GivesUnless result GraphFault.Memory (Err GraphFault.Full) }
        ensures stands { IsTrue S.tells → IsTrue (is_fresh self.new)
            → StandsFor S.world S.moment S.left_since self.new site.new }
        ensures tree { IsTrue S.tells → TreeStays (S.world site.old) (S.world site.new) }
        ensures crash { IsTrue S.tells → LeavesEither S.moment S.left_since site.old site.new
            self.old.nodes (begun self.old.nodes rule) }
        ensures known { IsTrue S.tells → S.known site.new ≡ S.known site.old }
        ensures cause { CountsFaults (S.faults site.old) (S.faults site.new) result }
    {
        let edits = self.nodes().begin(alloc, rule)?;
        self.commit_edits(alloc, site, edits)
    }

    /// A run of a rule ended well: what it wrote is written with these stamps and seen with them,
    /// the rule has this record, and isn't flagged any more.
    pub fn finish<S: Site>(
        &mut self,
        alloc: Global,
        site: &mut S,
        rule: u32,
        run: RunRecord,
    ) -> Result<(), GraphFault>
        requires fresh { IsTrue (is_fresh self.old) }
        requires stands { IsTrue S.tells
            → StandsFor S.world S.moment S.left_since self.old site.old }
        requires rule { is_rule self.old.nodes rule ≡ true }

        ensures leaves { Leaves (finish_edits self.old.nodes rule run)
            (finished self.old.nodes rule run)
            self.old self.new site.old site.new result }
        ensures full { IsFull self.old (finish_edits self.old.nodes rule run)
            → GivesUnless result GraphFault.Memory (Err GraphFault.Full) }
        ensures stands { IsTrue S.tells → IsTrue (is_fresh self.new)
            → StandsFor S.world S.moment S.left_since self.new site.new }
        ensures tree { IsTrue S.tells → TreeStays (S.world site.old) (S.world site.new) }
        ensures crash { IsTrue S.tells → LeavesEither S.moment S.left_since site.old site.new
            self.old.nodes (finished self.old.nodes rule run) }
        ensures known { IsTrue S.tells → S.known site.new ≡ S.known site.old }
        ensures cause { CountsFaults (S.faults site.old) (S.faults site.new) result }
    {
        let edits = self.nodes().finish(alloc, rule, run)?;
        self.commit_edits(alloc, site, edits)
    }

    /// The files at some owned paths are to go: those paths are unsure. A path that isn't owned is
    /// left.
    pub fn doom<S: Site>(
        &mut self,
        alloc: Global,
        site: &mut S,
        paths: &[Path],
    ) -> Result<(), GraphFault>
        requires fresh { IsTrue (is_fresh self.old) }
        requires stands { IsTrue S.tells
            → StandsFor S.world S.moment S.left_since self.old site.old }

        ensures leaves { Leaves (doom_edits self.old.nodes paths.now)
            (with_doomed self.old.nodes paths.now)
            self.old self.new site.old site.new result }
        ensures full { IsFull self.old (doom_edits self.old.nodes paths.now)
            → GivesUnless result GraphFault.Memory (Err GraphFault.Full) }
        ensures stands { IsTrue S.tells → IsTrue (is_fresh self.new)
            → StandsFor S.world S.moment S.left_since self.new site.new }
        ensures tree { IsTrue S.tells → TreeStays (S.world site.old) (S.world site.new) }
        ensures crash { IsTrue S.tells → LeavesEither S.moment S.left_since site.old site.new
            self.old.nodes (with_doomed self.old.nodes paths.now) }
        ensures known { IsTrue S.tells → S.known site.new ≡ S.known site.old }
        ensures cause { CountsFaults (S.faults site.old) (S.faults site.new) result }
    {
        let edits = self.nodes().doom(alloc, paths)?;
        self.commit_edits(alloc, site, edits)
    }

    /// The files at some paths are gone: those paths are owned no longer, and seen no longer.
    pub fn forget<S: Site>(
        &mut self,
        alloc: Global,
        site: &mut S,
        paths: &[Path],
    ) -> Result<(), GraphFault>
        requires fresh { IsTrue (is_fresh self.old) }
        requires stands { IsTrue S.tells
            → StandsFor S.world S.moment S.left_since self.old site.old }

        ensures leaves { Leaves (forget_edits self.old.nodes paths.now)
            (with_forgotten self.old.nodes paths.now)
            self.old self.new site.old site.new result }
        ensures full { IsFull self.old (forget_edits self.old.nodes paths.now)
            → GivesUnless result GraphFault.Memory (Err GraphFault.Full) }
        ensures stands { IsTrue S.tells → IsTrue (is_fresh self.new)
            → StandsFor S.world S.moment S.left_since self.new site.new }
        ensures tree { IsTrue S.tells → TreeStays (S.world site.old) (S.world site.new) }
        ensures crash { IsTrue S.tells → LeavesEither S.moment S.left_since site.old site.new
            self.old.nodes (with_forgotten self.old.nodes paths.now) }
        ensures known { IsTrue S.tells → S.known site.new ≡ S.known site.old }
        ensures cause { CountsFaults (S.faults site.old) (S.faults site.new) result }
    {
        let edits = self.nodes().forget(alloc, paths)?;
        self.commit_edits(alloc, site, edits)
    }

    /// Rules are to be run.
    pub fn flag<S: Site>(
        &mut self,
        alloc: Global,
        site: &mut S,
        rules: &[u32],
    ) -> Result<(), GraphFault>
        requires fresh { IsTrue (is_fresh self.old) }
        requires stands { IsTrue S.tells
            → StandsFor S.world S.moment S.left_since self.old site.old }
        requires rules { All (λ rule. is_rule self.old.nodes rule ≡ true) rules.now }

        ensures leaves { Leaves (flag_edits rules.now) (with_flagged self.old.nodes rules.now)
            self.old self.new site.old site.new result }
        ensures full { IsFull self.old (flag_edits rules.now)
            → GivesUnless result GraphFault.Memory (Err GraphFault.Full) }
        ensures stands { IsTrue S.tells → IsTrue (is_fresh self.new)
            → StandsFor S.world S.moment S.left_since self.new site.new }
        ensures tree { IsTrue S.tells → TreeStays (S.world site.old) (S.world site.new) }
        ensures crash { IsTrue S.tells → LeavesEither S.moment S.left_since site.old site.new
            self.old.nodes (with_flagged self.old.nodes rules.now) }
        ensures known { IsTrue S.tells → S.known site.new ≡ S.known site.old }
        ensures cause { CountsFaults (S.faults site.old) (S.faults site.new) result }
    {
        let edits = self.nodes().flag(alloc, rules)?;
        self.commit_edits(alloc, site, edits)
    }
}
