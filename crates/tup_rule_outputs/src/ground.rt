//! The site of a board, and the graph of its store.
ghost use Rattle.std.specs.Prelude.{◌≡◌, ◌↔◌, true, None, Some, Err, IsTrue};
ghost use Rattle.tup_graph.specs.Graph.{is_rule};
ghost use Rattle.tup_graph.specs.Transactions.{begin_edits, begun, finish_edits, finished};
ghost use Rattle.tup_rule_outputs.specs.Lost.{HasNodes};
ghost use Rattle.tup_stored_graph.specs.Held.{is_fresh};

use crate::fault::{BoardFault, board_fault, is_by_site};
use crate::putting::put_files;
use std::alloc::Global;
use std::marker::Model;
use std::snapshot::Snapshot;
use tup_graph::GraphFault;
use tup_path::Files;
use tup_record::RunRecord;
use tup_site::Site;
use tup_stored_graph::Graph;

/// A rule, and the record of its run.
#[derive(Drop)]
pub struct GoodEnd {
    pub rule: u32,
    pub run: RunRecord,
}

/// A commit after which the graph stands for its store no longer: the store may have it or not.
#[derive(Drop)]
pub struct Lost {
    /// Whether the site failed there; else memory was wanting.
    by_site: bool,
    rule: u32,
    /// What it was to keep, unless it only began a run.
    run: Option<Snapshot<RunRecord>>,
}

impl Model for Lost {
    ghost use Rattle.std.specs.Prelude.{option_map};
    ghost use Rattle.std.specs.declared.snapshot.Snapshot.{Snapshot};
    ghost use Rattle.tup_record.specs.declared.run.RunRecord.{RunRecord};
    ghost use Rattle.tup_rule_outputs.specs.Lost.{Lost as LostCommit, lost_code};

    ghost Value = { LostCommit };

    ghost coded = { lost_code };

    ghost view = { λ l. record {
      by_site = l.by_site;
      rule = l.rule;
      run = option_map (λ (run : Snapshot RunRecord). run.value) l.run;
    } };
}

impl Lost {
    ghost use Rattle.tup_rule_outputs.specs.Fault.{lost_fault};

    /// What refuses all that would commit from then on.
    fn fault(&self) -> BoardFault
        ensures { result ≡ lost_fault self.now }
    {
        if self.by_site {
            BoardFault::Site
        } else {
            BoardFault::Memory
        }
    }
}

/// Whether the graph still has its nodes. They may be gone where memory was wanting for a commit.
pub(crate) fn has_nodes(lost: &Option<Lost>) -> bool
    ensures { IsTrue result ↔ HasNodes lost.now }
{
    match lost {
        Some(lost) => lost.by_site,
        None => true,
    }
}

/// A site, and the graph of its store.
#[derive(Drop)]
pub struct Ground<S: Site> {
    pub site: S,
    pub graph: Graph,
    pub lost: Option<Lost>,
}

impl<S: Site> Ground<S> {
    ghost use Rattle.tup_rule_outputs.specs.Ground.{IsGround, CanMake, Makes, MakesFiles, Commits};
    ghost use Rattle.tup_rule_outputs.specs.Lost.{run_in};
    ghost use Rattle.tup_rule_outputs.specs.Fault.{CountsFaults, told, of_graph, lost_now};

    /// Makes the files of a rule: its outputs are unsure in the store before the first of them is touched, and written
    /// there once all of them are durable. Where a commit was lost before it does nothing.
    pub fn make(&mut self, alloc: Global, end: GoodEnd, files: &Files) -> Result<(), BoardFault>
        requires { self.old.lost ≡ None → CanMake S.Site.own self.old end.rule files.now }
        ensures makes { Makes S.Site.own end.rule end.run files.now self.old result self.new }
        ensures cause { CountsFaults (S.faults self.old.site) (S.faults self.new.site)
            self.old.lost result }
    {
        match &self.lost {
            None => self.make_files(alloc, end, files),
            Some(lost) => Err(lost.fault()),
        }
    }

    /// The same where no commit was lost before.
    fn make_files(&mut self, alloc: Global, end: GoodEnd, files: &Files) -> Result<(), BoardFault>
        requires can { CanMake S.Site.own self.old end.rule files.now }
        requires none_lost { self.old.lost ≡ None }
        ensures makes { MakesFiles S.Site.own end.rule end.run files.now
            self.old result self.new }
        ensures cause { CountsFaults (S.faults self.old.site) (S.faults self.new.site)
            None result }
    {
        self.begin(alloc, end.rule)?;
        // A law: the store stands for these nodes.
        let _ = self.graph.nodes();
        put_files(alloc, &mut self.site, files.as_slice())?;
        self.keep(alloc, end)
    }

    /// The outputs of a rule are unsure from now on.
    fn begin(&mut self, alloc: Global, rule: u32) -> Result<(), BoardFault>
        requires ground { IsGround S.Site.own self.old }
        requires none_lost { self.old.lost ≡ None }
        requires rule { is_rule self.old.graph.nodes rule ≡ true }
        ensures commits { Commits S.Site.own rule None
            (begin_edits self.old.graph.nodes rule) (begun self.old.graph.nodes rule)
            self.old result self.new }
        ensures cause { CountsFaults (S.faults self.old.site) (S.faults self.new.site)
            None result }
    {
        let answer = self.graph.begin(alloc, &mut self.site, rule);
        self.answered(rule, None, answer)
    }

    /// The outputs of a rule are written, and its run is kept.
    fn keep(&mut self, alloc: Global, end: GoodEnd) -> Result<(), BoardFault>
        requires ground { IsGround S.Site.own self.old }
        requires none_lost { self.old.lost ≡ None }
        requires rule { is_rule self.old.graph.nodes end.rule ≡ true }
        ensures commits { Commits S.Site.own end.rule (Some end.run)
            (finish_edits self.old.graph.nodes end.rule end.run)
            (finished self.old.graph.nodes end.rule end.run)
            self.old result self.new }
        ensures cause { CountsFaults (S.faults self.old.site) (S.faults self.new.site)
            None result }
    {
        let run = Snapshot::of(&end.run);
        let answer = self.graph.finish(alloc, &mut self.site, end.rule, end.run);
        self.answered(end.rule, Some(run), answer)
    }

    /// A commit was answered so. Where the graph stands for its store no longer, that is noted.
    fn answered(
        &mut self,
        rule: u32,
        run: Option<Snapshot<RunRecord>>,
        answer: Result<(), GraphFault>,
    ) -> Result<(), BoardFault>
        ensures told { result ≡ told answer }
        ensures lost { self.new ≡ record self.old {
          lost =
              lost_now (is_fresh self.old.graph) self.old.lost rule (run_in run) answer;
        } }
    {
        match answer {
            Ok(()) => Ok(()),
            Err(fault) => Err(self.lose(rule, run, fault)),
        }
    }

    /// A commit was refused. Where the graph stands for its store no longer, that is noted.
    fn lose(&mut self, rule: u32, run: Option<Snapshot<RunRecord>>, fault: GraphFault) -> BoardFault
        ensures told { result ≡ of_graph fault }
        ensures lost { self.new ≡ record self.old {
          lost =
              lost_now (is_fresh self.old.graph) self.old.lost rule (run_in run) (Err fault);
        } }
    {
        if !self.graph.fresh() {
            self.lost = Some(Lost {
                by_site: is_by_site(fault),
                rule,
                run,
            });
        }
        board_fault(fault)
    }
}
