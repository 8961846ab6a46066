//! The board.
ghost use Rattle.std.specs.Prelude.{◌≡◌, ◌⊎◌, ◌<◌, [], None, IfOk, IfErr, IsTrue};
ghost use Rattle.std.specs.FinMap as finite;
ghost use Rattle.std.specs.Option.{option_copied};
ghost use Rattle.tup_table.specs.Table.{entries_in};
ghost use Rattle.tup_graph.specs.Opening.{IsGraphOf};
ghost use Rattle.tup_core.specs.Honest.{IsHonest};
ghost use Rattle.tup_core.specs.Run.{IsRun};
ghost use Rattle.tup_core.specs.Sound.{HasNear, IsInRange};
ghost use Rattle.tup_core.specs.declared.event.Cause.TheVariants.{Run, Memory as NoMemory};

use crate::answers::BoardParts;
use crate::contents::Contents;
use std::alloc::{AllocError, Global};
use std::marker::{Model, PhantomData};
use std::snapshot::Snapshot;
use tup_access::Verdict;
use tup_core::{Cause, CoreEvent, Plan, Running};
use tup_graph::Nodes;
use tup_rule_outputs::{BoardFault, Ground};
use tup_runner::Runner;
use tup_schedule::{Claimed, Course};
use tup_site::Site;
use tup_stored_graph::Graph;

/// An update under way: a site with its graph, and all that happened. It keeps contents that were read, and no list of
/// files: the graph has seen the core's files.
#[derive(Drop)]
pub struct Board<S: Site, R: Runner> {
    pub(crate) ground: Ground<S>,
    pub(crate) course: Course,
    pub(crate) contents: Contents,
    first_graph: Snapshot<Graph>,
    first_site: Snapshot<S>,
    of: PhantomData<R>,
}

impl<S: Site, R: Runner> Model for Board<S, R> {
    ghost use Rattle.std.specs.Prelude.{◌≡◌};
    ghost use Rattle.std.specs.FinMap as finite;
    ghost use Rattle.tup_board.specs.Board.{BoardState, board_code};
    ghost use Rattle.tup_board.specs.Contents.{AreKept};
    ghost use Rattle.tup_board.specs.Seen.{HasFiles};
    ghost use Rattle.tup_board.specs.Sound.{IsSound};

    ghost Value = { BoardState S };

    ghost coded = { board_code S.code };

    ghost view = { λ b. record {
      opening = record {
        plan = b.course.plan;
        graph = b.first_graph.value;
        site = b.first_site.value;
      };
      history = b.course.history;
      site = b.ground.site;
      graph = b.ground.graph;
      lost = b.ground.lost;
    } };

    ghost invariant = { λ b. (b.course.files ≡ finite.entries b.first_graph.value.nodes.seen)
        × IsSound S.Site R.Runner (record {
          opening = record {
            plan = b.course.plan;
            graph = b.first_graph.value;
            site = b.first_site.value;
          };
          history = b.course.history;
          site = b.ground.site;
          graph = b.ground.graph;
          lost = b.ground.lost;
        })
        × AreKept S.Site b.ground.site b.contents
        × HasFiles b.ground.lost b.ground.graph.nodes b.course };
}

impl<S: Site, R: Runner> Board<S, R> {
    ghost use Rattle.tup_board.specs.Board.{course_of, plan_of, start, state, with_history};
    ghost use Rattle.tup_schedule.specs.Course.{Claims, Stops, EndsDenied, EndsWithFinish, IsLastVerdict};
    ghost use Rattle.tup_board.specs.Calls.{MeansDenied, opened_as};
    ghost use Rattle.tup_board.specs.Sound.{IsSound, IsOpening};

    /// A board on which nothing happened yet. Want of memory gives site and graph back.
    ///
    /// The graph is fresh, stands for the site's store and has seen the files of its tree; the plan runs its flagged
    /// rules, whose outputs may be made.
    pub fn new(
        alloc: Global,
        site: S,
        graph: Graph,
        plan: &Plan,
    ) -> Result<Board<S, R>, (S, Graph, BoardFault)>
        requires { IsOpening S.Site.own (opened_as plan.now graph site) }
        ensures board { IfOk result (λ board. board ≡ opened_as plan.now graph site) }
        ensures memory { IfErr result (λ back. back ≡ (site, graph, BoardFault.Memory)) }
    {
        match opened(alloc, graph.nodes(), plan) {
            Ok(course) => Ok(Board::of(alloc, site, graph, course)),
            Err(_) => Err((site, graph, BoardFault::Memory)),
        }
    }

    /// The same, of a course that begins.
    fn of(alloc: Global, site: S, graph: Graph, course: Course) -> Board<S, R>
        requires opening { IsOpening S.Site.own (opened_as course.plan graph site) }
        requires files { course.files ≡ finite.entries graph.nodes.seen }
        requires graph { IsGraphOf (entries_in graph.table) graph.nodes }
        requires none { course.history ≡ [] }
        ensures { result ≡ opened_as course.plan graph site }
    {
        Board {
            first_graph: Snapshot::of(&graph),
            first_site: Snapshot::of(&site),
            ground: Ground {
                site,
                graph,
                lost: None,
            },
            course,
            contents: Contents::new(alloc),
            of: PhantomData,
        }
    }

    /// All that happened, in its order: a run of the core from the board's opening, and an honest one. All else that a
    /// board keeps at every moment is said here too.
    pub fn history(&self) -> &[CoreEvent]
        ensures events { result.now ≡ self.now.history }
        ensures run { IsRun (plan_of self.now) (start self.now) result.now }
        ensures honest { IsTrue S.tells → IsTrue R.tells
            → IsHonest R.next (S.known self.now.site)
            (plan_of self.now) (start self.now) result.now }
        ensures keeps { IsSound S.Site.own R.Runner.own self.now }
    {
        self.course.history()
    }

    /// What a seat runs.
    pub fn running(&self, seat: u32) -> Option<&Running>
        ensures { option_copied result ≡ (state self.now).seats seat }
    {
        self.course.running(seat)
    }

    /// Takes the board apart. Where the graph isn't fresh, its store is opened again.
    pub fn into_parts(self) -> BoardParts<S>
        ensures site { result.site ≡ self.site }
        ensures graph { result.graph ≡ self.graph }
        ensures history { result.history ≡ self.history }
        ensures cause { result.cause ≡ (state self).stopped }
        ensures keeps { IsSound S.Site.own R.Runner.own self }
    {
        let cause = self.course.stopped();
        parts_of(self.ground, self.course, cause)
    }

    /// Gives a seat that runs nothing the first rule that is ready. It takes no memory.
    ///
    /// `Wait` comes where nothing is stopped, no rule is ready and another seat runs one, and `Over` where all is stopped,
    /// or no rule is ready and none runs.
    pub fn claim(&mut self, plan: &Plan, seat: u32) -> Claimed
        requires plan { plan.now ≡ plan_of self.old }
        requires seat { seat < 16 }
        requires free { (state self.old).seats seat ≡ None }
        ensures claims { Claims seat (course_of self.old) result (course_of self.new) }
        ensures rest { self.new ≡ with_history self.old self.new.history }
    {
        self.course.claim(plan, seat)
    }

    /// Ends the command of a seat whose last ask was denied, with the verdict that this was. It takes no memory.
    pub fn finish_denied(&mut self, plan: &Plan, seat: u32)
        requires plan { plan.now ≡ plan_of self.old }
        requires denied { MeansDenied S.Site.own R.Runner.own self.old seat }
        ensures ends { EndsDenied seat (course_of self.old) (course_of self.new) }
        ensures rest { self.new ≡ with_history self.old self.new.history }
    {
        self.course.finish_denied(plan, seat)
    }

    /// The verdict of the end of a command that happened last.
    pub fn last_verdict(&self) -> &Verdict
        requires { EndsWithFinish (course_of self.now) }
        ensures { IsLastVerdict (course_of self.now) result.now }
    {
        self.course.last_verdict()
    }

    /// Stops: no rule is claimed any more, and the seat runs nothing; its rule is to be run again. The first cause
    /// stays. Where all is stopped and the seat runs nothing, it changes nothing. It takes no memory.
    pub fn stop(&mut self, plan: &Plan, seat: u32, cause: Cause)
        requires plan { plan.now ≡ plan_of self.old }
        requires seat { seat < 16 }
        requires cause { (cause ≡ Run) ⊎ (cause ≡ NoMemory) }
        ensures stops { Stops seat cause (course_of self.old) (course_of self.new) }
        ensures rest { self.new ≡ with_history self.old self.new.history }
    {
        self.course.stop(plan, seat, cause)
    }
}

/// What a board is made of.
fn parts_of<S: Site>(ground: Ground<S>, course: Course, cause: Option<Cause>) -> BoardParts<S>
    ensures { result ≡ record {
      site = ground.site;
      graph = ground.graph;
      history = course.history;
      cause = cause;
    } }
{
    BoardParts {
        site: ground.site,
        graph: ground.graph,
        history: course.into_history(),
        cause,
    }
}

/// The opening of a plan over the files that a graph has seen.
fn opened(alloc: Global, nodes: &Nodes, plan: &Plan) -> Result<Course, AllocError>
    requires range { IsInRange plan.now }
    requires near { HasNear plan.now }
    ensures { IfOk result (λ course. course
        ≡ record { plan = plan.now; files = finite.entries nodes.now.seen; history = [] }) }
{
    Course::new(alloc, plan, nodes.seen_files())
}
