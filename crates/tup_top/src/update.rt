//! An update, and what is told of it.
ghost use Rattle.std.specs.Prelude.{◌≡◌, ◌<◌, ◌≤◌, [], ◌∷◌, ◌++◌, IsTrue, IfOk, IfErr, drop, length, map, take};
ghost use Rattle.tup_demo.specs.Steady.{world_in, tree_in, store_in};
ghost use Rattle.tup_site.specs.Crash.{GoesOn};
ghost use Rattle.tup_table.specs.Images.{OpenStep};
ghost use Rattle.tup_table.specs.Store.{header};
ghost use Rattle.tup_law_phases.specs.Language.{tupfiles};
ghost use Rattle.tup_law_site.specs.Over.{IsKeptNow};
ghost use Rattle.tup_promise.specs.Blamed.{IsToBlame};
ghost use Rattle.tup_promise.specs.Cause.{IsWithin};
ghost use Rattle.tup_promise.specs.Crashes.{SourcesAndCrashes, SourcesStay};
ghost use Rattle.tup_promise.specs.Finished.{IsSettled, ExactlyTheFiles};
ghost use Rattle.tup_promise.specs.Kept.{IsKeptBySome, KeptHere};
ghost use Rattle.tup_promise.specs.Needed.{OnlyWhatIsNeeded};
ghost use Rattle.tup_promise.specs.States.{States};
ghost use Rattle.tup_promise.specs.Ran.{CrewRuns};
ghost use Rattle.tup_promise.specs.Unopened.{IsReadable};
ghost use Rattle.tup_promise.specs.Users.{HasUsersFile, IsHeldUp};
ghost use Rattle.tup_update.specs.Full.{HasFullCause};
ghost use Rattle.tup_top.specs.Crew.{IsCrew};
ghost use Rattle.tup_top.specs.Demo.{IsKeptDemo, demo_world};
ghost use Rattle.tup_top.specs.Lines.{lines as lines_of};
ghost use Rattle.tup_top.specs.Printed.{Ends, EndsTold, IsDone, Prints, PrintsDemo, PrintsUpdate, SaysWhyOf};
ghost use Rattle.tup_top.specs.Promise.{HasCrewCause, HasDemoCause, Logs, OnceDone};
ghost use Rattle.tup_top.specs.Promise.{OpensStore, Spares, counts};
ghost use Rattle.tup_top.specs.Status.{IfCame, status_of as told_by};
ghost use Rattle.tup_top.specs.Telling.{Hears, Reports, TellsUpdate};
ghost use Rattle.tup_top.specs.Truth.{IsTrueLog};
ghost use Rattle.tup_top.specs.declared.status.Status.TheVariants.{TellFault};

use crate::parting::{part_off, rejoined};
use crate::print::{lines, print, tell};
use crate::status::{Status, status_of, status_of_begun};
use crate::telling::{Reported, after_telling, hear, nobody};
use std::alloc::Global;
use std::sync::Wait;
use std::thread::Threads;
use tup_demo::{SteadySite, demo_asks, demo_builds, demo_project};
use tup_graph::GraphFault;
use tup_ledger::begin;
use tup_mini::Mini;
use tup_partial::flags_are_of_rules;
use tup_path::{Items, Text};
use tup_progress::Started;
use tup_promise::{Log, Stop};
use tup_rule::RuleName;
use tup_runner::Runner;
use tup_site::{MemRefused, Site};
use tup_tell::{Keep, Reporter, Sink, Telling};
use tup_update::{Asked, Updated, update_site};

/// How an update ended, with the site and the crew as it left them.
#[derive(Drop)]
pub(crate) struct Ended<S, R, T> {
    pub status: Status,
    pub site: S,
    /// The runners, in their order.
    pub crew: Vec<R>,
    /// The rules that it began, in order.
    pub ran: Items<RuleName>,
    /// The reporters that failed, in their order.
    pub failed: Vec<T>,
}

/// Updates the files of a site by the first `jobs` runners of a crew; the others are as they were.
/// Where there is no memory to part them nothing is done.
pub(crate) fn update_by<
    W: Threads + Wait + Sync,
    S: Site + Send,
    R: Runner + Send,
    T: Reporter,
    K: Sink,
>(
    rt: &W,
    alloc: Global,
    site: S,
    crew: Vec<R>,
    jobs: usize,
    asked: Asked,
    started: &Started,
    tellers: &mut Vec<T>,
    out: &mut K,
) -> Ended<S, R, T>
    requires crew { IsCrew crew.items }
    requires jobs { (0 < jobs) × (jobs ≤ length crew.items) }
    ensures opens_store { IsTrue S.tells → let old = S.world site in
        let new = S.world result.site in
        IfCame result.status (OpensStore old new result.ran) }
    ensures closed { IsTrue S.tells → (IsReadable (S.world site).store → ⊥)
        → GoesOn S.moment S.left_since site result.site OpenStep }
    // Over a kept site, where site and runner tell.
    ensures exactly_the_files { KeptHere S.Site.own R.Runner.own site
        → let old = S.world site in let new = S.world result.site in
        IfCame result.status (ExactlyTheFiles R.next old new) }
    ensures only_what_is_needed { KeptHere S.Site.own R.Runner.own site
        → let old = S.world site in let new = S.world result.site in
        IfCame result.status
        (OnlyWhatIsNeeded R.next asked.keep_going jobs old new result.ran) }
    ensures blamed { KeptHere S.Site.own R.Runner.own site
        → let old = S.world site in let new = S.world result.site in
        IfCame result.status (IsToBlame R.next old new result.ran) }
    ensures full { KeptHere S.Site.own R.Runner.own site
        → IfCame result.status
        (HasFullCause S.Site.own R.next site result.site result.ran) }
    ensures settled { KeptHere S.Site.own R.Runner.own site
        → IfCame result.status (OnceDone (IsSettled S.Site.own result.site)) }
    ensures sources_and_crashes { KeptHere S.Site.own R.Runner.own site
        → SourcesAndCrashes S.Site.own R.next site result.site }
    ensures states { KeptHere S.Site.own R.Runner.own site
        → States R.next (S.world site) (S.world result.site) }
    ensures kept { KeptHere S.Site.own R.Runner.own site
        → let known = S.known result.site in
        IsKeptNow S.Site.own R.next tupfiles known result.site }
    // Whatever the runner is.
    ensures sources_stay { IsTrue S.tells → IsKeptBySome S.Site.own site
        → SourcesStay S.Site.own site result.site }
    ensures users { IsTrue S.tells → IsKeptBySome S.Site.own site → HasUsersFile (S.world site)
        → IfCame result.status (IsHeldUp S.Site.own site result.site result.ran) }
    ensures limits { IsTrue S.tells → IfCame result.status (IsWithin (S.world site)) }
    ensures spares { IsTrue S.tells → let old = S.world site in
        let new = S.world result.site in IfCame result.status (Spares old new) }
    // Whatever site and runner are: how far it came, what became of the rules, and why it ended.
    ensures logged { IfCame result.status (Logs jobs asked.keep_going result.ran) }
    ensures counted_cause { let counted = counts S.faults R.faults K.faults in
        let before = counted site crew.items out.old in
        let now = counted result.site result.crew.items out.new in
        HasCrewCause jobs before now result.status }
    ensures ran { IsTrue R.tells_ran → IfCame result.status
        (CrewRuns result.ran (map R.ran (take jobs crew.items))
        (map R.ran (take jobs result.crew.items))) }
    ensures printed { IsTrue K.tells
        → let before = K.faults out.old in let now = K.faults out.new in
        let old = S.world site in let new = S.world result.site in
        let says = SaysWhyOf S.Site.own site asked.explain in
        let holds = IsTrueLog S.Site.own R.Runner.own site new in
        let hears = Hears T.told T.faults tellers.old.items tellers.new.items result.failed.items in
        PrintsUpdate jobs S.tells asked.keep_going says holds hears old new result.ran before now
        (K.held out.old) (K.held out.new) result.status }
    // What its reporters were told, wherever its lines went.
    ensures tells { let before = K.faults out.old in let now = K.faults out.new in
        let old = S.world site in let new = S.world result.site in
        let holds = IsTrueLog S.Site.own R.Runner.own site new in
        let hears = Hears T.told T.faults tellers.old.items tellers.new.items result.failed.items in
        TellsUpdate jobs S.tells asked.keep_going holds hears old new result.ran before now
        result.status }
    ensures blamed_reporter { result.status ≡ TellFault → result.failed.items ≡ [] → ⊥ }
    ensures crew { length result.crew.items ≡ length crew.items }
    ensures others { drop jobs result.crew.items ≡ drop jobs crew.items }
{
    flags_are_of_rules();
    let mut crew = crew;
    match part_off(alloc, &mut crew, jobs) {
        Ok(others) => {
            let Ended {
                status,
                site,
                crew,
                ran,
                failed,
            } = update(rt, alloc, site, crew, asked, started, tellers, out);
            Ended {
                status,
                site,
                crew: rejoined(crew, others),
                ran,
                failed,
            }
        }
        Err(_) => Ended {
            status: Status::Memory,
            site,
            crew,
            ran: Items::new(alloc),
            failed: nobody(alloc),
        },
    }
}

/// Updates the files of a site by a crew, going on after a bad verdict or not. Tells the reporters
/// what it did, and prints its lines, with why each rule was run where that is asked.
pub(crate) fn update<
    W: Threads + Wait + Sync,
    S: Site + Send,
    R: Runner + Send,
    T: Reporter,
    K: Sink,
>(
    rt: &W,
    alloc: Global,
    site: S,
    crew: Vec<R>,
    asked: Asked,
    started: &Started,
    tellers: &mut Vec<T>,
    out: &mut K,
) -> Ended<S, R, T>
    requires crew { IsCrew crew.items }
    ensures opens_store { IsTrue S.tells → let old = S.world site in
        let new = S.world result.site in
        IfCame result.status (OpensStore old new result.ran) }
    ensures closed { IsTrue S.tells → (IsReadable (S.world site).store → ⊥)
        → GoesOn S.moment S.left_since site result.site OpenStep }
    // Over a kept site, where site and runner tell.
    ensures exactly_the_files { KeptHere S.Site.own R.Runner.own site
        → let old = S.world site in let new = S.world result.site in
        IfCame result.status (ExactlyTheFiles R.next old new) }
    ensures only_what_is_needed { KeptHere S.Site.own R.Runner.own site
        → let old = S.world site in let new = S.world result.site in
        IfCame result.status
        (OnlyWhatIsNeeded R.next asked.keep_going (length crew.items) old new result.ran) }
    ensures blamed { KeptHere S.Site.own R.Runner.own site
        → let old = S.world site in let new = S.world result.site in
        IfCame result.status (IsToBlame R.next old new result.ran) }
    ensures full { KeptHere S.Site.own R.Runner.own site
        → IfCame result.status
        (HasFullCause S.Site.own R.next site result.site result.ran) }
    ensures settled { KeptHere S.Site.own R.Runner.own site
        → IfCame result.status (OnceDone (IsSettled S.Site.own result.site)) }
    ensures sources_and_crashes { KeptHere S.Site.own R.Runner.own site
        → SourcesAndCrashes S.Site.own R.next site result.site }
    ensures states { KeptHere S.Site.own R.Runner.own site
        → States R.next (S.world site) (S.world result.site) }
    ensures kept { KeptHere S.Site.own R.Runner.own site
        → let known = S.known result.site in
        IsKeptNow S.Site.own R.next tupfiles known result.site }
    // Whatever the runner is.
    ensures sources_stay { IsTrue S.tells → IsKeptBySome S.Site.own site
        → SourcesStay S.Site.own site result.site }
    ensures users { IsTrue S.tells → IsKeptBySome S.Site.own site → HasUsersFile (S.world site)
        → IfCame result.status (IsHeldUp S.Site.own site result.site result.ran) }
    ensures limits { IsTrue S.tells → IfCame result.status (IsWithin (S.world site)) }
    ensures spares { IsTrue S.tells → let old = S.world site in
        let new = S.world result.site in IfCame result.status (Spares old new) }
    // Whatever site and runner are: how far it came, what became of the rules, and why it ended.
    ensures logged { IfCame result.status (Logs (length crew.items) asked.keep_going result.ran) }
    ensures counted_cause { let counted = counts S.faults R.faults K.faults in
        let before = counted site crew.items out.old in
        let now = counted result.site result.crew.items out.new in
        HasCrewCause (length crew.items) before now result.status }
    ensures ran { IsTrue R.tells_ran → IfCame result.status
        (CrewRuns result.ran (map R.ran crew.items) (map R.ran result.crew.items)) }
    ensures printed { IsTrue K.tells
        → let before = K.faults out.old in let now = K.faults out.new in
        let old = S.world site in let new = S.world result.site in
        let says = SaysWhyOf S.Site.own site asked.explain in
        let holds = IsTrueLog S.Site.own R.Runner.own site new in
        let hears = Hears T.told T.faults tellers.old.items tellers.new.items result.failed.items in
        PrintsUpdate (length crew.items) S.tells asked.keep_going says holds hears old new result.ran
        before now (K.held out.old) (K.held out.new) result.status }
    // What its reporters were told, wherever its lines went.
    ensures tells { let before = K.faults out.old in let now = K.faults out.new in
        let old = S.world site in let new = S.world result.site in
        let holds = IsTrueLog S.Site.own R.Runner.own site new in
        let hears = Hears T.told T.faults tellers.old.items tellers.new.items result.failed.items in
        TellsUpdate (length crew.items) S.tells asked.keep_going holds hears old new result.ran
        before now result.status }
    ensures blamed_reporter { result.status ≡ TellFault → result.failed.items ≡ [] → ⊥ }
    ensures nobody { tellers.old.items ≡ [] → result.failed.items ≡ [] }
    ensures crew { length result.crew.items ≡ length crew.items }
{
    let Updated {
        site,
        crew,
        log,
        because,
        stopped,
    } = update_site(rt, alloc, site, crew, asked, started);
    let Reported { status, failed } = tell_all(
        alloc,
        &log,
        because.as_slice(),
        stopped,
        tellers,
        out,
    );
    Ended {
        status,
        site,
        crew,
        ran: log.ran,
        failed,
    }
}

/// Tells the reporters what an update did by its log, prints its lines, and says how the order ends
/// then.
fn tell_all<T: Reporter, K: Sink>(
    alloc: Global,
    log: &Log,
    because: &[Option<Text>],
    stopped: Option<Stop>,
    tellers: &mut Vec<T>,
    out: &mut K,
) -> Reported<T>
    ensures ends { let came = told_by log.now stopped in
        EndsTold (K.faults out.old) (K.faults out.new) came result.status }
    ensures counted { IsDone result.status → K.faults out.new ≡ K.faults out.old }
    ensures reports { let came = told_by log.now stopped in
        let hears = Hears T.told T.faults tellers.old.items tellers.new.items result.failed.items in
        let before = K.faults out.old in let now = K.faults out.new in
        Reports hears log.now (lines_of log.now because.now) (IsTrue K.tells) came before now
        (K.held out.old) (K.held out.new) result.status }
    ensures blamed_reporter { result.status ≡ TellFault → result.failed.items ≡ [] → ⊥ }
    ensures nobody { tellers.old.items ≡ [] → result.failed.items ≡ [] }
{
    let came = status_of(log, stopped);
    let Telling { failed, all } = hear(alloc, log, tellers);
    let status = after_telling(came, all, failed.is_empty());
    let status = print_lines(alloc, log, because, status, out);
    Reported { status, failed }
}

/// Prints the lines of an update with this log that ends with this status, and says how the order
/// ends then.
fn print_lines<K: Sink>(
    alloc: Global,
    log: &Log,
    because: &[Option<Text>],
    status: Status,
    out: &mut K,
) -> Status
    ensures ends { Ends (K.faults out.old) (K.faults out.new) status result }
    ensures counted { IsDone result → K.faults out.new ≡ K.faults out.old }
    ensures prints { IsTrue K.tells
        → let before = K.faults out.old in let now = K.faults out.new in
        Prints status (lines_of log.now because.now status) before now
        (K.held out.old) (K.held out.new) result }
{
    match lines(alloc, log, because, &status) {
        Ok(text) => print(alloc, &text, status, out),
        Err(_) => Status::Memory,
    }
}

/// Begins a small project in memory, updates it, and prints the lines of this update.
pub(crate) fn demo<W: Threads + Wait + Sync, K: Sink>(rt: &W, alloc: Global, out: &mut K) -> Status
    ensures cause { HasDemoCause (K.faults out.old) (K.faults out.new) result }
    ensures printed { IsTrue K.tells
        → let before = K.faults out.old in let now = K.faults out.new in
        PrintsDemo before now (K.held out.old) (K.held out.new) result }
{
    demo_asks();
    demo_builds();
    let plain = Asked {
        keep_going: false,
        explain: false,
    };
    let mut tellers: Vec<Keep> = nobody(alloc);
    match demo_parts(alloc) {
        Ok((site, crew)) => update(
            rt,
            alloc,
            site,
            crew,
            plain,
            &Started::new(),
            &mut tellers,
            out,
        )
        .status,
        Err(fault) => tell(alloc, status_of_begun(Err(fault)), out),
    }
}

/// The small project, begun, and the crew that updates it. They are refused for want of memory alone.
fn demo_parts(alloc: Global) -> Result<(SteadySite, Vec<Mini>), GraphFault>
    ensures holds { IfOk result (λ parts. world_in parts.0 ≡ demo_world) }
    ensures kept { IfOk result (λ parts. IsKeptDemo parts.0) }
    ensures alone { IfOk result (λ parts. length parts.1.items ≡ 1) }
    ensures memory { IfErr result (λ fault. fault ≡ GraphFault.Memory) }
{
    let site = demo_site(alloc)?;
    match vec![in alloc; Mini::new(alloc)] {
        Ok(crew) => Ok((site, crew)),
        Err(_) => Err(GraphFault::Memory),
    }
}

/// The small project, begun. It is refused for want of memory alone.
fn demo_site(alloc: Global) -> Result<SteadySite, GraphFault>
    ensures holds { IfOk result (λ site. world_in site ≡ demo_world) }
    ensures kept { IfOk result (λ site. IsKeptDemo site) }
    ensures memory { IfErr result (λ fault. fault ≡ GraphFault.Memory) }
{
    match demo_project(alloc) {
        Ok(site) => begun(alloc, site),
        Err(MemRefused::Memory) => Err(GraphFault::Memory),
        // its project fits, so want of memory alone refuses it
        Err(_) => Err(GraphFault::Site),
    }
}

/// A project that begins where there is no store, in a site that never fails. It is durable then.
fn begun(alloc: Global, site: SteadySite) -> Result<SteadySite, GraphFault>
    requires { store_in site ≡ [] }
    ensures files { IfOk result (λ begun. tree_in begun ≡ tree_in site) }
    ensures store { IfOk result (λ begun. store_in begun ≡ header ++ 0 ∷ []) }
    ensures kept { IfOk result (λ begun. IsKeptDemo begun) }
    ensures memory { IfErr result (λ fault. fault ≡ GraphFault.Memory) }
{
    let mut site = site;
    begin(alloc, &mut site)?;
    match site.settle(alloc) {
        Ok(()) => Ok(site),
        // so want of memory alone refuses it
        Err(_) => {
            drop(site);
            Err(GraphFault::Memory)
        }
    }
}
