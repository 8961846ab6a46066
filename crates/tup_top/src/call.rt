//! The top call.
ghost use Rattle.std.specs.Prelude.{◌≡◌, [], IsTrue, drop, length, map, take};
ghost use Rattle.std.specs.Result.{result_err};
ghost use Rattle.tup_site.specs.Crash.{GoesOn};
ghost use Rattle.tup_table.specs.Images.{OpenStep};
ghost use Rattle.tup_law_phases.specs.Language.{tupfiles};
ghost use Rattle.tup_law_site.specs.Over.{IsKeptNow};
ghost use Rattle.tup_ledger.specs.Begin.{Begins};
ghost use Rattle.tup_promise.specs.Blamed.{IsToBlame};
ghost use Rattle.tup_promise.specs.Cause.{IsWithin};
ghost use Rattle.tup_promise.specs.Crashes.{SourcesAndCrashes, SourcesStay};
ghost use Rattle.tup_promise.specs.Finished.{IsSettled, ExactlyTheFiles};
ghost use Rattle.tup_promise.specs.Kept.{IsKeptBySome, KeptHere};
ghost use Rattle.tup_promise.specs.Needed.{OnlyWhatIsNeeded};
ghost use Rattle.tup_promise.specs.Ran.{CrewRuns};
ghost use Rattle.tup_promise.specs.States.{States};
ghost use Rattle.tup_promise.specs.Unopened.{IsReadable};
ghost use Rattle.tup_promise.specs.Users.{HasUsersFile, IsHeldUp};
ghost use Rattle.tup_compare.specs.Compared.{HasCompared};
ghost use Rattle.tup_compare.specs.Opened.{JustOpens};
ghost use Rattle.tup_update.specs.Full.{HasFullCause};
ghost use Rattle.tup_top.specs.Order.{BringsUp, IsTodo, IsUpdate, goes_on, order, used};
ghost use Rattle.tup_top.specs.Crew.{IsCrew, CrewCompares, NothingRun};
ghost use Rattle.tup_top.specs.Lines.{last_line as line_of};
ghost use Rattle.tup_top.specs.Printed.{Printed, Prints, SaysWhyOf};
ghost use Rattle.tup_top.specs.Promise.{FindsOut, ForUpdate, ForInit, ForTodo, ForVerify};
ghost use Rattle.tup_top.specs.Promise.{Lasts, Logs, NothingDone};
ghost use Rattle.tup_top.specs.Promise.{OnceDone, OpensStore, QuietStep, Spares};
ghost use Rattle.tup_top.specs.Promise.{HasPlainCause, IsRefusal, Initializes, Compares, counts};
ghost use Rattle.tup_top.specs.Success.{Lists, Succeeds};
ghost use Rattle.tup_top.specs.Telling.{Hears, TellsTodo, TellsUpdate};
ghost use Rattle.tup_top.specs.Truth.{IsTrueLog};
ghost use Rattle.tup_top.specs.declared.status.Status.TheVariants.{TellFault, Usage};

use crate::init::init;
use crate::order::{Order, OrderFault, Word, order_of};
use crate::parting::used;
use crate::print::tell;
use crate::status::Status;
use crate::telling::{Reported, nobody};
use crate::todo::todo;
use crate::update::{Ended, demo, update_by};
use crate::verify::verify;
use std::alloc::Global;
use std::sync::Wait;
use std::thread::Threads;
use tup_partial::flags_are_of_rules;
use tup_path::Items;
use tup_progress::Started;
use tup_rule::RuleName;
use tup_runner::Runner;
use tup_site::Site;
use tup_tell::{Reporter, Sink};
use tup_update::Asked;

/// How an order ended, with the site and the crew as it left them.
#[derive(Drop)]
pub struct Ran<S, R, T> {
    pub status: Status,
    pub site: S,
    /// The runners, in their order.
    pub crew: Vec<R>,
    /// The rules that were begun, in order.
    pub ran: Items<RuleName>,
    /// The reporters that failed, in their order.
    pub failed: Vec<T>,
}

/// Carries out what the words ask for, and prints its lines to `out` in one write.
///
/// `init` makes the store of a project where there is none. No words, or `upd`, update the files of
/// the site; the runners of the crew run the commands, side by side, `-j` says how many of them, and
/// `-k` goes on after a bad command with the rules that don't need it. `todo` lists what an update
/// would remove and run, and changes no file. `verify` has the first runner run those of a clean build
/// beside them, and touches no file. `demo` shows an update of a small project in memory, and leaves
/// site and crew alone. Other words are refused by the place of the first that can't stand there. A
/// crew has 1 to 16 runners. An update tells `started` how many commands it will run, before the first.
///
/// An update tells the reporters what it did, each of them all events in their order, before it
/// prints its lines; `todo` tells them which folders it read. A reporter that fails is told no more
/// and moves from `tellers` to `failed`.
pub fn tup<W: Threads + Wait + Sync, S: Site + Send, R: Runner + Send, T: Reporter, K: Sink>(
    rt: &W,
    alloc: Global,
    words: &[Word],
    site: S,
    crew: Vec<R>,
    started: &Started,
    tellers: &mut Vec<T>,
    out: &mut K,
) -> Ran<S, R, T>
    requires crew { IsCrew crew.items }
    // An update of a store that is empty, or damaged, tells so and does nothing; every other store
    // was read, unless the outside stopped that.
    ensures opens_store { IsTrue S.tells → let old = S.world site in
        let new = S.world result.site in
        ForUpdate (order words.now) result.status (OpensStore old new result.ran) }
    // Where it wasn't, a crash leaves no more than what was, or an opening of the store.
    ensures closed { IsTrue S.tells → BringsUp (order words.now)
        → (IsReadable (S.world site).store → ⊥)
        → GoesOn S.moment S.left_since site result.site OpenStep }
    // And where the sources have a fault, or a file of the user's stands in the way, no file is
    // touched.
    ensures spares { IsTrue S.tells → let old = S.world site in
        let new = S.world result.site in
        ForUpdate (order words.now) result.status (Spares old new) }
    // An update that comes to its rules finds no more files than may be, and none too large.
    ensures limits { IsTrue S.tells
        → ForUpdate (order words.now) result.status (IsWithin (S.world site)) }
    // Nothing is begun before the sources are read. Where nothing stops it, each rule that is begun
    // comes to its end; those that don't were cut off, and with one runner they are the last.
    ensures logged { let jobs = used (order words.now) (length crew.items) in
        ForUpdate (order words.now) result.status
        (Logs jobs (goes_on (order words.now)) result.ran) }
    // Finding out what an update would do tells how it went on from the store, too. Over a kept site
    // a blame of the sources is true, a store that is said to be full is, and no more is to be run
    // then than was due.
    ensures found_out { IsTrue S.tells → let old = S.world site in
        let kept = IsKeptBySome S.Site.own site in
        ForTodo (order words.now) result.status (FindsOut kept old (S.world result.site)) }
    // Any other order adds no more than a beginning, or a comparison's opening of the store.
    ensures quiet { IsTrue S.tells → (BringsUp (order words.now) → ⊥)
        → let step = QuietStep (order words.now) (S.world site) in
        GoesOn S.moment S.left_since site result.site step }
    ensures nothing_done { IsTrue S.tells
        → NothingDone (order words.now) (S.world site) (S.world result.site) }
    ensures known { IsTrue S.tells → (IsUpdate (order words.now) → ⊥)
        → S.known result.site ≡ S.known site }
    // An update over a kept site, where site and runner tell: where it is done the files are exactly
    // those of a clean build. Whatever it answers it runs rules only where they were due, and each
    // once, loses no source whenever a crash comes, and leaves the site kept; a blame is true.
    ensures exactly_the_files { KeptHere S.Site.own R.Runner.own site
        → let old = S.world site in let new = S.world result.site in
        ForUpdate (order words.now) result.status (ExactlyTheFiles R.next old new) }
    ensures only_what_is_needed { KeptHere S.Site.own R.Runner.own site
        → let old = S.world site in let new = S.world result.site in
        let jobs = used (order words.now) (length crew.items) in
        ForUpdate (order words.now) result.status
        (OnlyWhatIsNeeded R.next (goes_on (order words.now)) jobs old new result.ran) }
    ensures blamed { KeptHere S.Site.own R.Runner.own site
        → let old = S.world site in let new = S.world result.site in
        ForUpdate (order words.now) result.status (IsToBlame R.next old new result.ran) }
    // Where it is told that the store is full, there is no room in it: as it is left where no command
    // was run, and else as a crash since the beginning may leave it, for what such a command comes to.
    ensures full { KeptHere S.Site.own R.Runner.own site → ForUpdate (order words.now)
        result.status (HasFullCause S.Site.own R.next site result.site result.ran) }
    ensures settled { KeptHere S.Site.own R.Runner.own site
        → ForUpdate (order words.now) result.status (OnceDone (IsSettled S.Site.own result.site)) }
    ensures sources_and_crashes { KeptHere S.Site.own R.Runner.own site
        → BringsUp (order words.now)
        → SourcesAndCrashes S.Site.own R.next site result.site }
    ensures states { KeptHere S.Site.own R.Runner.own site
        → BringsUp (order words.now)
        → States R.next (S.world site) (S.world result.site) }
    ensures kept { KeptHere S.Site.own R.Runner.own site
        → BringsUp (order words.now)
        → let known = S.known result.site in
        IsKeptNow S.Site.own R.next tupfiles known result.site }
    // And its sources stay, whatever the runner is.
    ensures sources_stay { IsTrue S.tells → IsKeptBySome S.Site.own site
        → BringsUp (order words.now)
        → SourcesStay S.Site.own site result.site }
    // Nor is a file of the user's touched at a path that no rule makes: it holds the update up.
    ensures users { IsTrue S.tells → IsKeptBySome S.Site.own site → HasUsersFile (S.world site)
        → ForUpdate (order words.now) result.status
        (IsHeldUp S.Site.own site result.site result.ran) }
    // Where nothing stands in its way and nothing fails, it is done, unless there was no memory or no room in
    // the store. So is finding out what it would do, whatever the runner is.
    ensures success { KeptHere S.Site.own R.Runner.own site
        → let before = counts S.faults R.faults K.faults site crew.items out.old in
        let now = counts S.faults R.faults K.faults result.site result.crew.items out.new in
        Succeeds (order words.now) S.Site.own R.next site result.site before now
        (result.failed.items ≡ []) result.status }
    ensures lists { IsTrue S.tells → IsKeptBySome S.Site.own site
        → let before = counts S.faults R.faults K.faults site crew.items out.old in
        let now = counts S.faults R.faults K.faults result.site result.crew.items out.new in
        Lists (order words.now) (S.world site) (S.world result.site) before now
        (result.failed.items ≡ []) result.status }
    ensures crew { length result.crew.items ≡ length crew.items }
    // All runners behind those that are used are as they were.
    ensures others { let jobs = used (order words.now) (length crew.items) in
        drop jobs result.crew.items ≡ drop jobs crew.items }
    ensures nothing_run { NothingRun (order words.now) crew.items result.crew.items result.ran }
    ensures ran { IsTrue R.tells_ran
        → let jobs = used (order words.now) (length crew.items) in
        ForUpdate (order words.now) result.status
        (CrewRuns result.ran (map R.ran (take jobs crew.items))
        (map R.ran (take jobs result.crew.items))) }
    ensures plain_cause { let before = counts S.faults R.faults K.faults site crew.items out.old in
        let now = counts S.faults R.faults K.faults result.site result.crew.items out.new in
        HasPlainCause (order words.now) before now result.status }
    // A project begins where there is no store; one that is there stays, with all that it owns.
    ensures begins { IsTrue S.tells → let old = S.world site in
        ForInit (order words.now) result.status (Begins old (S.world result.site)) }
    ensures lasts { IsTrue S.tells → let left = S.left_since result.site (S.moment result.site) in
        ForInit (order words.now) result.status (Lasts left (S.world result.site)) }
    ensures initializes { IsTrue S.tells
        → let before = counts S.faults R.faults K.faults site crew.items out.old in
        let now = counts S.faults R.faults K.faults result.site result.crew.items out.new in
        Initializes (order words.now) (S.world site) before now result.status }
    // A comparison writes nothing but the end of the store, where no gate stood.
    ensures opens { IsTrue S.tells → let old = S.world site in let new = S.world result.site in
        ForVerify (order words.now) result.status
        (λ compared. JustOpens old.store new.store (result_err compared)) }
    ensures compared { IsTrue S.tells → IsTrue R.tells
        → ForVerify (order words.now) result.status (HasCompared R.next (S.world site)) }
    ensures compared_ran { IsTrue S.tells → IsTrue R.tells → IsTrue R.tells_ran
        → ForVerify (order words.now) result.status
        (CrewCompares R.next (S.world site) (map R.ran crew.items) (map R.ran result.crew.items)) }
    ensures compares { IsTrue S.tells → IsTrue R.tells
        → let before = counts S.faults R.faults K.faults site crew.items out.old in
        let now = counts S.faults R.faults K.faults result.site result.crew.items out.new in
        Compares (order words.now) (S.world site) before now result.status }
    // What is printed, over every site and by every runner, by what these tell.
    ensures printed { IsTrue K.tells
        → let before = K.faults out.old in let now = K.faults out.new in
        let old = S.world site in let new = S.world result.site in
        let kept = IsTrue S.tells × IsKeptBySome S.Site.own site in
        let says = SaysWhyOf S.Site.own site in
        let holds = IsTrueLog S.Site.own R.Runner.own site new in
        let jobs = used (order words.now) (length crew.items) in
        let hears = Hears T.told T.faults tellers.old.items tellers.new.items result.failed.items in
        Printed jobs S.tells R.tells kept says holds hears (order words.now) R.next old new
        result.ran before now (K.held out.old) (K.held out.new) result.status }
    // What reporters were told of an update, or of finding out what it would do, wherever its lines
    // went. A reporter is blamed only where one failed, and any other order leaves them as they were.
    ensures tells { IsUpdate (order words.now)
        → let before = K.faults out.old in let now = K.faults out.new in
        let old = S.world site in let new = S.world result.site in
        let jobs = used (order words.now) (length crew.items) in
        let holds = IsTrueLog S.Site.own R.Runner.own site new in
        let hears = Hears T.told T.faults tellers.old.items tellers.new.items result.failed.items in
        TellsUpdate jobs S.tells (goes_on (order words.now)) holds hears old new result.ran
        before now result.status }
    ensures tells_todo { IsTodo (order words.now)
        → let before = K.faults out.old in let now = K.faults out.new in
        let old = S.world site in let new = S.world result.site in
        let kept = IsTrue S.tells × IsKeptBySome S.Site.own site in
        let hears = Hears T.told T.faults tellers.old.items tellers.new.items result.failed.items in
        TellsTodo kept hears old new before now result.status }
    ensures blamed_reporter { result.status ≡ TellFault → result.failed.items ≡ [] → ⊥ }
    ensures untold { (BringsUp (order words.now) → ⊥) → tellers.new ≡ tellers.old }
    ensures none_failed { (BringsUp (order words.now) → ⊥) → result.failed.items ≡ [] }
{
    flags_are_of_rules();
    match order_of(words) {
        Ok(
            Order::Upd {
                keep_going,
                explain,
                jobs,
                ..
            },
        ) => {
            let asked = Asked {
                keep_going,
                explain,
            };
            let jobs = used(jobs, crew.len());
            let Ended {
                status,
                site,
                crew,
                ran,
                failed,
            } = update_by(rt, alloc, site, crew, jobs, asked, started, tellers, out);
            Ran {
                status,
                site,
                crew,
                ran,
                failed,
            }
        }
        Ok(Order::Init) => {
            let mut site = site;
            let status = init(alloc, &mut site, out);
            Ran {
                status,
                site,
                crew,
                ran: Items::new(alloc),
                failed: nobody(alloc),
            }
        }
        Ok(Order::Todo) => {
            let mut site = site;
            let Reported { status, failed } = todo(rt, alloc, &mut site, crew.len(), tellers, out);
            Ran {
                status,
                site,
                crew,
                ran: Items::new(alloc),
                failed,
            }
        }
        Ok(Order::Verify) => {
            let mut site = site;
            let mut crew = crew;
            let status = verify(alloc, &mut site, &mut crew[0], out);
            Ran {
                status,
                site,
                crew,
                ran: Items::new(alloc),
                failed: nobody(alloc),
            }
        }
        Ok(Order::Demo) => Ran {
            status: demo(rt, alloc, out),
            site,
            crew,
            ran: Items::new(alloc),
            failed: nobody(alloc),
        },
        Err(OrderFault::Usage { place }) => Ran {
            status: refuse(alloc, place, out),
            site,
            crew,
            ran: Items::new(alloc),
            failed: nobody(alloc),
        },
        Err(OrderFault::Memory) => Ran {
            status: Status::Memory,
            site,
            crew,
            ran: Items::new(alloc),
            failed: nobody(alloc),
        },
    }
}

/// Prints the line of a word that can't stand where it stands.
fn refuse<K: Sink>(alloc: Global, place: u32, out: &mut K) -> Status
    ensures cause { IsRefusal place result }
    ensures printed { IsTrue K.tells
        → let before = K.faults out.old in let now = K.faults out.new in
        Prints (Usage place) (line_of (Usage place)) before now (K.held out.old) (K.held out.new)
        result }
{
    tell(alloc, Status::Usage { place }, out)
}
