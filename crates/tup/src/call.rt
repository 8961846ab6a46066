//! A call over the files of a project, carried out by a crew.
ghost use Rattle.std.specs.Prelude.{◌≡◌};
ghost use Rattle.tup_top.specs.Crew.{IsCrew};

use crate::crew::{Seats, crew_of, minis, since_1970, starters};
use crate::error_log::ErrorLog;
use crate::options::Voice;
use crate::output::{Counts, Lines, Output};
use crate::screen::ErrorScreen;
use crate::top::Top;
use crate::{blame, hint, stages, told, usage};
use std::alloc::{AllocError, Global};
use std::io::IsTerminal;
use std::rt::Clock;
use std::sync::Wait;
use std::thread::Threads;
use std::time::Duration;
use tup_fs::{FsSite, OnceSite, QUIET_SECONDS, Syncs};
use tup_path::Text;
use tup_proc_runner::{ProcFault, ProcRunner};
use tup_progress::{Manner, Progress, Started};
use tup_runner::Runner;
use tup_tell::LineReporter;
use tup_top::{Order, Status, Word, order_of, tup};

/// What a call is about.
#[derive(Drop)]
pub(crate) struct Call<'a> {
    pub(crate) words: &'a [Word],
    pub(crate) top: &'a Top,
    pub(crate) syncs: Syncs,
    /// Whether each file is read, whatever `.tup/stamps` says of it.
    pub(crate) digests: bool,
    pub(crate) manner: Manner,
    pub(crate) voice: Option<Voice>,
}

/// Has a crew of so many that run the small commands carry out a call.
pub(crate) fn run_by_minis<W: Threads + Wait + Sync>(
    rt: HostRuntime,
    crews: &W,
    alloc: Global,
    call: &Call,
    jobs: u32,
) -> Status {
    match minis(alloc, jobs) {
        Ok(runners) => run(rt, crews, alloc, call, None, runners).0,
        Err(_) => no_memory(rt),
    }
}

/// Has a crew of these runners carry out a call; gives how it ended, and the runners back.
fn run<W: Threads + Wait + Sync, R: Runner + Send>(
    rt: HostRuntime,
    crews: &W,
    alloc: Global,
    call: &Call,
    seats: Option<&Seats>,
    runners: Vec<R>,
) -> (Status, Vec<R>)
    requires { IsCrew runners.items }
{
    let Ok(mut site) = FsSite::new(rt, alloc, call.top.root.as_str(), call.syncs) else {
        return (no_memory(rt), runners);
    };
    if !call.digests {
        note_stamps(rt, &mut site);
    }
    let Ok(back) = Vec::with_capacity(alloc, runners.len()) else {
        return (no_memory(rt), runners);
    };
    let started = Started::new();
    match crew_of(rt, alloc, call.manner, &started, seats, runners) {
        Ok(crew) => run_crew(
            rt,
            crews,
            alloc,
            call,
            OnceSite::new(site),
            crew,
            &started,
            back,
        ),
        Err(_) => (no_memory(rt), back),
    }
}

/// Has a site keep the stamps of files in `.tup/stamps`. Without a clock it doesn't.
fn note_stamps(rt: HostRuntime, site: &mut FsSite<HostRuntime>) {
    if let Ok(now) = rt.since_1970() {
        site.keep_stamps(now, QUIET_SECONDS);
    }
}

/// Has a crew carry out a call over a site; gives how it ended, and the runners back in what has room for them.
fn run_crew<W: Threads + Wait + Sync, R: Runner + Send>(
    rt: HostRuntime,
    crews: &W,
    alloc: Global,
    call: &Call,
    site: OnceSite<HostRuntime>,
    crew: Vec<Progress<R, ErrorScreen>>,
    started: &Started,
    mut back: Vec<R>,
) -> (Status, Vec<R>)
    requires { IsCrew crew.items }
{
    let began = since_1970(&rt);
    let lines = lines_of(rt, call);
    let mut output = output_of(&rt, alloc, call, lines);
    let Ok(mut tellers) = log_of(rt, alloc, call) else {
        return (no_memory(rt), back);
    };
    let threads = crew.len();
    let ran = tup(
        crews,
        alloc,
        call.words,
        site,
        crew,
        started,
        &mut tellers,
        &mut output,
    );
    let (status, mut site, crew) = (ran.status, ran.site, ran.crew);
    let is_lost = site.finish(crews, threads).is_err();
    let status = ended(rt, status, is_lost, &mut output);
    if lines == Lines::Short {
        tell_counts(rt, &status, output.counts, began);
    }
    if let Some(failure) = site.last() {
        // Words that can't be printed change nothing: the exit number says as much.
        drop(eprintln!(rt; "tup: {failure}"));
    }
    hint::begin(rt, call.top, &status);
    hint::begin_anew(rt, alloc, call.top, &status);
    blame::explain(rt, alloc, call.top, &mut site, &status);
    usage::explain(rt, call.words, &status);
    tell_strange(rt, &site);
    if let Ok(Order::Upd { .. }) = order_of(call.words) {
        site.take_emptied();
    }
    site.leave();
    for progress in crew {
        // Without room it is dropped.
        drop(back.push(progress.into_runner()));
    }
    (status, back)
}

/// Standard output, whose lines wait until all is durable where the project syncs once.
fn output_of<'a>(
    rt: &'a HostRuntime,
    alloc: Global,
    call: &Call,
    lines: Lines,
) -> Output<'a, HostRuntime>
    ensures { result.faults ≡ 0 }
{
    let output = Output::new(rt, call.manner == Manner::Over, lines);
    match call.syncs {
        Syncs::Once => output.waiting(alloc),
        _ => output,
    }
}

/// Prints what waited until all was durable; gives how the call ended. Where that failed, it is as if the site had failed before.
fn ended<P: Print + Eprint>(
    rt: HostRuntime,
    status: Status,
    is_lost: bool,
    output: &mut Output<'_, P>,
) -> Status {
    let is_printed = output.print(is_lost).is_ok();
    if is_lost {
        told(&rt, Status::SiteFault);
        return Status::SiteFault;
    }
    match status {
        Status::Done { .. } if !is_printed => Status::SinkFault,
        status => status,
    }
}

/// Names the first place where no file was found because something else is there.
fn tell_strange(rt: HostRuntime, site: &OnceSite<HostRuntime>) {
    if let Some(place) = site.strange() {
        // Words that can't be printed change nothing.
        drop(eprintln!(rt;
            "tup: {place}: a pipe, a socket or a device stands here, and counts as no file"
        ));
    }
}

/// How standard output takes the lines of a call: at a terminal where each command was shown, only those that say more.
fn lines_of(rt: HostRuntime, call: &Call) -> Lines {
    let is_shown = call.manner == Manner::Over && rt.stdout().is_terminal();
    match order_of(call.words) {
        Ok(Order::Upd { explain: false, .. }) if is_shown => Lines::Short,
        _ => Lines::All,
    }
}

/// Tells how many commands were run, and how long that took, where any were.
fn tell_counts(rt: HostRuntime, status: &Status, counts: Counts, began: Duration) {
    let Counts { good, bad } = counts;
    let seconds = since_1970(&rt).saturating_sub(began).as_secs();
    // Words that can't be printed change nothing.
    drop(match status {
        _ if bad > 0 => eprintln!(rt; "tup: {bad} failed, {good} ran, {seconds} s"),
        Status::Done { ran, removed, .. } if *ran > 0 || *removed > 0 => {
            eprintln!(rt; "tup: {ran} commands, {removed} removed, {seconds} s")
        }
        _ => Ok(()),
    });
}

/// Who writes what an update did to standard error, where the words ask for that.
fn log_of(
    rt: HostRuntime,
    alloc: Global,
    call: &Call,
) -> Result<Vec<LineReporter<ErrorLog>>, AllocError> {
    let mut tellers = Vec::new(alloc);
    if let Ok(Order::Upd { log: true, .. }) = order_of(call.words) {
        let log = ErrorLog::new(rt, call.manner == Manner::Over);
        tellers.push(LineReporter::new(alloc, log))?;
    }
    Ok(tellers)
}

/// Prints that there was no memory.
fn no_memory(rt: HostRuntime) -> Status {
    told(&rt, Status::Memory);
    Status::Memory
}

/// Has a crew of so many that start this program for each command carry out a call; gives the exit number.
pub(crate) fn run_through<W: Threads + Wait + Sync>(
    rt: HostRuntime,
    crews: &W,
    alloc: Global,
    call: &Call,
    program: &Text,
    jobs: u32,
) -> u8 {
    let Ok(seats) = Seats::new(rt, alloc, call.top, jobs, call.voice) else {
        return told(&rt, Status::Memory);
    };
    let Ok(runners) = starters(rt, alloc, call.top, program, &seats, jobs) else {
        return told(&rt, Status::Memory);
    };
    if let Err(status) = stages::check(rt, alloc, call.top) {
        return status;
    }
    let (status, runners) = run(rt, crews, alloc, call, Some(&seats), runners);
    tell_faults(rt, program, &runners);
    leave(alloc, runners.as_slice());
    hint::name_folder(rt, &status);
    status.exit()
}

/// Removes what the last commands left. Behind a fault all stays: whoever looks for the cause finds it there.
fn leave(alloc: Global, runners: &[ProcRunner<HostRuntime>]) {
    if runners.iter().all(|runner| runner.last().is_none()) {
        for runner in runners {
            runner.leave(alloc);
        }
    }
}

/// Prints why the runners of a program failed, unless the program said it. What is to be said of several, one after another, is
/// printed once.
fn tell_faults(rt: HostRuntime, program: &Text, runners: &[ProcRunner<HostRuntime>]) {
    let mut before = None;
    for runner in runners {
        if let Some(fault) = runner.last() {
            if before != Some(fault) && *fault != ProcFault::Told {
                // Words that can't be printed change nothing: the exit number says as much.
                drop(eprintln!(rt; "tup: {program}: {fault}"));
            }
            before = Some(fault);
        }
    }
}
