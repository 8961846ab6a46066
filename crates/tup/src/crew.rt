//! The runners of an update.
ghost use Rattle.std.specs.Prelude.{IfOk};
ghost use Rattle.tup_top.specs.Crew.{IsCrew};

use crate::options::Voice;
use crate::screen::{ErrorScreen, Kept};
use crate::streams::was_closed;
use crate::top::Top;
use std::alloc::{AllocError, Global};
use std::process;
use std::rt::Clock;
use std::time::{Duration, SystemTime, UNIX_EPOCH};
use tup_mini::Mini;
use tup_path::Text;
use tup_proc_runner::{ProcRunner, Stages};
use tup_progress::{Manner, Progress, Started};
use tup_runner::Runner;

/// Where the programs that run commands find and leave their files.
const STAGES: &str = ".tup/stage";

/// So many runners of the small commands, from 1 to 16.
pub(crate) fn minis(alloc: Global, jobs: u32) -> Result<Vec<Mini>, AllocError>
    ensures { IfOk result (λ runners. IsCrew runners.items) }
{
    let jobs = jobs.min(16) as usize;
    let mut runners = vec![in alloc; Mini::new(alloc)]?;
    while runners.len() < jobs {
        runners.push(Mini::new(alloc))?;
    }
    Ok(runners)
}

/// The seats of the runners of an update whose commands are run by a program.
#[derive(Drop)]
pub(crate) struct Seats {
    /// Where the stages are.
    above: Text,
    /// The name of the update, which no other of the project has.
    update: Text,
    /// Whether what a command prints is kept until it has ended.
    keeps: bool,
}

impl Seats {
    /// Those of a new update of a project by so many runners. What commands print is kept where several may run at once, and where
    /// a stream was closed: else they would have none to print to.
    pub(crate) fn new(
        rt: HostRuntime,
        alloc: Global,
        top: &Top,
        jobs: u32,
        voice: Option<Voice>,
    ) -> Result<Seats, AllocError> {
        Ok(Seats {
            above: Text::from_string(top.place(alloc, STAGES)?),
            update: update_name(rt, alloc, voice)?,
            keeps: jobs > 1 || was_closed(rt),
        })
    }

    /// The stages of the runner of this number.
    fn stages(&self, seat: u32) -> Result<Stages, AllocError> {
        Ok(Stages {
            above: self.above.clone()?,
            update: self.update.clone()?,
            seat,
        })
    }

    /// Where what the commands of the runner of this number print is kept, if it is.
    fn kept(&self, alloc: Global, seat: u32) -> Result<Option<Text>, AllocError> {
        if self.keeps {
            Ok(Some(self.stages(seat)?.printed(alloc)?))
        } else {
            Ok(None)
        }
    }

    /// The screen of the runner of this number.
    fn screen(&self, rt: HostRuntime, alloc: Global, seat: u32) -> Result<ErrorScreen, AllocError> {
        let kept = match self.kept(alloc, seat)? {
            Some(place) => Some(Kept {
                place,
                turn: self.above.clone()?,
            }),
            None => None,
        };
        Ok(ErrorScreen::new(rt, alloc, kept))
    }
}

/// So many runners that start a program, from 1 to 16, each with stages of its own.
pub(crate) fn starters(
    rt: HostRuntime,
    alloc: Global,
    top: &Top,
    program: &Text,
    seats: &Seats,
    jobs: u32,
) -> Result<Vec<ProcRunner<HostRuntime>>, AllocError>
    ensures { IfOk result (λ runners. IsCrew runners.items) }
{
    let mut runners = vec![in alloc; starter(rt, alloc, top, program, seats, 0)?]?;
    for seat in 1..jobs.min(16) {
        runners.push(starter(rt, alloc, top, program, seats, seat)?)?;
    }
    Ok(runners)
}

/// The runner of this number that starts a program.
fn starter(
    rt: HostRuntime,
    alloc: Global,
    top: &Top,
    program: &Text,
    seats: &Seats,
    seat: u32,
) -> Result<ProcRunner<HostRuntime>, AllocError> {
    let root = Text::from_str(alloc, top.root.as_str())?;
    let stages = seats.stages(seat)?;
    let kept = seats.kept(alloc, seat)?;
    Ok(ProcRunner::new(rt, alloc, root, program.clone()?, stages, kept))
}

/// A name that no other update of the project has: the time at which it begins, and the number of its process. It says to the program
/// that runs commands whether the update is quiet.
fn update_name(rt: HostRuntime, alloc: Global, voice: Option<Voice>) -> Result<Text, AllocError> {
    let time = since_1970(&rt);
    let (seconds, nanos) = (time.as_secs(), time.subsec_nanos());
    let id = process::id(rt.process());
    let end = match voice {
        Some(Voice::Quiet) => ".quiet",
        Some(Voice::Verbose) | None => "",
    };
    Ok(Text::from_string(format!(in alloc; "{seconds}.{nanos}.{id}{end}")?))
}

/// The time since 1970, none where the clock doesn't tell.
pub(crate) fn since_1970(clock: &impl Clock) -> Duration {
    match SystemTime::now(clock) {
        Ok(now) => now.duration_since(UNIX_EPOCH).unwrap_or(Duration::ZERO),
        Err(_) => Duration::ZERO,
    }
}

/// The runners as a crew that shows what it runs, and what commands print, where that is kept at their seats.
pub(crate) fn crew_of<'a, R: Runner + Send>(
    rt: HostRuntime,
    alloc: Global,
    manner: Manner,
    started: &'a Started,
    seats: Option<&Seats>,
    mut runners: Vec<R>,
) -> Result<Vec<Progress<'a, R, ErrorScreen>>, AllocError>
    requires { IsCrew runners.items }
    ensures { IfOk result (λ crew. IsCrew crew.items) }
{
    let mut crew = Vec::new(alloc);
    while let Some(runner) = runners.pop() {
        let screen = screen_of(rt, alloc, seats, runners.len())?;
        crew.push(Progress::new(runner, screen, manner, started))?;
    }
    crew.reverse();
    Ok(crew)
}

/// The screen of the runner of this number.
fn screen_of(
    rt: HostRuntime,
    alloc: Global,
    seats: Option<&Seats>,
    seat: usize,
) -> Result<ErrorScreen, AllocError> {
    match (seats, u32::try_from(seat)) {
        (Some(seats), Ok(seat)) => seats.screen(rt, alloc, seat),
        _ => Ok(ErrorScreen::new(rt, alloc, None)),
    }
}
