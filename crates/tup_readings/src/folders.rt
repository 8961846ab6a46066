//! All folders of a project, each read once the folders are read that it asks about.
ghost use Rattle.std.specs.Prelude.{◌<◌, Err, Some, IsTrue, IfErr, OnOk};
ghost use Rattle.std.specs.FinMap as finite;
ghost use Rattle.tup_path.specs.Order.{by_names};
ghost use Rattle.tup_readings.specs.Readings.{IsOutcome, AreRead, AreSomeReadings};
ghost use Rattle.tup_readings.specs.Sources.{has_tupfile};
ghost use Rattle.tup_readings.specs.State.{IsWork, IsLast, HasCome, HasStopped, steps_left};

use crate::asked::{Asked, Stop};
use crate::config::settings;
use crate::done::Done;
use crate::fault::FoldersFault;
use crate::sources::Sources;
use crate::work::Work;
use std::alloc::Global;
use tup_path::{Files, Items, Path};
use tup_query::ReadEnd;
use tup_rule::Reading;
use tup_tupfile::read_tupfile;
use tup_vars::Config;

/// The readings of all folders that have a Tupfile, in the order of their paths. The sources stand
/// in that order too.
///
/// A fault of tup.config comes before anything is read. Else the folders are read in the order of
/// their paths, but one that another asks about before that one; the first `Parse` or `Circular`
/// that is met so is told. After a refusal nothing is left.
pub fn read_folders(alloc: Global, sources: &Files) -> Result<Items<(Path, Reading)>, FoldersFault>
    requires { IsTrue (finite.is_sorted by_names sources.now) }
    ensures { IsOutcome (finite.from_sorted sources.now) result }
{
    let sources = Sources::new(alloc, sources)?;
    match settings(alloc, &sources) {
        Ok(settings) => all_read(alloc, &sources, &settings),
        Err(fault) => Err(fault),
    }
}

/// The readings of all folders over these settings. No folder is begun more often than it waits for
/// another, and once more.
fn all_read(
    alloc: Global,
    sources: &Sources<'_>,
    settings: &Config,
) -> Result<Items<(Path, Reading)>, FoldersFault>
    ensures { AreRead sources.now settings.now result }
{
    let mut work = Work::new(alloc, sources)?;
    while let Some(dir) = work.next()? {
        advance(alloc, sources, settings, &mut work, dir)?;
    }
    Ok(work.readings.into_items(alloc)?)
}

/// Reads the last folder that was begun, as far as it goes.
fn advance(
    alloc: Global,
    sources: &Sources<'_>,
    settings: &Config,
    work: &mut Work,
    dir: Path,
) -> Result<(), FoldersFault>
    requires work { IsWork sources.now settings.now work.old }
    requires last { IsLast (Some dir) work.old }
    ensures work { OnOk result (IsWork sources.now settings.now work.new) }
    ensures fewer { OnOk result (steps_left work.new < steps_left work.old) }
    ensures fault { IfErr result (λ fault. AreRead sources.now settings.now (Err fault)) }
{
    match read(alloc, sources, settings, &work.readings, &dir) {
        Ok(Came::Read(reading)) => Ok(work.note(alloc, dir, reading)?),
        Ok(Came::Waits(next)) => work.wait(alloc, next),
        Err(fault) => Err(fault),
    }
}

/// What came of the reading of a folder.
#[derive(Drop)]
pub enum Came {
    /// It was read.
    Read(Reading),
    /// It waits for the reading of this folder.
    Waits(Path),
}

/// Reads a folder, which has a Tupfile, over the readings so far.
pub fn read(
    alloc: Global,
    sources: &Sources<'_>,
    settings: &Config,
    readings: &Done,
    reader: &Path,
) -> Result<Came, FoldersFault>
    ensures { IsTrue (has_tupfile sources.now reader.now)
        → HasCome sources.now settings.now readings.now reader.now result }
{
    let mut asked = Asked {
        sources,
        settings,
        readings,
        reader,
        stop: None,
    };
    match read_tupfile(alloc, reader, &mut asked) {
        Ok(reading) => Ok(Came::Read(reading)),
        Err(ReadEnd::Fault(fault)) => Err(FoldersFault::Parse(fault)),
        Err(ReadEnd::Memory) => Err(FoldersFault::Memory),
        Err(ReadEnd::Stopped) => stopped(asked.stop),
    }
}

/// What has come of a reading that stopped for this reason.
fn stopped(stop: Option<Stop>) -> Result<Came, FoldersFault>
    ensures { HasStopped stop result }
{
    match stop {
        Some(Stop::Awaits(next)) => Ok(Came::Waits(next)),
        _ => Err(FoldersFault::Memory),
    }
}
