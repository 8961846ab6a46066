//! What is found of one folder.
ghost use Rattle.std.specs.Prelude.{◌≡◌, Ok, Some, IsTrue, IfOk};
ghost use Rattle.std.specs.Option.{option_copied};
ghost use Rattle.tup_path.specs.Tree.{Tree};
ghost use Rattle.tup_readings.specs.Sources.{has_tupfile};
ghost use Rattle.tup_rule.specs.declared.question.Reading.{Reading as ReadingValue};
ghost use Rattle.tup_refresh.specs.Found.{HasFound, HasRead, IsLack, come_of, come_of_halt};
ghost use Rattle.tup_refresh.specs.Part.{IsPart};
ghost use Rattle.tup_refresh.specs.Refresh.{IsTrueBeside, kept_reading};
ghost use Rattle.tup_refresh.specs.Standing.{HasCompared};

use crate::asking::{Asking, Halt};
use crate::part::Part;
use crate::standing::all_stand;
use std::alloc::Global;
use tup_graph::Nodes;
use tup_path::Path;
use tup_query::ReadEnd;
use tup_readings::{Asked, Done, FoldersFault, Stop};
use tup_rule::Reading;
use tup_tupfile::read_tupfile;
use tup_vars::Config;

/// What is found of a folder.
#[derive(Drop)]
pub(crate) enum Found {
    /// This reading, which was kept, stands.
    Stands(Reading),
    /// It was read.
    Read(Reading),
    /// It waits for the reading of this folder.
    Waits(Path),
    /// It needs the content of this source.
    Lacks(Path),
}

/// Finds the reading of a folder, which has a Tupfile, over the readings so far: the kept one where
/// it stands; else the folder is read.
pub(crate) fn find(
    alloc: Global,
    nodes: &Nodes,
    part: &Part<'_, '_>,
    settings: &Config,
    readings: &Done,
    dir: &Path,
) -> Result<Found, FoldersFault>
    ensures found { (sources : Tree) → IsPart sources part.now
        → IsTrue (has_tupfile sources dir.now)
        → ((left : ReadingValue) → kept_reading nodes.now dir.now ≡ Some left
        → IsTrueBeside sources dir.now left)
        → HasFound sources settings.now readings.now dir.now
        (kept_reading nodes.now dir.now) result }
    ensures lacks { IfOk result (IsLack part.now.fetched.now) }
{
    match kept(nodes, dir) {
        Some(reading) => find_again(alloc, part, settings, readings, dir, reading),
        None => read_anew(alloc, part, settings, readings, dir),
    }
}

/// The reading that is kept of a folder and may stand: the folder isn't flagged.
fn kept<'n>(nodes: &'n Nodes, dir: &Path) -> Option<&'n Reading>
    ensures { option_copied result ≡ kept_reading nodes.now dir.now }
{
    if nodes.is_created(dir) {
        return None;
    }
    nodes.reading(dir)
}

/// Finds the reading of a folder of which one is kept that may stand.
fn find_again(
    alloc: Global,
    part: &Part<'_, '_>,
    settings: &Config,
    readings: &Done,
    dir: &Path,
    reading: &Reading,
) -> Result<Found, FoldersFault>
    ensures found { (sources : Tree) → IsPart sources part.now
        → IsTrue (has_tupfile sources dir.now)
        → IsTrueBeside sources dir.now reading.now
        → HasFound sources settings.now readings.now dir.now (Some reading.now) result }
    ensures lacks { IfOk result (IsLack part.now.fetched.now) }
{
    let asked = Asked {
        sources: part.outline,
        settings,
        readings,
        reader: dir,
        stop: None,
    };
    match all_stand(alloc, &asked, part.nodes, reading.asked.as_slice()) {
        Ok(stands) => find_compared(alloc, part, settings, readings, dir, reading, stands),
        Err(stop) => stopped(stop),
    }
}

/// The same, where it is known whether all that the kept reading was told stands.
fn find_compared(
    alloc: Global,
    part: &Part<'_, '_>,
    settings: &Config,
    readings: &Done,
    dir: &Path,
    reading: &Reading,
    stands: bool,
) -> Result<Found, FoldersFault>
    ensures found { (sources : Tree) → IsPart sources part.now
        → IsTrue (has_tupfile sources dir.now)
        → IsTrueBeside sources dir.now reading.now
        → HasCompared sources settings.now readings.now dir.now reading.now.asked (Ok stands)
        → HasFound sources settings.now readings.now dir.now (Some reading.now) result }
    ensures lacks { IfOk result (IsLack part.now.fetched.now) }
{
    if stands {
        return Ok(Found::Stands(reading.clone()?));
    }
    read_anew(alloc, part, settings, readings, dir)
}

/// What has come of a comparing that stopped for this reason.
fn stopped(stop: Stop) -> Result<Found, FoldersFault>
    ensures { result ≡ come_of stop }
{
    match stop {
        Stop::Awaits(next) => Ok(Found::Waits(next)),
        Stop::Memory => Err(FoldersFault::Memory),
    }
}

/// Reads a folder.
fn read_anew(
    alloc: Global,
    part: &Part<'_, '_>,
    settings: &Config,
    readings: &Done,
    dir: &Path,
) -> Result<Found, FoldersFault>
    ensures found { (sources : Tree) → IsPart sources part.now
        → IsTrue (has_tupfile sources dir.now)
        → HasRead sources settings.now readings.now dir.now result }
    ensures lacks { IfOk result (IsLack part.now.fetched.now) }
{
    let mut asking = Asking {
        asked: Asked {
            sources: part.outline,
            settings,
            readings,
            reader: dir,
            stop: None,
        },
        fetched: part.fetched,
        halt: None,
    };
    match read_tupfile(alloc, dir, &mut asking) {
        Ok(reading) => Ok(Found::Read(reading)),
        Err(ReadEnd::Fault(fault)) => Err(FoldersFault::Parse(fault)),
        Err(ReadEnd::Memory) => Err(FoldersFault::Memory),
        Err(ReadEnd::Stopped) => halted(asking.halt),
    }
}

/// What has come of a reading that halted for this reason.
fn halted(halt: Option<Halt>) -> Result<Found, FoldersFault>
    ensures { result ≡ come_of_halt halt }
{
    match halt {
        Some(Halt::Lacks(path)) => Ok(Found::Lacks(path)),
        Some(Halt::Awaits(next)) => Ok(Found::Waits(next)),
        _ => Err(FoldersFault::Memory),
    }
}
