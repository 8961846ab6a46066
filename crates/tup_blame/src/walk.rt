//! The reading of folders up to one.
use crate::noting::Noting;
use std::alloc::Global;
use tup_path::Path;
use tup_query::{ParseFault, ReadEnd};
use tup_readings::{Asked, Sources, Stop, Work};
use tup_rule::{Kind, Reading};
use tup_site::Site;
use tup_tupfile::read_tupfile;
use tup_vars::Config;

/// What came of a reading.
#[derive(Drop)]
pub(crate) enum Came {
    Read(Reading),
    /// It waits for the reading of this folder.
    Waits(Path),
    /// It has this fault; what stands at the path was asked last, if that was asked of any, and this was told.
    Faulty(ParseFault, Option<(Path, Kind)>),
    /// It can't be told.
    Unknown,
}

/// Reads a folder over the readings so far. At these paths something else is told to stand than does.
pub(crate) fn read<S: Site>(
    alloc: Global,
    site: &mut S,
    sources: &Sources<'_>,
    settings: &Config,
    work: &Work,
    dir: &Path,
    passed: &[Path],
    instead: Kind,
) -> Came {
    let mut noting = Noting {
        by: Asked {
            sources,
            settings,
            readings: &work.readings,
            reader: dir,
            stop: None,
        },
        site,
        passed,
        instead,
        last: None,
    };
    let ended = read_tupfile(alloc, dir, &mut noting);
    let Noting { by, last, .. } = noting;
    match ended {
        Ok(reading) => Came::Read(reading),
        Err(ReadEnd::Fault(fault)) => Came::Faulty(fault, last),
        Err(ReadEnd::Stopped) => waits(by.stop),
        Err(ReadEnd::Memory) => Came::Unknown,
    }
}

/// What has come of a reading that stopped for this reason.
fn waits(stop: Option<Stop>) -> Came {
    match stop {
        Some(Stop::Awaits(next)) => Came::Waits(next),
        _ => Came::Unknown,
    }
}

/// Reads folders, in the order in which they are read, until one has a fault. Returns its path, or nothing where that can't be told.
pub(crate) fn first_faulty<S: Site>(
    alloc: Global,
    site: &mut S,
    sources: &Sources<'_>,
    settings: &Config,
    work: &mut Work,
) -> Option<Path> {
    for _ in 0..u32::MAX {
        let Ok(Some(dir)) = work.next() else {
            return None;
        };
        match read(
            alloc,
            site,
            sources,
            settings,
            work,
            &dir,
            &[],
            Kind::Nothing,
        ) {
            Came::Read(reading) => work.note(alloc, dir, reading).ok()?,
            Came::Waits(next) => work.wait(alloc, next).ok()?,
            Came::Faulty(..) => return Some(dir),
            Came::Unknown => return None,
        }
    }
    None
}
