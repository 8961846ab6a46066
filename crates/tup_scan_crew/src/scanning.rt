//! The scan itself.
ghost use Rattle.std.specs.Prelude.{◌≡◌, ◌≤◌, map, length, All, IsTrue, IfOk, OnOk};
ghost use Rattle.tup_site.specs.Crash.{GoesOn, NoStep};
ghost use Rattle.tup_scan.specs.Cause.{CountsFaults, IsAbove, IsOf, IsSmallAt, IsWithinLimits, TellsManyFirst};
ghost use Rattle.tup_scan.specs.Seen as specs;
ghost use Rattle.tup_scan.specs.Seen.{AreFiles, AreStamped, IsSeen};
ghost use Rattle.tup_scan_crew.specs.Batch.{IsReadAt};

use crate::batch::{Batch, File};
use std::alloc::{AllocError, Global};
use std::thread::Threads;
use tup_path::Path;
use tup_scan::{Pulse, ScanFault, Seen, Stamps, has_room};
use tup_site::Site;
use tup_stamp::Stamp;

/// What the tree of a site holds, as `scan` of `tup_scan` gives it, digested in up to so many threads.
///
/// A file whose stamp the site tells isn't read, and the pulse isn't told of it. The others are read on the thread that
/// calls, at most 1,024 files before they are digested, and none once there are 16,777,216 bytes. Where there are few bytes,
/// that thread digests them itself. The pulse is told of each file before it is digested, on the thread that does so.
pub fn scan_by<W: Threads + Sync, S: Site, P: Pulse>(
    rt: &W,
    alloc: Global,
    site: &mut S,
    pulse: &P,
    workers: usize,
) -> Result<Seen, ScanFault>
    ensures seen { IsTrue S.tells → IfOk result (IsSeen (S.world site.old).tree) }
    ensures few { IfOk result (λ seen. length seen.files ≤ 1048576) }
    ensures within { IsTrue S.tells → IfOk result (λ seen. IsWithinLimits (S.world site.old).tree) }

    ensures above { IsAbove result }
    ensures named { IsTrue S.tells → IsOf (S.world site.old).tree result }
    ensures first { IsTrue S.tells → TellsManyFirst (S.world site.old).tree result }
    ensures cause { CountsFaults (S.faults site.old) (S.faults site.new) result }

    ensures same { IsTrue S.tells → S.world site.new ≡ S.world site.old }
    ensures crash { IsTrue S.tells → GoesOn S.moment S.left_since site.old site.new NoStep }
    ensures known { IsTrue S.tells → S.known site.new ≡ S.known site.old }
{
    let paths = site.list(alloc)?;
    let found = paths.len() as u64;
    if !has_room(site, found) {
        return Err(ScanFault::TooManyFiles(found));
    }
    let files = stamps_of(rt, alloc, site, paths.into_vec(), pulse, workers)?;
    // Read behind its stamp: where somebody changes the file in between, the next scan sees another stamp.
    let config = site.get(alloc, &config_path(alloc)?)?;
    Ok(Seen { files, config })
}

/// The stamps of the files at these paths, in their order.
fn stamps_of<W: Threads + Sync, S: Site, P: Pulse>(
    rt: &W,
    alloc: Global,
    site: &mut S,
    paths: Vec<Path>,
    pulse: &P,
    workers: usize,
) -> Result<Stamps, ScanFault>
    requires few { length paths.items ≤ 1048576 }
    requires files { IsTrue S.tells → AreFiles (S.world site.old).tree paths.items }
    ensures paths { IsTrue S.tells → IfOk result (λ files. map (λ file. file.0) files ≡ paths.items) }
    ensures stamps { IsTrue S.tells → IfOk result (AreStamped (S.world site.old).tree) }
    ensures few { IfOk result (λ files. length files ≤ 1048576) }
    ensures small { IsTrue S.tells
        → OnOk result (All (IsSmallAt (S.world site.old).tree) paths.items) }

    ensures above { IsAbove result }
    ensures named { IsTrue S.tells → IsOf (S.world site.old).tree result }
    ensures cause { CountsFaults (S.faults site.old) (S.faults site.new) result }

    ensures same { IsTrue S.tells → S.world site.new ≡ S.world site.old }
    ensures crash { IsTrue S.tells → GoesOn S.moment S.left_since site.old site.new NoStep }
    ensures known { IsTrue S.tells → S.known site.new ≡ S.known site.old }
{
    let mut batch = Batch::new(alloc);
    let mut place = 0;
    for path in paths {
        if let Some(file) = noted_or_read(alloc, site, path, place)? {
            batch.add(rt, alloc, file, pulse, workers)?;
        }
        place += 1;
    }
    Ok(batch.finish(rt, alloc, pulse, workers)?)
}

/// The file at this path, the one at this place in the list: its stamp where the site tells it, else its content.
fn noted_or_read<S: Site>(
    alloc: Global,
    site: &mut S,
    path: Path,
    place: u32,
) -> Result<Option<File>, ScanFault>
    ensures read { IsTrue S.tells → IfOk result (IsReadAt (S.world site.old).tree path) }
    ensures small { IsTrue S.tells → OnOk result (IsSmallAt (S.world site.old).tree path) }

    ensures above { IsAbove result }
    ensures named { IsTrue S.tells → IsOf (S.world site.old).tree result }
    ensures cause { CountsFaults (S.faults site.old) (S.faults site.new) result }

    ensures same { IsTrue S.tells → S.world site.new ≡ S.world site.old }
    ensures crash { IsTrue S.tells → GoesOn S.moment S.left_since site.old site.new NoStep }
    ensures known { IsTrue S.tells → S.known site.new ≡ S.known site.old }
{
    let Some(stamp) = site.noted(alloc, &path)? else {
        return read(alloc, site, path, place);
    };
    Ok(Some(File {
        path,
        place,
        content: None,
        stamp,
    }))
}

/// The file at this path, the one at this place in the list, with its content.
fn read<S: Site>(
    alloc: Global,
    site: &mut S,
    path: Path,
    place: u32,
) -> Result<Option<File>, ScanFault>
    ensures read { IsTrue S.tells → IfOk result (IsReadAt (S.world site.old).tree path) }
    ensures small { IsTrue S.tells → OnOk result (IsSmallAt (S.world site.old).tree path) }

    ensures above { IsAbove result }
    ensures named { IsTrue S.tells → IsOf (S.world site.old).tree result }
    ensures cause { CountsFaults (S.faults site.old) (S.faults site.new) result }

    ensures same { IsTrue S.tells → S.world site.new ≡ S.world site.old }
    ensures crash { IsTrue S.tells → GoesOn S.moment S.left_since site.old site.new NoStep }
    ensures known { IsTrue S.tells → S.known site.new ≡ S.known site.old }
{
    let Some(content) = site.get(alloc, &path)? else {
        return Ok(None);
    };
    Ok(Some(File {
        path,
        place,
        content: Some(content),
        stamp: Stamp([0; 32]),
    }))
}

/// `tup.config` at the top.
fn config_path(alloc: Global) -> Result<Path, AllocError>
    ensures { IfOk result (λ path. path ≡ specs.config_path) }
{
    match Path::from_top(alloc, "tup.config") {
        Ok(path) => Ok(path),
        Err(_) => Err(AllocError),
    }
}
