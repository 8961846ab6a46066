//! The scan itself.
ghost use Rattle.std.specs.Prelude.{◌≡◌, ◌≤◌, map, length, option_map, All, IsTrue, IfOk, OnOk};
ghost use Rattle.std.specs.FinMap as finite;
ghost use Rattle.tup_site.specs.Crash.{GoesOn, NoStep};
ghost use Rattle.tup_stamp.specs.Stamp.{stamp};
ghost use Rattle.tup_scan.specs.Cause.{CountsFaults, IsAbove, IsOf, IsSmallAt, IsWithinLimits, TellsManyFirst};
ghost use Rattle.tup_scan.specs.Seen as specs;
ghost use Rattle.tup_scan.specs.Seen.{IsSeen, AreStamped, AreFiles};

use crate::fault::ScanFault;
use crate::pulse::Pulse;
use crate::room::has_room;
use crate::seen::{Seen, Stamps};
use std::alloc::{AllocError, Global};
use tup_path::{Path, Text};
use tup_site::Site;
use tup_stamp::{Stamp, stamp_of};

/// What the tree of a site holds: the stamp of each file, in the order of paths, and the content of tup.config.
///
/// Files are read one at a time, so memory is that of the longest and of the list. The pulse is told of each before it
/// is digested.
///
/// `TooManyFiles` comes before any file is read, and names their number; `TooLarge` names the length of one
/// that is longer than a file may be. The site is as it was, whatever the answer.
pub fn scan<S: Site, P: Pulse>(alloc: Global, site: &mut S, pulse: &P) -> Result<Seen, ScanFault>
    ensures seen { IsTrue S.tells → IfOk result (IsSeen (S.world site.old).tree) }
    ensures few { IfOk result (λ seen. length seen.files ≤ 1048576) }
    ensures within { IsTrue S.tells → IfOk result (λ seen. IsWithinLimits (S.world site.old).tree) }

    ensures above { IsAbove result }
    ensures named { IsTrue S.tells → IsOf (S.world site.old).tree result }
    ensures first { IsTrue S.tells → TellsManyFirst (S.world site.old).tree result }
    ensures cause { CountsFaults (S.faults site.old) (S.faults site.new) result }

    ensures same { IsTrue S.tells → S.world site.new ≡ S.world site.old }
    ensures crash { IsTrue S.tells → GoesOn S.moment S.left_since site.old site.new NoStep }
    ensures known { IsTrue S.tells → S.known site.new ≡ S.known site.old }
{
    let paths = site.list(alloc)?;
    let found = paths.len() as u64;
    if !has_room(site, found) {
        return Err(ScanFault::TooManyFiles(found));
    }
    let files = stamps_of(alloc, site, paths.as_slice(), pulse)?;
    // Read behind its stamp: where somebody changes the file in between, the next scan sees another stamp.
    let config = site.get(alloc, &config_path(alloc)?)?;
    Ok(Seen { files, config })
}

/// The stamps of the files at these paths, in their order.
fn stamps_of<S: Site, P: Pulse>(
    alloc: Global,
    site: &mut S,
    paths: &[Path],
    pulse: &P,
) -> Result<Stamps, ScanFault>
    requires few { length paths.now ≤ 1048576 }
    requires files { IsTrue S.tells → AreFiles (S.world site.old).tree paths.now }
    ensures paths { IsTrue S.tells → IfOk result (λ files. map (λ file. file.0) files ≡ paths.now) }
    ensures stamps { IsTrue S.tells → IfOk result (AreStamped (S.world site.old).tree) }
    ensures few { IfOk result (λ files. length files ≤ 1048576) }
    ensures small { IsTrue S.tells
        → OnOk result (All (IsSmallAt (S.world site.old).tree) paths.now) }

    ensures above { IsAbove result }
    ensures named { IsTrue S.tells → IsOf (S.world site.old).tree result }
    ensures cause { CountsFaults (S.faults site.old) (S.faults site.new) result }

    ensures same { IsTrue S.tells → S.world site.new ≡ S.world site.old }
    ensures crash { IsTrue S.tells → GoesOn S.moment S.left_since site.old site.new NoStep }
    ensures known { IsTrue S.tells → S.known site.new ≡ S.known site.old }
{
    let mut files = Stamps::new(alloc);
    for (place, path) in paths.iter().enumerate() {
        if let Some(stamp) = stamp_at(alloc, site, path, place as u32, pulse)? {
            files.push((path.clone()?, stamp))?;
        }
    }
    Ok(files)
}

/// The stamp of the file at this path, the one at this place in the list.
fn stamp_at<S: Site, P: Pulse>(
    alloc: Global,
    site: &mut S,
    path: &Path,
    place: u32,
    pulse: &P,
) -> Result<Option<Stamp>, ScanFault>
    ensures stamp { IsTrue S.tells → IfOk result
        (λ found. found ≡ option_map stamp (finite.get (S.world site.old).tree path.now)) }
    ensures small { IsTrue S.tells → OnOk result (IsSmallAt (S.world site.old).tree path.now) }

    ensures above { IsAbove result }
    ensures named { IsTrue S.tells → IsOf (S.world site.old).tree result }
    ensures cause { CountsFaults (S.faults site.old) (S.faults site.new) result }

    ensures same { IsTrue S.tells → S.world site.new ≡ S.world site.old }
    ensures crash { IsTrue S.tells → GoesOn S.moment S.left_since site.old site.new NoStep }
    ensures known { IsTrue S.tells → S.known site.new ≡ S.known site.old }
{
    let Some(content) = site.get(alloc, path)? else {
        return Ok(None);
    };
    pulse.pass(place);
    Ok(Some(stamp_of(content.as_slice())))
}

/// `tup.config` at the top.
fn config_path(alloc: Global) -> Result<Path, AllocError>
    ensures { IfOk result (λ path. path ≡ specs.config_path) }
{
    match Path::top(alloc).join(alloc, &Text::from_str(alloc, "tup.config")?) {
        Ok(path) => Ok(path),
        Err(_) => Err(AllocError),
    }
}
