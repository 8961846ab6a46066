//! The calls `scan` and `passes`.
use crate::answers;
use crate::answers::counted;
use std::alloc::Global;
use std::sync::atomic::{AtomicU64, Ordering};
use tup_path::Path;
use tup_rows::{RowFault, Words};
use tup_scan::{Pulse, ScanFault, Seen, Still, scan};
use tup_site::{Site, SiteFailed};
use tup_stamp::{Stamp, hex, stamp_of};

/// What a scan of a site sees.
pub(crate) fn scanned<S: Site>(alloc: Global, site: &mut S) -> Words {
    match scan(alloc, site, &Still) {
        Ok(seen) => shown(alloc, &seen),
        Err(fault) => refused(alloc, fault),
    }
}

/// The stamps of all files, as the site knows them, or by what it reads.
pub(crate) fn stamps<S: Site>(alloc: Global, site: &mut S) -> Words {
    let paths = match site.list(alloc) {
        Ok(paths) => paths,
        Err(failed) => return answers::refused(alloc, failed),
    };
    let mut words = Words::new(alloc);
    for path in paths.as_slice() {
        words.show(alloc, path);
        match stamp(alloc, site, path) {
            Ok(Some(stamp)) => words.put(alloc, &hex(&stamp)),
            Ok(None) => words.put(alloc, b"none"),
            Err(_) => words.put(alloc, b"refused"),
        }
    }
    words
}

/// The stamp of a file, as the site knows it, or by what it reads.
fn stamp<S: Site>(alloc: Global, site: &mut S, path: &Path) -> Result<Option<Stamp>, SiteFailed> {
    if let Some(stamp) = site.noted(alloc, path)? {
        return Ok(Some(stamp));
    }
    match site.get(alloc, path)? {
        Some(content) => Ok(Some(stamp_of(content.as_slice()))),
        None => Ok(None),
    }
}

/// A pulse that keeps what it is told, as digits: for each file one more than its place.
#[derive(Drop)]
struct Digits {
    told: AtomicU64,
}

impl Pulse for Digits {
    fn pass(&self, file: u32) {
        let told = self.told.load(Ordering::SeqCst).wrapping_mul(10);
        self.told
            .store(told.wrapping_add(file as u64 + 1), Ordering::SeqCst);
    }
}

/// What a scan's pulse is told.
pub(crate) fn passes<S: Site>(alloc: Global, site: &mut S) -> Words {
    let pulse = Digits {
        told: AtomicU64::new(0),
    };
    let _ = scan(alloc, site, &pulse);
    Words::shown(alloc, &pulse.told.load(Ordering::SeqCst))
}

/// Each path with its stamp, and then the content of tup.config.
fn shown(alloc: Global, seen: &Seen) -> Words {
    let mut words = Words::new(alloc);
    for (path, stamp) in seen.files.as_slice() {
        words.show(alloc, path);
        words.put(alloc, &hex(stamp));
    }
    if let Some(config) = &seen.config {
        words.put(alloc, b"config");
        words.put(alloc, config.as_slice());
    }
    words
}

/// The words of a refusal; want of memory is no answer.
fn refused(alloc: Global, fault: ScanFault) -> Words {
    match fault {
        ScanFault::Site => Words::word(alloc, b"fault"),
        ScanFault::TooLarge(bytes) => counted(alloc, b"large", bytes),
        ScanFault::TooManyFiles(files) => counted(alloc, b"many", files),
        ScanFault::Memory => Words::none(alloc, RowFault::Memory),
    }
}
