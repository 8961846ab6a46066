//! Who else may have made the file at the place of the store.
ghost use Rattle.std.specs.Prelude.{◌≡◌};
ghost use Rattle.tup.specs.Makers as specs;

use crate::top::Top;
use std::alloc::Global;
use std::fs::File;
use std::os::unix::fs::FileExt;

/// The store of a project.
const STORE: &str = ".tup/db";

/// How many bytes of a store are looked at.
const LOOKED_AT: usize = 16;

/// Who made a store that isn't one of this version.
#[derive(Clone, Copy)]
pub(crate) enum Maker {
    /// An early version.
    Early,
    /// Another program of this name, as Debian has one.
    Other,
}

/// Who else made the file at a place, as far as its first bytes tell that.
pub(crate) fn maker_at(rt: HostRuntime, place: &str) -> Option<Maker> {
    let file = File::open(&rt, place).ok()?;
    let mut first = [0; LOOKED_AT];
    file.read_at(&mut first, 0).ok()?;
    maker_of(&first)
}

/// Who else made a store that begins so.
fn maker_of(first: &[u8]) -> Option<Maker>
    ensures { result ≡ specs.maker_of first.now }
{
    if first.starts_with(b"SQLite format 3") {
        Some(Maker::Other)
    } else if first.starts_with(b"tup-db\n\x01") {
        Some(Maker::Early)
    } else {
        None
    }
}

/// Says who else made the store of a project, and what is to be done then.
pub(crate) fn name_maker(rt: HostRuntime, alloc: Global, top: &Top) {
    if let Ok(store) = top.place(alloc, STORE) {
        if let Some(maker) = maker_at(rt, store.as_str()) {
            let said = said_of(maker);
            // Words that can't be printed change nothing: the exit number says as much.
            drop(eprintln!(rt; "tup: {store} {said}"));
        }
    }
}

/// What is said of a store that another made.
fn said_of(maker: Maker) -> &'static str
    ensures { result.now ≡ specs.said_of maker }
{
    match maker {
        Maker::Early => {
            "is of an early version: remove it and the files that were made, then `tup init` begins anew"
        }
        Maker::Other => "is of another tup (SQLite): move .tup away",
    }
}
