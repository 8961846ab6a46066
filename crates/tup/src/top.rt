//! Where the project is.
ghost use Rattle.std.specs.Prelude.{◌≡◌, IfOk, string_bytes};
ghost use Rattle.tup.specs.Places.{inside, parent_of};

use crate::told;
use std::alloc::{AllocError, Global};
use std::env::Env;
use std::fs;
use std::fs::Metadata;
use std::io::ErrorKind;
use std::os::unix::fs::MetadataExt;
use tup_top::Status;

/// The program's own folder, in the top folder of each project.
const OWN: &str = ".tup";

/// The file that says that a project begins in its folder, and holds its options.
pub(crate) const SHARED_OPTIONS: &str = "Tupfile.ini";

/// The longest path of a working folder that the system gives.
const LONGEST: usize = 4096;

/// The top folder of a project.
#[derive(Drop)]
pub(crate) struct Top {
    /// The path of the folder from the working folder: `.`, `..`, `../..` and so on.
    pub(crate) root: String,
    /// Whether it has a `.tup`.
    pub(crate) has_own: bool,
    /// Whether it has a file `Tupfile.ini`.
    pub(crate) is_shared: bool,
}

impl Top {
    /// The working folder, in which nothing was looked for.
    pub(crate) fn here(alloc: Global) -> Result<Top, AllocError> {
        Ok(Top {
            root: String::from_str(alloc, ".")?,
            has_own: false,
            is_shared: false,
        })
    }

    /// Whether a project begins here that hasn't begun.
    pub(crate) fn is_to_begin(&self) -> bool {
        self.is_shared && !self.has_own
    }

    /// Whether it is the working folder.
    pub(crate) fn is_here(&self) -> bool {
        self.root.as_str() == "."
    }

    /// The path of what has this path in the top folder.
    pub(crate) fn place(&self, alloc: Global, path: &str) -> Result<String, AllocError>
        ensures { IfOk result
            (λ place. string_bytes place ≡ inside (string_bytes self.now.root) path.now) }
    {
        place_in(alloc, self.root.as_str(), path)
    }
}

/// The path of what has this path in a folder.
fn place_in(alloc: Global, folder: &str, path: &str) -> Result<String, AllocError>
    ensures { IfOk result (λ place. string_bytes place ≡ inside folder.now path.now) }
{
    if folder == "." {
        String::from_str(alloc, path)
    } else {
        format!(in alloc; "{folder}/{path}")
    }
}

/// The path of the folder above one of these folders.
fn parent(alloc: Global, folder: &str) -> Result<String, AllocError>
    ensures { IfOk result (λ parent. string_bytes parent ≡ parent_of folder.now) }
{
    place_in(alloc, folder, "..")
}

/// What a search for the top folder has come to.
#[derive(Drop)]
enum Search {
    Found(Top),
    /// The place of another user's `.tup`.
    Foreign(String),
}

/// The top folder: the working folder, or the first above it, that has a `.tup`; where none has
/// one, the topmost with a `Tupfile.ini`; and where none has this either, the working folder. Or
/// else the exit number, after the reason was printed.
pub(crate) fn find(rt: HostRuntime, alloc: Global) -> Result<Top, u8> {
    match look_upward(rt, alloc) {
        Ok(Search::Found(top)) => Ok(top),
        Ok(Search::Foreign(place)) => Err(refuse(rt, place.as_str())),
        Err(_) => Err(told(&rt, Status::Memory)),
    }
}

/// Tells of a project above the working folder that belongs to another user. What its files ask for
/// runs only where it was called for in that folder.
fn refuse(rt: HostRuntime, place: &str) -> u8 {
    // Words that can't be printed change nothing: the exit number says as much.
    drop(eprintln!(rt; "tup: {place} belongs to another user: call tup in its folder"));
    told(&rt, Status::NotInit)
}

/// Looks upward, folder by folder, as far as they may be entered.
fn look_upward(rt: HostRuntime, alloc: Global) -> Result<Search, AllocError> {
    let mut folder = String::from_str(alloc, ".")?;
    let mut topmost = Top::here(alloc)?;
    for level in 0..=folders_above(rt) {
        let own = place_in(alloc, folder.as_str(), OWN)?;
        match found_at(rt, own.as_str()) {
            Standing::Something(found) if is_trusted(level, &found) => {
                return begun(rt, alloc, folder);
            }
            Standing::Something(_) => return Ok(Search::Foreign(own)),
            Standing::Nothing => {}
            Standing::Unknown => break,
        }
        if asks_to_begin(rt, alloc, folder.as_str(), level)? {
            topmost = to_begin(folder.clone()?);
        }
        folder = parent(alloc, folder.as_str())?;
    }
    Ok(Search::Found(topmost))
}

/// The project that has begun in this folder.
fn begun(rt: HostRuntime, alloc: Global, root: String) -> Result<Search, AllocError> {
    let is_shared = shared(rt, alloc, root.as_str())?.is_some();
    Ok(Search::Found(Top {
        root,
        has_own: true,
        is_shared,
    }))
}

/// The project that is to begin in this folder.
fn to_begin(root: String) -> Top {
    Top {
        root,
        has_own: false,
        is_shared: true,
    }
}

/// Whether a project is to begin in a folder so many levels up.
fn asks_to_begin(
    rt: HostRuntime,
    alloc: Global,
    folder: &str,
    level: usize,
) -> Result<bool, AllocError> {
    Ok(match shared(rt, alloc, folder)? {
        Some(found) => is_trusted(level, &found),
        None => false,
    })
}

/// The file `Tupfile.ini` of a folder, if it has one.
fn shared(rt: HostRuntime, alloc: Global, folder: &str) -> Result<Option<Metadata>, AllocError> {
    let place = place_in(alloc, folder, SHARED_OPTIONS)?;
    Ok(match found_at(rt, place.as_str()) {
        Standing::Something(found) if found.is_file() => Some(found),
        _ => None,
    })
}

/// Whether what was found so many levels up may say what is run: it was called for there, or it is
/// the user's own.
fn is_trusted(level: usize, found: &Metadata) -> bool {
    level == 0 || found.uid() == libc::geteuid()
}

/// What is at a place.
#[derive(Drop)]
enum Standing {
    Something(Metadata),
    Nothing,
    /// It can't be looked at.
    Unknown,
}

/// What is at a place; no link is followed at its end.
fn found_at(rt: HostRuntime, place: &str) -> Standing {
    match fs::symlink_metadata(&rt, place) {
        Ok(found) => Standing::Something(found),
        Err(e) if e.kind() == ErrorKind::NotFound => Standing::Nothing,
        Err(_) => Standing::Unknown,
    }
}

/// How many folders may be above the working folder. None where that has no path.
fn folders_above(rt: HostRuntime) -> usize {
    let mut buffer = [0; LONGEST];
    match rt.current_dir(&mut buffer) {
        Ok(len) => slashes(&buffer[..len]),
        Err(_) => 0,
    }
}

/// Whether the path of the working folder is a text, as far as it has one.
pub(crate) fn is_named_in_text(rt: HostRuntime) -> bool {
    let mut buffer = [0; LONGEST];
    match rt.current_dir(&mut buffer) {
        Ok(len) => str::from_utf8(&buffer[..len]).is_ok(),
        Err(_) => true,
    }
}

fn slashes(path: &[u8]) -> usize {
    path.iter().filter(|byte| **byte == b'/').count()
}
