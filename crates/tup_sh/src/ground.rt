//! What is mounted where a command runs: in the project, and at other places of the system from where the project is reached.
use std::fs::File;
use std::os::unix::fs::MetadataExt;
use std::rt::Files;
use std::{fs, str};
use tup_child::{Failure, Tree};
use tup_disk::{Mount, mounts};

/// The file systems by whose times of change it is seen that a file was changed: they have the clock of this system.
const TIMED: [&str; 8] = [
    "ext2", "ext3", "ext4", "xfs", "btrfs", "f2fs", "tmpfs", "overlay",
];

/// The file systems that can't hold what an overlay writes.
const UNFIT: [&str; 12] = [
    "overlay", "nfs", "nfs4", "9p", "virtiofs", "cifs", "smb3", "vfat", "exfat", "ntfs3", "msdos",
    "ecryptfs",
];

/// Another place of the system where the project stands, or a part of it.
#[derive(Drop)]
pub(crate) struct Alias {
    /// The part, from the top: with a slash in front, or nothing.
    pub(crate) part: String,
    pub(crate) place: String,
}

/// What is mounted where a command runs.
#[derive(Drop)]
pub(crate) struct Ground {
    /// Where other file systems are mounted in the project, from the top.
    pub(crate) points: Vec<String>,
    pub(crate) aliases: Vec<Alias>,
    /// Whether the stage can hold what the overlay writes.
    pub(crate) is_fit: bool,
    /// Whether the stage has the clock of this system.
    pub(crate) is_clocked: bool,
    /// Whether something is mounted below `/proc`.
    pub(crate) is_masked: bool,
    /// The file systems, in the order in which they were mounted.
    mounts: Vec<Mount>,
}

impl Ground {
    /// What is mounted where the commands of a project run.
    pub(crate) fn of<R: Files<File = File> + Clone + Drop>(
        tree: &Tree<R>,
    ) -> Result<Ground, Failure> {
        let mounts = mounts(&tree.rt, tree.alloc)?;
        let mut ground = Ground {
            points: Vec::new(tree.alloc),
            aliases: Vec::new(tree.alloc),
            is_fit: true,
            is_clocked: true,
            is_masked: has_masks(mounts.as_slice()),
            mounts,
        };
        let stage = stage_of(tree)?;
        ground.is_fit = !ground.is_one_of(stage.as_slice(), UNFIT.as_slice());
        ground.is_clocked = ground.is_one_of(stage.as_slice(), TIMED.as_slice());
        ground.add_points(tree)?;
        ground.add_aliases(tree)?;
        Ok(ground)
    }

    /// A place below another one where the project stands, as it is named below the top. `None` for all others.
    pub(crate) fn home<R: Files<File = File> + Clone + Drop>(
        &self,
        tree: &Tree<R>,
        place: &str,
    ) -> Result<Option<String>, Failure> {
        let root = tree.root.as_str();
        for Alias { part, place: other } in &self.aliases {
            if let Some(rest) = place.strip_prefix(other.as_str()) {
                if rest.is_empty() || rest.starts_with('/') {
                    return Ok(Some(format!(in tree.alloc; "{root}{part}{rest}")?));
                }
            }
        }
        Ok(None)
    }

    /// Whether it is seen when what stands at a place was changed.
    pub(crate) fn is_timed(&self, place: &str) -> bool {
        self.is_clocked && self.is_one_of(place.as_bytes(), TIMED.as_slice())
    }

    /// Whether what stands at a place lies on one of these file systems.
    fn is_one_of(&self, place: &[u8], kinds: &[&str]) -> bool {
        match holder(self.mounts.as_slice(), place) {
            Some(mount) => kinds
                .iter()
                .any(|kind| kind.as_bytes() == mount.kind.as_slice()),
            None => false,
        }
    }

    /// Adds the places where other file systems are mounted in the project.
    fn add_points<R: Files<File = File> + Clone + Drop>(
        &mut self,
        tree: &Tree<R>,
    ) -> Result<(), Failure> {
        for mount in &self.mounts {
            if let Some(name) = point_in(tree.root.as_str(), mount)? {
                self.points.push(String::from_str(tree.alloc, name)?)?;
            }
        }
        Ok(())
    }

    /// Adds the other places where the project stands, or a part of it.
    fn add_aliases<R: Files<File = File> + Clone + Drop>(
        &mut self,
        tree: &Tree<R>,
    ) -> Result<(), Failure> {
        let root = tree.root.as_str().as_bytes();
        let Some(home) = holder(self.mounts.as_slice(), root) else {
            return Ok(());
        };
        let rest = rest_in(root, home.point.as_slice()).unwrap_or(b"".as_slice());
        let inner = joined(tree, home.root.as_slice(), rest)?;
        for mount in &self.mounts {
            if mount.device == home.device {
                if let Some(alias) = alias_of(tree, inner.as_slice(), mount)? {
                    self.aliases.push(alias)?;
                }
            }
        }
        Ok(())
    }
}

/// Whether something is mounted below `/proc`.
fn has_masks(mounts: &[Mount]) -> bool {
    mounts.iter().any(|mount| mount.point.as_slice().starts_with(b"/proc/".as_slice()))
}

/// The path of the open folder of the stage.
fn stage_of<R: Files<File = File> + Clone + Drop>(tree: &Tree<R>) -> Result<Vec<u8>, Failure> {
    match tree.target(tree.stage.as_str())? {
        Some(path) => Ok(path.into_bytes()),
        None => Err(Failure::Because("the path of the stage isn't a text")),
    }
}

/// The mount that what stands at a place lies in: of the longest that lead there the last.
fn holder<'a>(mounts: &'a [Mount], place: &[u8]) -> Option<&'a Mount> {
    let mut found = None;
    let mut len = 0;
    for mount in mounts {
        if rest_in(place, mount.point.as_slice()).is_some() && mount.point.len() >= len {
            found = Some(mount);
            len = mount.point.len();
        }
    }
    found
}

/// The name from the top of where a file system is mounted in the project. What is in the program's own folder has none.
fn point_in<'a>(root: &str, mount: &'a Mount) -> Result<Option<&'a str>, Failure> {
    let Some([b'/', name @ ..]) = rest_in(mount.point.as_slice(), root.as_bytes()) else {
        return Ok(None);
    };
    if name.is_empty() || rest_in(name, b".tup".as_slice()).is_some() {
        return Ok(None);
    }
    Ok(Some(text_of(name)?))
}

/// The other place where a mount of the same file system shows the project, which has this path in it, or a part of it.
fn alias_of<R: Files<File = File> + Clone + Drop>(
    tree: &Tree<R>,
    inner: &[u8],
    mount: &Mount,
) -> Result<Option<Alias>, Failure> {
    if let Some(rest) = rest_in(inner, mount.root.as_slice()) {
        let place = joined(tree, mount.point.as_slice(), rest)?;
        return alias_at(tree, b"".as_slice(), place.as_slice());
    }
    match rest_in(mount.root.as_slice(), inner) {
        Some(part) => alias_at(tree, part, mount.point.as_slice()),
        None => Ok(None),
    }
}

/// A part of the project at another place, if it is there: another mount may hide it.
fn alias_at<R: Files<File = File> + Clone + Drop>(
    tree: &Tree<R>,
    part: &[u8],
    place: &[u8],
) -> Result<Option<Alias>, Failure> {
    if rest_in(place, tree.root.as_str().as_bytes()).is_some()
        || part.starts_with(b"/.tup".as_slice())
    {
        return Ok(None);
    }
    let alias = Alias {
        part: String::from_str(tree.alloc, text_of(part)?)?,
        place: String::from_str(tree.alloc, text_of(place)?)?,
    };
    if is_same(tree, &alias)? {
        Ok(Some(alias))
    } else {
        Ok(None)
    }
}

/// Whether a part of the project stands at the other place.
fn is_same<R: Files<File = File> + Clone + Drop>(
    tree: &Tree<R>,
    alias: &Alias,
) -> Result<bool, Failure> {
    let (root, part) = (tree.root.as_str(), alias.part.as_str());
    let own = format!(in tree.alloc; "{root}{part}")?;
    let there = fs::metadata(&tree.rt, alias.place.as_str());
    Ok(match (fs::metadata(&tree.rt, own.as_str()), there) {
        (Ok(own), Ok(there)) => (own.dev(), own.ino()) == (there.dev(), there.ino()),
        _ => false,
    })
}

/// What is left of a path below a folder: nothing for the folder itself, and else a slash and a name.
fn rest_in<'a>(path: &'a [u8], folder: &[u8]) -> Option<&'a [u8]> {
    if folder == b"/".as_slice() {
        return Some(path);
    }
    let rest = path.strip_prefix(folder)?;
    if rest.is_empty() || rest.starts_with(b"/".as_slice()) {
        Some(rest)
    } else {
        None
    }
}

/// A folder and what is below it.
fn joined<R: Files<File = File> + Clone + Drop>(
    tree: &Tree<R>,
    folder: &[u8],
    rest: &[u8],
) -> Result<Vec<u8>, Failure> {
    let front = if folder == b"/".as_slice() && !rest.is_empty() {
        b"".as_slice()
    } else {
        folder
    };
    let mut path = Vec::from_slice(tree.alloc, front)?;
    path.extend_from_slice(rest)?;
    Ok(path)
}

/// A name as a text.
fn text_of(name: &[u8]) -> Result<&str, Failure> {
    match str::from_utf8(name) {
        Ok(text) => Ok(text),
        Err(_) => Err(Failure::Because(
            "the project is mounted, or something in it, at a place whose name isn't a text",
        )),
    }
}
